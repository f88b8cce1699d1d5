// Number 12 of all stores at once: the least of them is asked for limit + 2 entries, for every other has as many.
ghost use Rattle.std.specs.Prelude.{◌≡◌, ◌&&◌, ◌+◌, min, leb};

// The lesser of two numbers.
pub fn lesser(a: usize, b: usize) -> usize
    ensures { result ≡ min a b }
{
    a.min(b)
}

// Whether the directory's stores of these lengths have limit + 2 entries each, and a kind's cells, with room for so many slots, too.
pub fn suffices(limit: u64, sets: usize, entries: usize, order: usize, cells: usize) -> bool
    ensures { result ≡ ((leb (limit + 2) sets && (leb (limit + 2) entries && leb (limit + 2) order)) && leb (limit + 2) cells) }
{
    let rest = lesser(order, cells);
    let least = lesser(lesser(sets, entries), rest);
    directory::suffices(limit, least)
}
