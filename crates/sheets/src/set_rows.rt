// The row of a set in a list or a sheet: whether it is one, and whether the sets of two rows ascend.
ghost use Rattle.std.specs.Prelude.{◌≡◌, ◌-◌, ◌+◌, ◌≤◌, eqb, get_or};
ghost use Rattle.sets.specs.All.{allb};
ghost use Rattle.sets.specs.Rows.{size, set_of, below};
ghost use Rattle.tally.specs.Sets.{cmp};
ghost use Rattle.sheets.specs.Inner.{row_fine};

// Whether the words from n on, before the last, are zeros.
fn zeros_from(row: &[u64; 9], n: usize) -> bool
    requires { n ≤ 8 }
    ensures { result ≡ allb (8 - n) (λ i. eqb (get_or row.now (n + i) 0) 0) }
{
    for i in n..8 {
        if row[i] != 0 {
            return false;
        }
    }
    true
}

// Whether a row is that of a set that a sheet takes: the empty set, or 1 to 8 attributes with rising keys; zeros behind them. By value:
// behind a reference its length is not known.
pub fn row_fine(row: [u64; 9]) -> bool
    ensures { result ≡ row_fine row }
{
    let n = row[8];
    if n > 8 {
        return false;
    }
    if !zeros_from(&row, n as usize) {
        return false;
    }
    if n == 0 {
        return true;
    }
    sets::set_row::sound(&row)
}

// Whether the first set comes before the second.
pub fn ascends(a: &[u64; 9], b: &[u64; 9]) -> bool
    requires { (size a.now ≤ 8) × (size b.now ≤ 8) }
    ensures { result ≡ below (cmp (set_of a.now) (set_of b.now)) }
{
    sets::set_row::compare(a, b).is_lt()
}
