// Damage (`d`): one cell of a store, or of the state, set to a number.
//
// Whether a cell is there is asked first, for all stores; so a place is cut to its store's length only for the proof.
use replay_state::{State, after, byte, cut, stores, within};

// Whether a cell lies within so many places of so many cells.
fn inside(place: u64, places: u64, cell: u64, cells: u64) -> bool {
    if places <= place {
        return false;
    }
    cell < cells
}

// Whether a store has a cell at a place.
fn is_there(store: u8, place: u64, cell: u64) -> bool {
    match store {
        b's' => inside(place, 66, cell, 9),
        b'e' | b'm' => inside(place, 66, cell, 3),
        b'o' | b't' | b'l' => inside(place, 66, cell, 1),
        b'f' => inside(place, 66, cell, 8),
        b'p' | b'n' => inside(place, 10560, cell, 1),
        b'b' => inside(place, 200, cell, 1),
        b'v' => cell < 8,
        b'w' => inside(place, 8, cell, 12),
        b'P' | b'N' => inside(place, 8, cell, 160),
        b'B' => inside(place, 8, cell, 200),
        _ => false,
    }
}

// Whether a store is that of the kept points.
fn is_kept(store: u8) -> bool {
    match store {
        b'w' | b'P' | b'N' | b'B' => true,
        _ => false,
    }
}

// Whether a line's cell is there, and can hold its number.
fn can(s: State) -> bool {
    let store = byte(s.f[1]);
    if store == b'o' && 0xFFFF_FFFF < s.f[4] {
        return false;
    }
    is_there(store, s.f[2], s.f[3])
}

fn in_state(s: State, cell: u64, n: u64) -> State {
    let mut d = s.dir;
    let mut next = s;
    match cell {
        0 => d.used = n as usize,
        1 => d.count = n,
        2 => d.last = n,
        3 => next.limit = n,
        4 => next.size = cut(n),
        5 => next.top = cut(n),
        6 => next.bounds = n as usize,
        _ => next.keys = n as usize,
    }
    next.dir = d;
    next
}

// Sets a minimum, a maximum or a sum: an i64 by its two's complement where the configured number kind is that.
fn numbers(s: State, extremes: &mut stores::Extremes, wholes: &mut stores::Wholes) {
    let i = within(s.f[2], 65);
    let k = within(s.f[3], 2);
    if replay_state::is_whole(s.kind) {
        wholes[i][k] = integers::of_bits(s.f[4]);
    } else {
        extremes[i][k] = floats::of_bits(s.f[4]);
    }
}

// Follows a line that damages the map, or the state.
pub fn set(
    s: State,
    bounds: &mut stores::Bounds,
    sets: &mut stores::Sets,
    entries: &mut stores::Entries,
    order: &mut stores::Order,
    figures: &mut stores::Figures,
    extremes: &mut stores::Extremes,
    wholes: &mut stores::Wholes,
    pos: &mut stores::Counts,
    neg: &mut stores::Others,
) -> State {
    let store = byte(s.f[1]);
    if s.letter != b'd' || is_kept(store) {
        return s;
    }
    if !can(s) {
        return after::unread(s);
    }
    let place = s.f[2];
    let cell = s.f[3];
    let n = s.f[4];
    match store {
        b's' => sets[within(place, 65)][within(cell, 8)] = n,
        b'e' => entries[within(place, 65)][within(cell, 2)] = n,
        b'o' => order[within(place, 65)] = cut(n),
        b'f' => figures[within(place, 65)][within(cell, 7)] = n,
        b'm' => numbers(s, extremes, wholes),
        b'p' => pos[within(place, 10559)] = n,
        b'n' => neg[within(place, 10559)] = n,
        b't' => neg[10560 + within(place, 65)] = n,
        b'b' => bounds[200 + within(place, 199)] = floats::of_bits(n),
        b'l' => bounds[2200 + within(place, 65)] = floats::of_bits(n),
        _ => return in_state(s, cell, n),
    }
    s
}

// Follows a line that damages a kept point.
pub fn set_kept(
    s: State,
    bounds: &mut stores::Bounds,
    words: &mut stores::ListedWords,
    pos: &mut stores::ListedCounts,
    neg: &mut stores::ListedCounts,
) -> State {
    let store = byte(s.f[1]);
    if !is_kept(store) {
        return s;
    }
    if !can(s) {
        return after::unread(s);
    }
    let place = within(s.f[2], 7);
    let cell = s.f[3];
    let n = s.f[4];
    match store {
        b'w' => words[66 + place][within(cell, 11)] = n,
        b'P' => pos[10560 + 160 * place + within(cell, 159)] = n,
        b'N' => neg[10560 + 160 * place + within(cell, 159)] = n,
        _ => bounds[600 + 200 * place + within(cell, 199)] = floats::of_bits(n),
    }
    s
}
