// The map shown (`s`): its state, and a checksum of every cell of each store, so that a stray write shows.
ghost use Rattle.std.specs.Prelude.{◌<◌, ◌≤◌};

use lines::{Block, output};
use printing::number;
use replay_state::{State, stores, within};
use std::io::Stdout;

// The store of checksum i, by its letter in a line `d`; the output's sets are `S`. The last is of the values of sums and last values, or of the
// rows of i64s, `i`.
fn store_of(i: usize, kind: u8) -> u8 {
    if replay_state::is_whole(kind) {
        return text::byte_at(b"seofmpntSwPNi", i);
    }
    text::byte_at(b"seofmpntSwPNl", i)
}

// How many checksums a map of a kind has: those of f64 histograms have no last one.
fn sums_of(kind: u8) -> usize
    ensures { result ≤ 13 }
{
    if replay_state::is_single(kind) || replay_state::is_whole(kind) {
        return 13;
    }
    12
}

// How many cells a store has.
fn cells(store: u8) -> usize {
    match store {
        b's' => 594,
        b'e' | b'm' | b'i' => 198,
        b'o' | b't' | b'l' => 66,
        b'f' => 528,
        b'p' | b'n' => 10560,
        b'S' => 666,
        b'w' => 888,
        _ => 11840,
    }
}

fn wide(x: u32) -> u64 {
    x as u64
}

// The bits of an f64 of a row.
fn bits(row: [f64; 3], i: usize) -> u64 {
    match i {
        0 => floats::bits_of(row[0]),
        1 => floats::bits_of(row[1]),
        _ => floats::bits_of(row[2]),
    }
}

// The two's complement of an i64 of a row.
fn whole_bits(row: [i64; 3], i: usize) -> u64 {
    match i {
        0 => integers::bits_of(row[0]),
        1 => integers::bits_of(row[1]),
        _ => integers::bits_of(row[2]),
    }
}

// The cell of a store at a place, counted through; its bits where it is an f64 or an i64.
fn cell(
    store: u8,
    i: usize,
    sets: &stores::Sets,
    entries: &stores::Entries,
    order: &stores::Order,
    figures: &stores::Figures,
    extremes: &stores::Extremes,
    wholes: &stores::Wholes,
    pos: &stores::Counts,
    neg: &stores::Others,
    out_sets: &stores::ListedSets,
    out_words: &stores::ListedWords,
    out_pos: &stores::ListedCounts,
    out_neg: &stores::ListedCounts,
    bounds: &stores::Bounds,
) -> u64 {
    let k = i as u64;
    match store {
        b's' => sets[within(k / 9, 65)][i % 9],
        b'e' => entries[within(k / 3, 65)][i % 3],
        b'o' => wide(order[within(k, 65)]),
        b'f' => figures[within(k / 8, 65)][i % 8],
        b'm' => bits(extremes[within(k / 3, 65)], i % 3),
        b'i' => whole_bits(wholes[within(k / 3, 65)], i % 3),
        b'p' => pos[within(k, 10559)],
        b'n' => neg[within(k, 10559)],
        b't' => neg[10560 + within(k, 65)],
        b'S' => out_sets[within(k / 9, 73)][i % 9],
        b'w' => out_words[within(k / 12, 73)][i % 12],
        b'P' => out_pos[within(k, 11839)],
        b'l' => floats::bits_of(bounds[2200 + within(k, 65)]),
        _ => out_neg[within(k, 11839)],
    }
}

fn mix(sum: u64, x: u64) -> u64
    ensures { result < 2147483647 }
{
    (sum % 2147483647 * 31 + x % 2147483647) % 2147483647
}

// The checksum of a store.
fn sum(
    store: u8,
    sets: &stores::Sets,
    entries: &stores::Entries,
    order: &stores::Order,
    figures: &stores::Figures,
    extremes: &stores::Extremes,
    wholes: &stores::Wholes,
    pos: &stores::Counts,
    neg: &stores::Others,
    out_sets: &stores::ListedSets,
    out_words: &stores::ListedWords,
    out_pos: &stores::ListedCounts,
    out_neg: &stores::ListedCounts,
    bounds: &stores::Bounds,
) -> u64 {
    let n = cells(store);
    let mut sum: u64 = 0;
    for i in 0..n {
        let x = cell(
            store, i, sets, entries, order, figures, extremes, wholes, pos, neg, out_sets,
            out_words, out_pos, out_neg, bounds,
        );
        sum = mix(sum, x);
    }
    sum
}

// The state's numbers.
fn state(out: &Stdout, text: &mut Block, n: usize, s: State) -> usize {
    let dir = s.dir;
    let a = output::byte(out, text, n, b's');
    let b = number(out, text, a, dir.used as u64);
    let c = number(out, text, b, dir.count);
    number(out, text, c, dir.last)
}

// Prints the map behind n bytes of text, if that is what a line asks for; how many bytes there are then.
pub fn shown(
    out: &Stdout,
    text: &mut Block,
    n: usize,
    s: State,
    sets: &stores::Sets,
    entries: &stores::Entries,
    order: &stores::Order,
    figures: &stores::Figures,
    extremes: &stores::Extremes,
    wholes: &stores::Wholes,
    pos: &stores::Counts,
    neg: &stores::Others,
    out_sets: &stores::ListedSets,
    out_words: &stores::ListedWords,
    out_pos: &stores::ListedCounts,
    out_neg: &stores::ListedCounts,
    bounds: &stores::Bounds,
) -> usize {
    if s.letter != b's' {
        return n;
    }
    let sums = sums_of(s.kind);
    let mut m = state(out, text, n, s);
    for i in 0..sums {
        let x = sum(
            store_of(i, s.kind),
            sets,
            entries,
            order,
            figures,
            extremes,
            wholes,
            pos,
            neg,
            out_sets,
            out_words,
            out_pos,
            out_neg,
            bounds,
        );
        m = number(out, text, m, x);
    }
    output::byte(out, text, m, b'\n')
}
