// Prints what `mean::hundredths` answers to the point of each line of its input: the mean, `! N` for a refusal, or `?` where the line
// can't be read.
//
//     x COUNT SWITCH MIN MAX SUM BOUND FIRST SECOND           explicit: one bound, two buckets
//     e COUNT SWITCH MIN MAX SUM SCALE ZEROS FIRST LEN NEG    exponential: LEN positive counts from index 0 on, FIRST and then ones;
//                                                             NEG counts at the negative index 0, none if it is 0
//
// SWITCH is 0 or 1; MIN and MAX are bits or `-` for none, SUM and BOUND bits. SCALE is -10 to 20 and LEN at most 200, so that a point can
// disagree by them. With LEN 0 a FIRST other than 0 makes an empty row that starts at
// index 0's bin, and disagrees.
#![tactic(auto)]

mod fields;

use exponential::Counts;
use fields::Held;
use lines::{Block, output};
use point::{Figures, Point};
use refusals::Refusal;
use rows::Row;
use std::io::Stdout;

fn point_of(held: Held, figures: Figures) -> Point {
    Point {
        figures,
        extremes: held.extremes,
        min: held.min,
        max: held.max,
        sum: held.sum,
    }
}

// ---- rows

// Where the positive row starts, given the bin of index 0; an empty row that agrees starts at 0.
fn start_of(first: u64, len: u64, zero: u32) -> u32 {
    if len > 0 {
        return zero;
    }
    if first == 0 { 0 } else { zero }
}

fn negative_row(neg: u64, zero: u32) -> Row {
    if neg == 0 {
        return Row { start: 0, len: 0 };
    }
    Row {
        start: zero,
        len: 1,
    }
}

// The counts of a line `e`; no level is above 30, and no length above 200.
fn counts_of(count: u64, level: u64, zeros: u64, first: u64, len: u64, neg: u64) -> Counts {
    let at = (level % 32) as u32;
    let zero = 2u32 << at;
    let start = start_of(first, len, zero);
    let row = negative_row(neg, zero);
    Counts {
        count,
        zeros,
        level: at,
        pos: Row {
            start,
            len: (len % 256) as usize,
        },
        neg: row,
    }
}

// ---- answers

fn refusal(out: &Stdout, text: &mut Block, n: usize, no: Refusal) -> usize {
    let m = output::bytes(out, text, n, b"! ");
    output::decimal(out, text, m, no.number() as u64)
}

// The answer to a line `x`; none where it can't be read.
fn explicit_line(line: &[u8]) -> Option<Result<i64, Refusal>> {
    if text::spaces(line) != 8 {
        return None;
    }
    let held = fields::held_in(line)?;
    let bound = text::bits_at(line, 6)?;
    let first = text::decimal_at(line, 7)?;
    let second = text::decimal_at(line, 8)?;
    let bounds = [floats::of_bits(bound); 1];
    let pos = [first, second];
    let neg = [0u64; 1];
    let p = point_of(held, Figures::Explicit(held.count));
    Some(mean::hundredths(p, &bounds, &pos, &neg))
}

// The answer to a point whose positive row is `first` and then ones, and whose negative row is the count `below`.
fn rows_answer(p: Point, first: u64, below: u64) -> Result<i64, Refusal> {
    let bounds = [0.0f64; 1];
    let mut pos = [1u64; 200];
    pos[0] = first;
    let neg = [below; 1];
    mean::hundredths(p, &bounds, &pos, &neg)
}

// The answer to a line `e`; none where it can't be read.
fn exponential_line(line: &[u8]) -> Option<Result<i64, Refusal>> {
    if text::spaces(line) != 10 {
        return None;
    }
    let held = fields::held_in(line)?;
    let level = fields::level_at(line, 6)?;
    let zeros = text::decimal_at(line, 7)?;
    let first = text::decimal_at(line, 8)?;
    let len = fields::number_at(line, 9, 200)?;
    let neg = text::decimal_at(line, 10)?;
    let counts = counts_of(held.count, level, zeros, first, len, neg);
    let p = point_of(held, Figures::Exponential(counts));
    Some(rows_answer(p, first, neg))
}

fn answer_to(line: &[u8]) -> Option<Result<i64, Refusal>> {
    match fields::letter_in(line) {
        b'x' => explicit_line(line),
        b'e' => exponential_line(line),
        _ => None,
    }
}

// The answer to a line behind n bytes of text; how many there are then.
fn answer(out: &Stdout, text: &mut Block, n: usize, line: &[u8]) -> usize {
    match answer_to(line) {
        Some(Ok(mean)) => output::signed(out, text, n, mean),
        Some(Err(no)) => refusal(out, text, n, no),
        None => output::byte(out, text, n, b'?'),
    }
}

// ---- the run

// Whether there is no line: the input is over, and nothing stands behind its last newline.
fn is_none(len: usize, over: bool) -> bool {
    len == 0 && over
}

fn said(out: &Stdout, text: &mut Block, n: usize, line: &[u8], over: bool) -> usize {
    if is_none(line.len(), over) {
        return n;
    }
    let m = answer(out, text, n, line);
    output::byte(out, text, m, b'\n')
}

// Reads to the input's end. A proved loop has to end, and nothing says that the input does: no run uses up the turns.
fn main(rt: HostRuntime) {
    let input = rt.stdin();
    let out = rt.stdout();
    let mut block = [0u8; 65536];
    let mut text = [0u8; 65536];
    let mut line = [0u8; 256];
    let mut ports = lines::input::first();
    for _ in 0..u64::MAX {
        if ports.over {
            break;
        }
        ports = lines::input::next(&input, &out, ports, &mut block, &mut line, &text);
        ports.waiting = said(
            &out,
            &mut text,
            ports.waiting,
            lines::input::front(&line, ports.len),
            ports.over,
        );
    }
    output::write(&out, &text, ports.waiting);
}
