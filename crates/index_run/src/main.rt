// Prints the bucket index of each line `SCALE BITS` of its input, or `?` where the line cannot be read or has no index.
#![tactic(auto)]

use index::signed::Index;
use lines::{Block, output};
use std::io::Stdout;
use text::Integer;

// The scale that was read; no scale has more than three digits.
fn scale_of(negative: bool, size: u64) -> i32 {
    let n = (size % 1000) as i32;
    if negative { 0 - n } else { n }
}

// The bucket index that a line asks for; none where the line can't be read or has no index.
fn index_of(line: &[u8]) -> Option<i32> {
    if text::spaces(line) != 1 {
        return None;
    }
    let Integer { negative, size } = text::signed_at(line, 0)?;
    let bits = text::bits_at(line, 1)?;
    if 999 < size {
        return None;
    }
    match index::signed::get_index(floats::of_bits(bits), scale_of(negative, size)) {
        Index::At { negative: _, index } => Some(index),
        _ => None,
    }
}

// The answer to a line behind n bytes of text; how many there are then.
fn answer(out: &Stdout, text: &mut Block, n: usize, line: &[u8]) -> usize {
    match index_of(line) {
        Some(index) => output::signed(out, text, n, index as i64),
        None => output::byte(out, text, n, b'?'),
    }
}

// Whether there is no line: the input is over, and nothing stands behind its last newline.
fn is_none(len: usize, over: bool) -> bool {
    len == 0 && over
}

fn said(out: &Stdout, text: &mut Block, n: usize, line: &[u8], over: bool) -> usize {
    if is_none(line.len(), over) {
        return n;
    }
    let m = answer(out, text, n, line);
    output::byte(out, text, m, b'\n')
}

// Reads to the input's end. A proved loop has to end, and nothing says that the input does: no run uses up the turns.
fn main(rt: HostRuntime) {
    let input = rt.stdin();
    let out = rt.stdout();
    let mut block = [0u8; 65536];
    let mut text = [0u8; 65536];
    let mut line = [0u8; 256];
    let mut ports = lines::input::first();
    for _ in 0..u64::MAX {
        if ports.over {
            break;
        }
        ports = lines::input::next(&input, &out, ports, &mut block, &mut line, &text);
        ports.waiting = said(
            &out,
            &mut text,
            ports.waiting,
            lines::input::front(&line, ports.len),
            ports.over,
        );
    }
    output::write(&out, &text, ports.waiting);
}
