// Lines from blocks of the input.
ghost use Rattle.std.specs.Prelude.{◌≡◌, true, false, ◌⊎◌, ◌+◌, ◌≤◌, take};
ghost use Rattle.lines.specs.Reading.{Within, newline_in, newline_of, copied, taken, taken_line, NextLine};

use crate::{Block, Line};
use std::io::{Read, Stdin, Stdout};

// How far a program has read and written: the block's bytes from `at` to `end` are to be read; `len` bytes of the line are there, 256 of
// one that is too long; whether the line has ended, and whether the input has; `waiting` bytes of text are to be written.
#[derive(Clone, Copy)]
pub struct Ports {
    pub at: usize,
    pub end: usize,
    pub len: usize,
    pub ended: bool,
    pub over: bool,
    pub waiting: usize,
}

// Before anything is read.
pub fn first() -> Ports
    ensures { (result.at ≡ 0) × (result.end ≡ 0) × (result.len ≡ 0) × (result.waiting ≡ 0) × (result.ended ≡ false) × (result.over ≡ false) }
{
    Ports {
        at: 0,
        end: 0,
        len: 0,
        ended: false,
        over: false,
        waiting: 0,
    }
}

// Whether one of eight bytes of the block is a newline. The loop goes on behind a newline, so that the compiler can test all eight at once.
fn in_eight(block: &Block, from: usize) -> bool
    requires { from + 8 ≤ 65536 }
    ensures { result ≡ newline_in block.now from 8 }
{
    let mut found = false;
    for byte in &block[from..from + 8] {
        found |= *byte == b'\n';
    }
    found
}

// How far there is no newline among the block's bytes from a place on, eight by eight.
fn skipped(block: &Block, from: usize, end: usize) -> usize
    requires { (from ≤ end) × (end ≤ 65536) }
    ensures { (from ≤ result) × (result ≤ end) × (newline_of block.now result end ≡ newline_of block.now from end) }
{
    let mut i = from;
    while i + 8 <= end && !in_eight(block, i) {
        i += 8;
    }
    i
}

// Where the next newline stands among the block's bytes from a place to an end; the end where there is none.
fn newline(block: &Block, from: usize, end: usize) -> usize
    requires { (from ≤ end) × (end ≤ 65536) }
    ensures { (from ≤ result) × (result ≤ end) × (result ≡ newline_of block.now from end) }
{
    for i in skipped(block, from, end)..end {
        if block[i] == b'\n' {
            return i;
        }
    }
    end
}

// Copies n bytes of the block behind the first len of the line.
fn copy(block: &Block, from: usize, line: &mut Line, len: usize, n: usize)
    requires { (from + n ≤ 65536) × (len + n ≤ 256) }
    ensures { line.new ≡ copied line.old len block.now from n }
{
    line[len..len + n].copy_from_slice(&block[from..from + n]);
}

// Goes on with the line to its end or the block's. What a line has above 256 bytes is left out.
fn take(p: Ports, block: &Block, line: &mut Line) -> Ports
    ensures { (Within result.at result.end result.len) × (result.waiting ≡ p.waiting)
        × (result ≡ taken p block.now) × (line.new ≡ taken_line p block.now line.old) }
{
    let end = p.end.min(65536);
    let at = p.at.min(end);
    let len = p.len.min(256);
    let stop = newline(block, at, end);
    let n = (stop - at).min(256 - len);
    copy(block, at, line, len, n);
    if stop < end {
        return Ports {
            at: stop + 1,
            end,
            len: len + n,
            ended: true,
            over: false,
            waiting: p.waiting,
        };
    }
    Ports {
        at: end,
        end,
        len: len + n,
        ended: false,
        over: false,
        waiting: p.waiting,
    }
}

// Fills the block by one read: how many bytes there are, 0 where there are no more. A read that fails counts as the input's end.
fn fill(input: &Stdin, block: &mut Block) -> usize {
    let mut from = input;
    match from.read(block) {
        Ok(n) => n,
        Err(_) => 0,
    }
}

// Goes on with the line in a new block. The text that waits is written before the read, which may wait for input: whoever sends that input may want
// to see the answers to the lines before it.
fn go_on(
    input: &Stdin,
    out: &Stdout,
    p: Ports,
    block: &mut Block,
    line: &mut Line,
    text: &Block,
) -> Ports
    requires { p.len ≤ 256 }
    ensures { (Within result.at result.end result.len) × (result.waiting ≡ 0) }
{
    crate::output::write(out, text, p.waiting);
    let n = fill(input, block);
    if n == 0 {
        return Ports {
            at: 0,
            end: 0,
            len: p.len,
            ended: true,
            over: true,
            waiting: 0,
        };
    }
    let next = Ports {
        at: 0,
        end: n,
        len: p.len,
        ended: false,
        over: false,
        waiting: 0,
    };
    take(next, block, line)
}

// Reads the next line. At the input's end it has no bytes where there was none.
// A proved loop has to end, and nothing says that the input does: no run uses up the turns.
pub fn next(
    input: &Stdin,
    out: &Stdout,
    p: Ports,
    block: &mut Block,
    line: &mut Line,
    text: &Block,
) -> Ports
    ensures { (Within result.at result.end result.len) × ((result.waiting ≡ p.waiting) ⊎ (result.waiting ≡ 0))
        × (NextLine p block.old line.old result block.new line.new) }
{
    let fresh = Ports {
        at: p.at,
        end: p.end,
        len: 0,
        ended: false,
        over: false,
        waiting: p.waiting,
    };
    let mut now = take(fresh, block, line);
    for _ in 0..u64::MAX {
        if now.ended {
            break;
        }
        now = go_on(input, out, now, block, line, text);
    }
    now
}

fn first_of<'a>(bytes: &'a [u8], n: usize) -> &'a [u8]
    ensures { result.now ≡ take n bytes.now }
{
    if n < bytes.len() {
        return &bytes[0..n];
    }
    bytes
}

// The first bytes of the line's store: the line as it was read, one of 256 bytes if it is too long.
pub fn front<'a>(line: &'a Line, len: usize) -> &'a [u8]
    ensures { result.now ≡ take len line.now }
{
    first_of(line, len)
}
