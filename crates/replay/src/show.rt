// Answers printed behind n bytes of text; how many bytes there are then.
use lines::{Block, Line, output};
use replay_state::{Fault, State, lent, stores};
use std::io::Stdout;

// A letter and two numbers.
fn pair(out: &Stdout, text: &mut Block, n: usize, letter: u8, first: u64, second: u64) -> usize {
    let a = output::byte(out, text, n, letter);
    let b = printing::number(out, text, a, first);
    let c = printing::number(out, text, b, second);
    output::byte(out, text, c, b'\n')
}

fn name(out: &Stdout, text: &mut Block, n: usize, line: &Line, len: usize) -> usize {
    let a = output::bytes(out, text, n, lines::input::front(line, len));
    output::byte(out, text, a, b'\n')
}

// The lowest place that holds the birth number that a binding told.
fn first_of(s: State) -> u64 {
    let found = s.handles[..99].iter().position(|held| *held == s.told);
    found.unwrap_or(99) as u64
}

fn listed<'a>(
    out: &Stdout,
    text: &mut Block,
    n: usize,
    s: State,
    bounds: &stores::Bounds,
    sets: &stores::ListedSets,
    words: &stores::ListedWords,
    pos: &'a stores::ListedCounts,
    neg: &'a stores::ListedCounts,
) -> usize {
    if replay_state::is_single(s.collected) {
        return printing::values(out, text, n, s.told, s.f[1], s.listed, sets, pos);
    }
    let own = lent::bounds_in(bounds, 2, 200);
    whole_printing::collection(
        out, text, n, s.told, s.f[1], s.listed, sets, words, pos, neg, own,
    )
}

// Prints what the line of a number came to; the map's own line is another's. One with many values says how many were taken, refused or not.
pub fn answer<'a>(
    out: &Stdout,
    text: &mut Block,
    n: usize,
    number: u64,
    s: State,
    line: &Line,
    len: usize,
    bounds: &stores::Bounds,
    sets: &stores::ListedSets,
    words: &stores::ListedWords,
    pos: &'a stores::ListedCounts,
    neg: &'a stores::ListedCounts,
) -> usize {
    let letter = s.letter;
    match s.no {
        Err(Fault::Unread) => printing::unread(out, text, n, number),
        Err(fault) => {
            let no = fault.number() as u64;
            match letter {
                b'R' | b'H' => pair(out, text, n, b'a', s.told, no),
                _ => pair(out, text, n, b'!', number, no),
            }
        }
        Ok(_) => match letter {
            b'=' => name(out, text, n, line, len),
            b'R' | b'H' => pair(out, text, n, b'a', s.told, 0),
            b'b' => pair(out, text, n, letter, s.f[1], first_of(s)),
            b'c' => listed(out, text, n, s, bounds, sets, words, pos, neg),
            b'j' => {
                replay_cells::kept::printed(out, text, n, s.f[1], bounds, sets, words, pos, neg)
            }
            _ => n,
        },
    }
}
