// Replays call scripts and prints their answers: docs/REPLAY.md has the language.
//
// Kinds `e`, `x`, `s` and `l` of f64, `e` and `x` of i64. Every script has stores of its own, so a new one finds them fresh.
#![tactic(auto)]

mod line;
mod show;

use lines::attributes::Attributes;
use lines::input::Ports;
use lines::{Block, Line};
use replay_batches::{Floats, Integers};
use replay_cells::{damage, kept};
use replay_state::{State, stores};
use std::io::{Stdin, Stdout};

// The calls of a map over i64.
fn make_wholes(
    s: State,
    attrs: &Attributes,
    bounds: &mut stores::Bounds,
    sets: &mut stores::Sets,
    entries: &mut stores::Entries,
    order: &mut stores::Order,
    figures: &mut stores::Figures,
    wholes: &mut stores::Wholes,
    pos: &mut stores::Counts,
    neg: &mut stores::Others,
    out_sets: &mut stores::ListedSets,
    out_words: &mut stores::ListedWords,
    out_pos: &mut stores::ListedCounts,
    out_neg: &mut stores::ListedCounts,
) -> State {
    let a = replay_exponential_wholes::follow(
        s, attrs, sets, entries, order, figures, wholes, pos, neg,
    );
    let b = replay_exponential_wholes::collect(
        a, sets, entries, order, figures, wholes, pos, neg, out_sets, out_words, out_pos, out_neg,
    );
    let c = replay_explicit_wholes::follow(
        b, attrs, bounds, sets, entries, order, wholes, pos, neg,
    );
    replay_explicit_wholes::collect(
        c, bounds, sets, entries, order, wholes, pos, neg, out_sets, out_words, out_pos, out_neg,
    )
}

// The calls with many values.
fn make_batches(
    s: State,
    floats: &Floats,
    integers: &Integers,
    attrs: &Attributes,
    bounds: &mut stores::Bounds,
    sets: &mut stores::Sets,
    entries: &mut stores::Entries,
    order: &mut stores::Order,
    figures: &mut stores::Figures,
    extremes: &mut stores::Extremes,
    wholes: &mut stores::Wholes,
    pos: &mut stores::Counts,
    neg: &mut stores::Others,
) -> State {
    let a = replay_batches::exponential_lines::follow(
        s, floats, attrs, sets, entries, order, figures, extremes, pos, neg,
    );
    let b = replay_batches::explicit_lines::follow(
        a, floats, attrs, bounds, sets, entries, order, extremes, pos, neg,
    );
    let c = replay_batches::single_lines::follow(b, floats, attrs, bounds, sets, entries, order);
    let d = replay_whole_batches::exponential_lines::follow(
        c, integers, attrs, sets, entries, order, figures, wholes, pos, neg,
    );
    replay_whole_batches::explicit_lines::follow(
        d, integers, attrs, bounds, sets, entries, order, wholes, pos, neg,
    )
}

// Makes what a line asks for: each call here follows the lines that are its own, and leaves the others.
fn make(
    s: State,
    floats: &Floats,
    integers: &Integers,
    attrs: &Attributes,
    bounds: &mut stores::Bounds,
    sets: &mut stores::Sets,
    entries: &mut stores::Entries,
    order: &mut stores::Order,
    figures: &mut stores::Figures,
    extremes: &mut stores::Extremes,
    wholes: &mut stores::Wholes,
    pos: &mut stores::Counts,
    neg: &mut stores::Others,
    out_sets: &mut stores::ListedSets,
    out_words: &mut stores::ListedWords,
    out_pos: &mut stores::ListedCounts,
    out_neg: &mut stores::ListedCounts,
) -> State {
    let a = replay_exponential::follow(s, attrs, sets, entries, order, figures, extremes, pos, neg);
    let b = replay_exponential::collect(
        a, sets, entries, order, figures, extremes, pos, neg, out_sets, out_words, out_pos, out_neg,
    );
    let c = replay_explicit::follow(b, attrs, bounds, sets, entries, order, extremes, pos, neg);
    let d = replay_explicit::collect(
        c, bounds, sets, entries, order, extremes, pos, neg, out_sets, out_words, out_pos, out_neg,
    );
    let e = replay_singles::follow(d, attrs, bounds, sets, entries, order);
    let f = replay_singles::collect(e, bounds, sets, entries, order, out_sets, out_pos);
    let g = make_wholes(
        f, attrs, bounds, sets, entries, order, figures, wholes, pos, neg, out_sets, out_words,
        out_pos, out_neg,
    );
    let h = make_batches(
        g, floats, integers, attrs, bounds, sets, entries, order, figures, extremes, wholes, pos,
        neg,
    );
    let i = kept::follow(h, bounds, out_sets, out_words, out_pos, out_neg);
    damage::set(
        i, bounds, sets, entries, order, figures, extremes, wholes, pos, neg,
    )
}

// Whether a script has a line behind one of a letter.
fn goes_on(letter: u8) -> bool {
    letter != line::END && letter != b'='
}

// Replays one script, up to the line that names the next or to the input's end. A proved loop has to end: no script uses up the numbers.
fn script(
    input: &Stdin,
    out: &Stdout,
    ports: Ports,
    block: &mut Block,
    line: &mut Line,
    text: &mut Block,
) -> Ports {
    let mut attrs = [[0u32; 2]; 9];
    let mut floats = [0.0f64; 100];
    let mut integers = [0i64; 100];
    let mut bounds = [0.0f64; 2266];
    let mut sets = [[0u64; 9]; 66];
    let mut entries = [[0u64; 3]; 66];
    let mut order = [0u32; 66];
    let mut figures = [[0u64; 8]; 66];
    let mut extremes = [[0.0f64; 3]; 66];
    let mut wholes = [[0i64; 3]; 66];
    let mut pos = [0u64; 10560];
    let mut neg = [0u64; 10626];
    let mut out_sets = [[0u64; 9]; 74];
    let mut out_words = [[4u64; 12]; 74];
    let mut out_pos = [0u64; 11840];
    let mut out_neg = [0u64; 11840];
    let mut now = ports;
    let mut s = replay_state::first();
    let mut number: u64 = 1;
    while goes_on(s.letter) {
        now = lines::input::next(input, out, now, block, line, text);
        let read = line::read(
            s,
            line,
            now.len,
            now.over,
            &mut attrs,
            &mut bounds,
            &mut floats,
            &mut integers,
        );
        s = make(
            read,
            &floats,
            &integers,
            &attrs,
            &mut bounds,
            &mut sets,
            &mut entries,
            &mut order,
            &mut figures,
            &mut extremes,
            &mut wholes,
            &mut pos,
            &mut neg,
            &mut out_sets,
            &mut out_words,
            &mut out_pos,
            &mut out_neg,
        );
        let n = show::answer(
            out,
            text,
            now.waiting,
            number,
            s,
            line,
            now.len,
            &bounds,
            &out_sets,
            &out_words,
            &out_pos,
            &out_neg,
        );
        now.waiting = replay_cells::sums::shown(
            out, text, n, s, &sets, &entries, &order, &figures, &extremes, &wholes, &pos, &neg,
            &out_sets, &out_words, &out_pos, &out_neg, &bounds,
        );
        if u64::MAX <= number {
            return now;
        }
        number += 1;
    }
    now
}

fn is_over(p: Ports) -> bool {
    p.over && p.len == 0
}

// Replays all scripts. A proved loop has to end, and nothing says that the input does: no run uses up the turns.
fn main(rt: HostRuntime) {
    let input = rt.stdin();
    let out = rt.stdout();
    let mut block = [0u8; 65536];
    let mut text = [0u8; 65536];
    let mut line = [0u8; 256];
    let mut ports = lines::input::first();
    let mut turns = u64::MAX;
    while turns > 0 && !is_over(ports) {
        ports = script(&input, &out, ports, &mut block, &mut line, &mut text);
        turns -= 1;
    }
    lines::output::write(&out, &text, ports.waiting);
}
