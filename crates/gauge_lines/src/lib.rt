// The gauge's lines followed, from the input's first to its last: configuring (`e`), recording (`r`), collecting (`c`).
//
// A library, so that programs that read the same lines share it; crates/gauge/src/main.rt has the language. The stores are locals of `run`.
#![tactic(auto)]

pub mod calls;
pub mod cells;
mod collect;
pub mod fields;

ghost use Rattle.std.specs.Prelude.{◌≡◌};
ghost use Rattle.lines.specs.Gathered.{waiting};
ghost use Rattle.directory.specs.View.{stores};
ghost use Rattle.exponential_slots.specs.Cells.{cells as cells_in};
ghost use Rattle.listing.specs.Listed.{output};
ghost use Rattle.gauge_lines.specs.Followed.{collected, followed, after_call, after_line};

use cells::{Counts, Entries, Extremes, Figures, Gauge, Order, Sets, Words};
use collect::{Collected, Next};
use fields::Call;
use lines::Block;
use printing::Form;
use std::io::{Stdin, Stdout};

// Makes the call that a line asks for; none where it can't be followed.
fn make(
    out: &Stdout,
    form: Form,
    g: Gauge,
    line: &[u8],
    over: bool,
    text: &mut Block,
    n: usize,
    sets: &mut Sets,
    entries: &mut Entries,
    order: &mut Order,
    figures: &mut Figures,
    extremes: &mut Extremes,
    pos: &mut Counts,
    neg: &mut Counts,
    out_sets: &mut Sets,
    out_words: &mut Words,
    out_pos: &mut Counts,
    out_neg: &mut Counts,
) -> Option<Next>
    ensures { followed (collected g n result) text.new (stores sets.new entries.new order.new)
        (cells_in figures.new extremes.new pos.new neg.new)
        (output out_sets.new out_words.new out_pos.new out_neg.new)
        ≡ after_call form g line.now over (waiting n text.old) (stores sets.old entries.old order.old)
        (cells_in figures.old extremes.old pos.old neg.old)
        (output out_sets.old out_words.old out_pos.old out_neg.old) }
{
    match fields::call_in(line, g.running, over) {
        Call::None => Some(Next { gauge: g, text: n }),
        Call::Unread => None,
        Call::Record => {
            let gauge = calls::record(g, line, sets, entries, order, figures, extremes, pos, neg)?;
            Some(Next { gauge, text: n })
        }
        Call::Start => {
            let gauge = calls::start(g, line, sets, entries, order, figures, extremes, pos, neg)?;
            Some(Next { gauge, text: n })
        }
        Call::Collect => collect::collect(
            out, form, g, line, text, n, sets, entries, order, figures, extremes, pos, neg,
            out_sets, out_words, out_pos, out_neg,
        ),
    }
}

// Follows a line: makes its call, and says `? N`, N its number, where it was not accepted.
fn follow(
    out: &Stdout,
    form: Form,
    number: u64,
    g: Gauge,
    line: &[u8],
    over: bool,
    text: &mut Block,
    n: usize,
    sets: &mut Sets,
    entries: &mut Entries,
    order: &mut Order,
    figures: &mut Figures,
    extremes: &mut Extremes,
    pos: &mut Counts,
    neg: &mut Counts,
    out_sets: &mut Sets,
    out_words: &mut Words,
    out_pos: &mut Counts,
    out_neg: &mut Counts,
) -> Collected
    ensures { followed result text.new (stores sets.new entries.new order.new)
        (cells_in figures.new extremes.new pos.new neg.new)
        (output out_sets.new out_words.new out_pos.new out_neg.new)
        ≡ after_line form number g line.now over (waiting n text.old) (stores sets.old entries.old order.old)
        (cells_in figures.old extremes.old pos.old neg.old)
        (output out_sets.old out_words.old out_pos.old out_neg.old) }
{
    let made = make(
        out, form, g, line, over, text, n, sets, entries, order, figures, extremes, pos, neg,
        out_sets, out_words, out_pos, out_neg,
    );
    match made {
        Some(next) => Collected {
            taken: true,
            gauge: next.gauge,
            text: next.text,
        },
        None => Collected {
            taken: false,
            gauge: g,
            text: printing::unread(out, text, n, number),
        },
    }
}

// Follows the input to its end. A proved loop has to end, and nothing says that the input does: no run has so many lines.
pub fn run(input: &Stdin, out: &Stdout, form: Form) {
    let mut block = [0u8; 65536];
    let mut text = [0u8; 65536];
    let mut line = [0u8; 256];
    let mut sets = [[0u64; 9]; 32];
    let mut entries = [[0u64; 3]; 32];
    let mut order = [0u32; 32];
    let mut figures = [[0u64; 8]; 32];
    let mut extremes = [[0.0f64; 3]; 32];
    let mut pos = [0u64; 5120];
    let mut neg = [0u64; 5120];
    let mut out_sets = [[0u64; 9]; 32];
    let mut out_words = [[0u64; 12]; 32];
    let mut out_pos = [0u64; 5120];
    let mut out_neg = [0u64; 5120];
    let mut ports = lines::input::first();
    let mut gauge = cells::idle();
    for number in 1..=u64::MAX {
        if ports.over {
            break;
        }
        ports = lines::input::next(input, out, ports, &mut block, &mut line, &text);
        let done = follow(
            out,
            form,
            number,
            gauge,
            lines::input::front(&line, ports.len),
            ports.over,
            &mut text,
            ports.waiting,
            &mut sets,
            &mut entries,
            &mut order,
            &mut figures,
            &mut extremes,
            &mut pos,
            &mut neg,
            &mut out_sets,
            &mut out_words,
            &mut out_pos,
            &mut out_neg,
        );
        gauge = done.gauge;
        ports.waiting = done.text;
    }
    lines::output::write(out, &text, ports.waiting);
}
