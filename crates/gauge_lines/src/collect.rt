// Delta collection by a line `c`: the points go into the program's own output stores, and from there into the text.
ghost use Rattle.std.specs.Prelude.{◌≡◌};
ghost use Rattle.lines.specs.Gathered.{waiting};
ghost use Rattle.directory.specs.View.{stores};
ghost use Rattle.exponential_slots.specs.Cells.{cells};
ghost use Rattle.listing.specs.Listed.{output};
ghost use Rattle.clock.specs.Starts as clock-starts;
ghost use Rattle.gauge_lines.specs.Followed.{collected, followed, turned_by, after_collect};

use crate::cells::{Counts, Entries, Extremes, Figures, Gauge, Order, Sets, Words};
use directory::Directory;
use lines::Block;
use printing::Form;
use std::io::Stdout;

// The gauge after a line that was accepted, and how much text there is then.
#[derive(Clone, Copy)]
pub struct Next {
    pub gauge: Gauge,
    pub text: usize,
}

// What came of a line: whether it was accepted, the gauge after it, and how much text there is then.
#[derive(Clone, Copy)]
pub struct Collected {
    pub taken: bool,
    pub gauge: Gauge,
    pub text: usize,
}

// The gauge after a collection that left the directory so, and the start that it hands out.
#[derive(Clone, Copy)]
struct Turn {
    gauge: Gauge,
    start: u64,
}

fn turned(g: Gauge, dir: Directory, time: u64) -> Turn
    ensures { result ≡ record { gauge = turned_by g dir time; start = (clock-starts.turned g.clock 0 time).start } }
{
    let t = clock::after_delta(g.clock, 0, time);
    Turn {
        gauge: Gauge {
            running: true,
            settings: g.settings,
            dir,
            clock: t.clock,
        },
        start: t.start,
    }
}

// Collects by a line `c`, and puts what is listed, in a form, behind n bytes of text; none where it was refused.
pub fn collect(
    out: &Stdout,
    form: Form,
    g: Gauge,
    line: &[u8],
    text: &mut Block,
    n: usize,
    sets: &mut Sets,
    entries: &mut Entries,
    order: &mut Order,
    figures: &Figures,
    extremes: &Extremes,
    pos: &Counts,
    neg: &Counts,
    out_sets: &mut Sets,
    out_words: &mut Words,
    out_pos: &mut Counts,
    out_neg: &mut Counts,
) -> Option<Next>
    ensures { followed (collected g n result) text.new (stores sets.new entries.new order.new)
        (cells figures.now extremes.now pos.now neg.now)
        (output out_sets.new out_words.new out_pos.new out_neg.new)
        ≡ after_collect form g line.now (waiting n text.old) (stores sets.old entries.old order.old)
        (cells figures.now extremes.now pos.now neg.now)
        (output out_sets.old out_words.old out_pos.old out_neg.old) }
{
    let time = crate::fields::time_in(line)?;
    let reply = exponential_collection::delta(
        g.settings, g.dir, sets, entries, order, figures, extremes, pos, neg, out_sets, out_words,
        out_pos, out_neg,
    );
    let many = reply.answer.ok()?;
    let t = turned(g, reply.dir, time);
    let no_bounds = [0.0f64; 1];
    let end = printing::collection(
        out, text, n, form, t.start, time, many, out_sets, out_words, out_pos, out_neg, &no_bounds,
    );
    Some(Next {
        gauge: t.gauge,
        text: end,
    })
}
