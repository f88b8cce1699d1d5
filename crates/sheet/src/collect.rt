// Delta collection by a line `c`: the points go into the list, from there into a sheet, and the sheet's lines into the text.
ghost use Rattle.std.specs.Prelude.{◌≡◌};
ghost use Rattle.lines.specs.Gathered.{waiting};
ghost use Rattle.directory.specs.View.{stores};
ghost use Rattle.exponential_slots.specs.Cells.{cells};
ghost use Rattle.pooling.specs.Lists.{source};
ghost use Rattle.gauge_lines.specs.Followed.{turned_by};
ghost use Rattle.sheet.specs.Followed.{header_of, done, followed, after_collect};

use crate::state::{Bytes, ListedBounds, ListedCounts, ListedSets, ListedWords, Next};
use directory::Directory;
use gauge_lines::cells::{Counts, Entries, Extremes, Figures, Gauge, Order, Sets};
use lines::Block;
use sheets::Header;
use std::io::Stdout;

// The gauge after a collection that left the directory so, and the header of its sheet.
#[derive(Clone, Copy)]
struct Turn {
    gauge: Gauge,
    header: Header,
}

fn turned(g: Gauge, dir: Directory, time: u64) -> Turn
    ensures { result ≡ record { gauge = turned_by g dir time; header = header_of g time } }
{
    let t = clock::after_delta(g.clock, 0, time);
    Turn {
        gauge: Gauge {
            running: true,
            settings: g.settings,
            dir,
            clock: t.clock,
        },
        header: Header {
            start: t.start,
            time,
            delta: true,
        },
    }
}

// Collects by a line `c`, and puts the sheet's lines behind n bytes of text; none where it was refused.
pub fn collect(
    out: &Stdout,
    g: Gauge,
    line: &[u8],
    text: &mut Block,
    n: usize,
    sets: &mut Sets,
    entries: &mut Entries,
    order: &mut Order,
    figures: &Figures,
    extremes: &Extremes,
    pos: &Counts,
    neg: &Counts,
    out_sets: &mut ListedSets,
    out_words: &mut ListedWords,
    out_pos: &mut ListedCounts,
    out_neg: &mut ListedCounts,
    bounds: &ListedBounds,
    sheet: &mut Bytes,
) -> Option<Next>
    ensures { followed (done g n result) text.new (stores sets.new entries.new order.new)
        (cells figures.now extremes.now pos.now neg.now)
        (source out_sets.new out_words.new out_pos.new out_neg.new bounds.now) sheet.new
        ≡ after_collect g line.now (waiting n text.old) (stores sets.old entries.old order.old)
        (cells figures.now extremes.now pos.now neg.now)
        (source out_sets.old out_words.old out_pos.old out_neg.old bounds.now) sheet.old }
{
    let time = gauge_lines::fields::time_in(line)?;
    let reply = exponential_collection::delta(
        g.settings, g.dir, sets, entries, order, figures, extremes, pos, neg, out_sets, out_words,
        out_pos, out_neg,
    );
    let many = reply.answer.ok()?;
    let t = turned(g, reply.dir, time);
    let end = crate::writing::write(
        out, text, n, t.header, many, out_sets, out_words, out_pos, out_neg, bounds, sheet,
    );
    Some(crate::state::ended(t.gauge, end))
}
