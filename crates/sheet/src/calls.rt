// The gauge's lines `e`, `r` and `c`.
ghost use Rattle.std.specs.Prelude.{◌≡◌};
ghost use Rattle.lines.specs.Gathered.{waiting};
ghost use Rattle.directory.specs.View.{stores};
ghost use Rattle.exponential_slots.specs.Cells.{cells as cells_in};
ghost use Rattle.pooling.specs.Lists.{source};
ghost use Rattle.sheet.specs.Followed.{done, followed, after_call};

use crate::state::{Bytes, ListedBounds, ListedCounts, ListedSets, ListedWords, Next};
use gauge_lines::calls;
use gauge_lines::cells::{Counts, Entries, Extremes, Figures, Gauge, Order, Sets};
use gauge_lines::fields::Call;
use lines::Block;
use std::io::Stdout;

// Makes the call that a line asks for; none where it can't be followed.
pub fn make(
    out: &Stdout,
    g: Gauge,
    line: &[u8],
    over: bool,
    text: &mut Block,
    n: usize,
    sets: &mut Sets,
    entries: &mut Entries,
    order: &mut Order,
    figures: &mut Figures,
    extremes: &mut Extremes,
    pos: &mut Counts,
    neg: &mut Counts,
    out_sets: &mut ListedSets,
    out_words: &mut ListedWords,
    out_pos: &mut ListedCounts,
    out_neg: &mut ListedCounts,
    bounds: &ListedBounds,
    sheet: &mut Bytes,
) -> Option<Next>
    ensures { followed (done g n result) text.new (stores sets.new entries.new order.new)
        (cells_in figures.new extremes.new pos.new neg.new)
        (source out_sets.new out_words.new out_pos.new out_neg.new bounds.now) sheet.new
        ≡ after_call g line.now over (waiting n text.old) (stores sets.old entries.old order.old)
        (cells_in figures.old extremes.old pos.old neg.old)
        (source out_sets.old out_words.old out_pos.old out_neg.old bounds.now) sheet.old }
{
    match gauge_lines::fields::call_in(line, g.running, over) {
        Call::None => Some(crate::state::ended(g, n)),
        Call::Unread => None,
        Call::Record => {
            let gauge = calls::record(g, line, sets, entries, order, figures, extremes, pos, neg)?;
            Some(crate::state::ended(gauge, n))
        }
        Call::Start => {
            let gauge = calls::start(g, line, sets, entries, order, figures, extremes, pos, neg)?;
            Some(crate::state::ended(gauge, n))
        }
        Call::Collect => crate::collect::collect(
            out, g, line, text, n, sets, entries, order, figures, extremes, pos, neg, out_sets,
            out_words, out_pos, out_neg, bounds, sheet,
        ),
    }
}
