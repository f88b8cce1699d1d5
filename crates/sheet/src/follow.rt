// A line followed, in a sheet or outside.
ghost use Rattle.std.specs.Prelude.{◌≡◌};
ghost use Rattle.lines.specs.Gathered.{waiting};
ghost use Rattle.directory.specs.View.{stores};
ghost use Rattle.exponential_slots.specs.Cells.{cells as cells_in};
ghost use Rattle.pooling.specs.Lists.{source};
ghost use Rattle.sheet.specs.Followed.{done, followed, after_step, after_line};

use crate::reading;
use crate::state::{Bytes, Done, ListedBounds, ListedCounts, ListedSets, ListedWords, Next, State};
use gauge_lines::cells::{Counts, Entries, Extremes, Figures, Order, Sets};
use lines::Block;
use std::io::Stdout;

// Makes what a line asks for; none where it can't be followed.
fn step(
    out: &Stdout,
    st: State,
    line: &[u8],
    over: bool,
    text: &mut Block,
    n: usize,
    sets: &mut Sets,
    entries: &mut Entries,
    order: &mut Order,
    figures: &mut Figures,
    extremes: &mut Extremes,
    pos: &mut Counts,
    neg: &mut Counts,
    out_sets: &mut ListedSets,
    out_words: &mut ListedWords,
    out_pos: &mut ListedCounts,
    out_neg: &mut ListedCounts,
    bounds: &mut ListedBounds,
    sheet: &mut Bytes,
) -> Option<Next>
    ensures { followed (done st.gauge n result) text.new (stores sets.new entries.new order.new)
        (cells_in figures.new extremes.new pos.new neg.new)
        (source out_sets.new out_words.new out_pos.new out_neg.new bounds.new) sheet.new
        ≡ after_step st line.now over (waiting n text.old) (stores sets.old entries.old order.old)
        (cells_in figures.old extremes.old pos.old neg.old)
        (source out_sets.old out_words.old out_pos.old out_neg.old bounds.old) sheet.old }
{
    if st.left > 0 {
        return reading::follow(
            out, st, line, over, text, n, out_sets, out_words, out_pos, out_neg, bounds, sheet,
        );
    }
    match reading::records_in(line) {
        Some(records) => Some(reading::begin(
            out, st.gauge, records, text, n, out_sets, out_words, out_pos, out_neg, bounds, sheet,
        )),
        None => crate::calls::make(
            out, st.gauge, line, over, text, n, sets, entries, order, figures, extremes, pos, neg,
            out_sets, out_words, out_pos, out_neg, bounds, sheet,
        ),
    }
}

// Follows a line: makes what it asks for, and says `? N`, N its number, where it can't be followed.
pub fn follow(
    out: &Stdout,
    number: u64,
    st: State,
    line: &[u8],
    over: bool,
    text: &mut Block,
    n: usize,
    sets: &mut Sets,
    entries: &mut Entries,
    order: &mut Order,
    figures: &mut Figures,
    extremes: &mut Extremes,
    pos: &mut Counts,
    neg: &mut Counts,
    out_sets: &mut ListedSets,
    out_words: &mut ListedWords,
    out_pos: &mut ListedCounts,
    out_neg: &mut ListedCounts,
    bounds: &mut ListedBounds,
    sheet: &mut Bytes,
) -> Done
    ensures { followed result text.new (stores sets.new entries.new order.new)
        (cells_in figures.new extremes.new pos.new neg.new)
        (source out_sets.new out_words.new out_pos.new out_neg.new bounds.new) sheet.new
        ≡ after_line number st line.now over (waiting n text.old) (stores sets.old entries.old order.old)
        (cells_in figures.old extremes.old pos.old neg.old)
        (source out_sets.old out_words.old out_pos.old out_neg.old bounds.old) sheet.old }
{
    let made = step(
        out, st, line, over, text, n, sets, entries, order, figures, extremes, pos, neg, out_sets,
        out_words, out_pos, out_neg, bounds, sheet,
    );
    match made {
        Some(next) => Done {
            taken: true,
            state: next.state,
            text: next.text,
        },
        None => Done {
            taken: false,
            state: crate::state::outside(st.gauge),
            text: printing::unread(out, text, n, number),
        },
    }
}
