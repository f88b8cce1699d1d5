// The calls that lines make on the map.
ghost use Rattle.std.specs.Prelude.{◌≡◌, take};
ghost use Rattle.directory.specs.View.{stores};
ghost use Rattle.exponential_slots.specs.Cells.{cells};
ghost use Rattle.bindings.specs.Calls as bindings-calls;
ghost use Rattle.refusals.specs.Refusals.{said};
ghost use Rattle.gauge_lines.specs.Followed.{outcome, after, begun_by, answered_by, after_start, after_record};

use crate::cells::{Counts, Entries, Extremes, Figures, Gauge, Order, Sets, with};
use bindings::Reply;
use clock::Clock;
use exponential_collection::Setup;
use lines::attributes::Attributes;
use refusals::Refusal;

// A gauge with a map that was just configured, or none where it was refused; g is the gauge before.
fn begun(g: Gauge, c: Result<Setup, Refusal>, start: u64) -> Option<Gauge>
    ensures { outcome g result ≡ begun_by g start (said c) }
{
    let setup = c.ok()?;
    Some(Gauge {
        running: true,
        settings: setup.settings,
        dir: setup.dir,
        clock: Clock { start },
    })
}

// Configures a map by a line `e`: the gauge with it. A line that is refused leaves the map that is running.
pub fn start(
    g: Gauge,
    line: &[u8],
    sets: &Sets,
    entries: &mut Entries,
    order: &Order,
    figures: &Figures,
    extremes: &Extremes,
    pos: &Counts,
    neg: &Counts,
) -> Option<Gauge>
    ensures { after (outcome g result) (stores sets.now entries.new order.now)
        (cells figures.now extremes.now pos.now neg.now)
        ≡ after_start g line.now (stores sets.now entries.old order.now)
        (cells figures.now extremes.now pos.now neg.now) }
{
    let w = crate::fields::settings_in(line)?;
    let no_keys = [0u32; 1];
    let c = exponential_collection::configure(
        w.size, w.scale, true, true, w.limit, false, &no_keys, sets, entries, order, figures,
        extremes, pos, neg,
    );
    begun(g, c, w.start)
}

// The first n attributes.
fn given_of<'a>(attrs: &'a [[u32; 2]], n: usize) -> &'a [[u32; 2]]
    ensures { result.now ≡ take n attrs.now }
{
    if n < attrs.len() {
        return &attrs[0..n];
    }
    attrs
}

fn given<'a>(attrs: &'a Attributes, n: usize) -> &'a [[u32; 2]]
    ensures { result.now ≡ take n attrs.now }
{
    given_of(attrs, n)
}

// The gauge after a recording, or none where it was refused.
fn answered(g: Gauge, reply: Reply) -> Option<Gauge>
    ensures { outcome g result ≡ answered_by g (bindings-calls.said reply.answer) reply.dir }
{
    reply.answer.ok()?;
    Some(with(g, reply.dir))
}

// Records by a line `r`: the gauge after it, or none where it was refused.
pub fn record(
    g: Gauge,
    line: &[u8],
    sets: &mut Sets,
    entries: &mut Entries,
    order: &mut Order,
    figures: &mut Figures,
    extremes: &mut Extremes,
    pos: &mut Counts,
    neg: &mut Counts,
) -> Option<Gauge>
    ensures { after (outcome g result) (stores sets.new entries.new order.new)
        (cells figures.new extremes.new pos.new neg.new)
        ≡ after_record g line.now (stores sets.old entries.old order.old)
        (cells figures.old extremes.old pos.old neg.old) }
{
    let mut attrs = [[0u32; 2]; 9];
    let b = crate::fields::board_in(line, &mut attrs)?;
    let s = g.settings;
    let no_keys = [0u32; 1];
    let reply = value_map::exponential_map::measure(
        s.size,
        s.top,
        s.limit,
        g.dir,
        sets,
        entries,
        order,
        figures,
        extremes,
        pos,
        neg,
        floats::of_bits(b.bits),
        given(&attrs, b.many),
        false,
        &no_keys,
    );
    answered(g, reply)
}
