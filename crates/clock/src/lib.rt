// The collections' clock, a struct lent by `&mut` whose start a delta collection replaces in place and a cumulative one only reads:
// `AggregateTimeInitiator` of aggregate.rs. `after_delta` and `at_cumulative` lend a clock that they are passed by value.
#![tactic(auto)]

ghost use Rattle.std.specs.Prelude.{◌≡◌};
ghost use Rattle.clock.specs.Starts.{gave, turned};

// The start that the next collection hands out.
#[derive(Clone, Copy)]
pub struct Clock {
    pub start: u64,
}

// The clock after a delta collection, and the start that it handed out.
#[derive(Clone, Copy)]
pub struct Turned {
    pub clock: Clock,
    pub start: u64,
}

// The held start, for a cumulative collection: the clock stays as it is.
pub fn held(c: &Clock) -> u64
    ensures { result ≡ c.now.start }
{
    c.start
}

// What a delta collection that was answered with the number makes of a clock: it holds the time given if the collection was accepted.
fn next(c: Clock, no: u8, time: u64) -> Turned
    ensures { result ≡ turned c no time }
{
    let start = c.start;
    if no == 0 {
        return Turned {
            clock: Clock { start: time },
            start,
        };
    }
    Turned { clock: c, start }
}

// The held start, for a delta collection that was answered with the number: if it was accepted (0), the clock holds the time given then,
// also one that goes back; if it was refused, the clock stays as it is.
pub fn turn(c: &mut Clock, no: u8, time: u64) -> u64
    ensures { gave result c.new ≡ turned c.old no time }
{
    let t = next(*c, no, time);
    c.start = t.clock.start;
    t.start
}

// The clock after a delta collection that was answered with the number, and the start that it handed out.
pub fn after_delta(c: Clock, no: u8, time: u64) -> Turned
    ensures { result ≡ turned c no time }
{
    let mut clock = c;
    let start = turn(&mut clock, no, time);
    Turned { clock, start }
}

// The start that a cumulative collection hands out.
pub fn at_cumulative(c: Clock) -> u64
    ensures { result ≡ c.start }
{
    held(&c)
}
