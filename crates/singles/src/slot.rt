// One slot of the store: a value recorded there, what a collection finds, and its point put into the output.
ghost use Rattle.std.specs.Prelude.{◌≡◌, true, ◌<◌, length};
ghost use Rattle.refusals.specs.Refusals.{code};
ghost use Rattle.rows.specs.Recording.{after};
ghost use Rattle.batches.specs.Inner.{Known};
ghost use Rattle.listing.specs.Inner.{left};
ghost use Rattle.collecting.specs.Slots.{Few, More, surveyed_at, put_slot};
ghost use Rattle.singles.specs.Kinds.{step, holds};
ghost use Rattle.singles.specs.Stores.{held_at, recorded_at, single_store};
ghost use Rattle.singles.specs.Points.{output, single_lister};
ghost use Rattle.singles.specs.Inner.{place};
ghost use Rattle.singles.specs.declared.Aggregation.TheVariants.{Sum};

use crate::Aggregation;
use collecting::Survey;
use refusals::Refusal;

// What a value makes of what is held.
pub fn stepped(aggregation: Aggregation, held: f64, v: f64) -> f64
    ensures { result ≡ step aggregation held v }
{
    match aggregation {
        Aggregation::Sum => held + v,
        Aggregation::LastValue => v,
    }
}

// Whether a map may hold a value: a sum may overflow, a last value is one that was recorded, and only finite ones are.
pub fn holds(aggregation: Aggregation, held: f64) -> bool
    ensures { result ≡ holds aggregation held }
{
    match aggregation {
        Aggregation::Sum => true,
        Aggregation::LastValue => floats::is_finite(held),
    }
}

// What slot x holds, where its entry was updated; else 0.0.
pub fn held_at(x: usize, updated: bool, values: &[f64]) -> f64
    requires { x < length values.now }
    ensures { result ≡ held_at values.now x updated }
{
    if updated {
        return values[x];
    }
    0.0
}

// Records a value at slot x: 8, or the slot holds what the value makes of it.
pub fn record(
    aggregation: Aggregation,
    x: usize,
    updated: bool,
    values: &mut [f64],
    v: f64,
) -> Result<(), Refusal>
    requires { x < length values.old }
    ensures { after (code result) values.new ≡ recorded_at aggregation x updated values.old v }
{
    let held = held_at(x, updated, values);
    if !holds(aggregation, held) {
        return Err(Refusal::Disagrees);
    }
    values[x] = stepped(aggregation, held, v);
    Ok(())
}

// Whether slot x may hold what it holds. Where that is known, it is not asked.
fn is_sound(known: bool, aggregation: Aggregation, x: usize, updated: bool, values: &[f64]) -> bool
    requires x_in_bounds { x < length values.now }
    requires known { Known (single_store aggregation) tt known x updated values.now }
    ensures { result ≡ holds aggregation (held_at values.now x updated) }
{
    if known {
        return true;
    }
    holds(aggregation, held_at(x, updated, values))
}

// The survey with slot x more, which was updated or not and is due or not.
pub fn survey(
    known: bool,
    aggregation: Aggregation,
    s: Survey,
    x: usize,
    updated: bool,
    due: bool,
    values: &[f64],
) -> Survey
    requires x_in_bounds { x < length values.now }
    requires few { Few s × Known (single_store aggregation) tt known x updated values.now }
    ensures value { result ≡ surveyed_at (single_lister aggregation) tt updated due values.now s x }
    ensures more { More s result }
{
    if !is_sound(known, aggregation, x, updated, values) {
        return Survey {
            sound: false,
            points: 0,
            pos: 0,
            neg: 0,
        };
    }
    if !due {
        return s;
    }
    Survey {
        sound: true,
        points: s.points + 1,
        pos: s.pos,
        neg: s.neg,
    }
}

// Puts the point of slot x at a place of the output, if it is due; the next place. What is put is the same for every aggregation.
pub fn put(
    at: usize,
    x: usize,
    updated: bool,
    due: bool,
    row: [u64; 9],
    values: &[f64],
    out_sets: &mut [[u64; 9]],
    out_values: &mut [u64],
) -> usize
    requires x_in_bounds { x < length values.now }
    requires at_in_bounds { due ≡ true → (at < length out_sets.old) × (at < length out_values.old) }
    ensures { left (place result) (output out_sets.new out_values.new)
        ≡ put_slot (single_lister Sum) tt updated due values.now x row (place at)
        (output out_sets.old out_values.old) }
{
    if !due {
        return at;
    }
    out_sets[at] = row;
    out_values[at] = floats::bits_of(held_at(x, updated, values));
    at + 1
}
