// The state after a line: refused, accepted, and after each kind of call.
ghost use Rattle.std.specs.Prelude.{◌≡◌};
ghost use Rattle.std.proofs.Math.Option.{some};
ghost use Rattle.laws.specs.Said.{success};
ghost use Rattle.bindings.specs.Calls as bindings-calls;
ghost use Rattle.numbered.specs.Numbered.{said_by};
ghost use Rattle.replay_state.specs.After.{answered, accepted, unread_by, refused_by, accepted_in, not_begun, newly_begun, done_by, collected_by};

use crate::{Fault, State};
use bindings::Reply;
use clock::Clock;
use directory::Directory;
use numbered::Numbered;

// A line that can't be read.
pub fn unread(s: State) -> State
    ensures { result ≡ unread_by s }
{
    let mut next = s;
    next.no = Err(Fault::Unread);
    next
}

// What a line comes to by a number: its call is refused, or, with that of Fault::Unread, it can't be read. By 0 it is accepted.
pub fn refused<E: Numbered>(s: State, no: E) -> State
    ensures { result ≡ refused_by (E.number no) s }
{
    let no = no.number();
    let mut next = s;
    next.no = crate::outcome(no);
    next
}

// A line that is accepted, with the directory that its call leaves, and what it tells.
fn accepted(s: State, dir: Directory, told: u64) -> State
    ensures { result ≡ accepted_in dir told s }
{
    let mut next = s;
    next.no = Ok(());
    next.told = told;
    next.dir = dir;
    next
}

// ---- configuring

// After an `n` that is refused: nothing waits.
pub fn unbegun<E: Numbered>(s: State, no: E) -> State
    ensures { result ≡ not_begun (E.number no) s }
{
    let mut next = s;
    next.no = crate::outcome(no.number());
    next.next_bounds = 0;
    next.next_filtered = false;
    next.next_keys = 0;
    next
}

// After an accepted `n`: what was asked for, with what waited.
pub fn begun(s: State, top: u32, dir: Directory) -> State
    ensures { result ≡ newly_begun top dir s }
{
    let mut next = s;
    let filter = s.next_filter;
    next.kind = crate::byte(s.f[1]);
    next.size = crate::cut(s.f[3]);
    next.top = top;
    next.extremes = s.f[8] == 49;
    next.sums = s.f[9] == 49;
    next.limit = s.f[6];
    next.delta = s.f[7] == 100;
    next.bounds = s.next_bounds as usize;
    next.filtered = s.next_filtered;
    next.keys = s.next_keys as usize;
    next.filter = filter;
    next.dir = dir;
    next.handles = [0u64; 100];
    next.start = s.f[10];
    next.no = Ok(());
    next.next_bounds = 0;
    next.next_filtered = false;
    next.next_keys = 0;
    next
}

// ---- recording, binding and releasing

// After a binding: the place of the line's handle holds the birth number.
fn bound(s: State, dir: Directory, birth: u64) -> State
    ensures { result ≡ done_by (success (some birth)) dir s }
{
    let i = crate::within(s.f[1], 99);
    let mut next = accepted(s, dir, birth);
    next.handles[i] = birth;
    next
}

pub fn done<E: Numbered>(s: State, reply: Reply<E>) -> State
    ensures { result ≡ done_by (bindings-calls.said_by E.number reply.answer) reply.dir s }
{
    let answer = reply.answer;
    let dir = reply.dir;
    match answer {
        Err(no) => refused(s, no),
        Ok(handle) => match handle {
            None => accepted(s, dir, 0),
            Some(birth) => bound(s, dir, birth),
        },
    }
}

// ---- collecting

// After a collection of so many points, which tells a start, and the clock holds another.
fn listed(s: State, dir: Directory, many: usize, told: u64, start: u64) -> State
    ensures { result ≡ answered s accepted told dir s.handles start many s.kind }
{
    let mut next = s;
    next.no = Ok(());
    next.told = told;
    next.dir = dir;
    next.listed = many;
    next.collected = s.kind;
    next.start = start;
    next
}

fn turned(s: State, dir: Directory, many: usize) -> State
    ensures { result ≡ collected_by (success many) dir s }
{
    let held = Clock { start: s.start };
    if s.delta {
        let t = clock::after_delta(held, 0, s.f[1]);
        let c = t.clock;
        return listed(s, dir, many, t.start, c.start);
    }
    listed(s, dir, many, clock::at_cumulative(held), s.start)
}

pub fn collected<E: Numbered>(s: State, dir: Directory, answer: Result<usize, E>) -> State
    ensures { result ≡ collected_by (said_by E.number answer) dir s }
{
    match answer {
        Err(no) => refused(s, no),
        Ok(many) => turned(s, dir, many),
    }
}
