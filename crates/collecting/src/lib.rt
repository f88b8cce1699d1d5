// What every kind's collecting calls share: `collect_and_reset` and `collect_readonly` of internal/mod.rs, but for the series.
#![tactic(auto)]

ghost use Rattle.std.specs.Prelude.{◌≡◌, true, false, None, not, ◌&&◌, ◌||◌, [], ◌∷◌, ◌<◌, ◌≤◌, eqb, ltb, length, get_or};
ghost use Rattle.laws.specs.Pick.{pick};
ghost use Rattle.sets.specs.Rows.{size, set_of, row_of};
ghost use Rattle.directory.specs.View.{set_at, stores};
ghost use Rattle.refusals.specs.Refusals.{code};
ghost use Rattle.numbered.specs.Numbered.{code_by};
ghost use Rattle.collecting.specs.Slots.{unsurveyed, sound_of, survey_of, surveyed_by};

use directory::Directory;
use numbered::Reason;
use refusals::Refusal;

// What a collection says, how many points lie in the output or why there are none; and the directory's state after it.
#[derive(Clone, Copy)]
pub struct Reply {
    pub answer: Result<usize, Refusal>,
    pub dir: Directory,
}

// What slots whose series agree, where they hold one, take in the output: how many points are due, and how many counts they have in
// either store.
#[derive(Clone, Copy)]
pub struct Sums {
    pub points: usize,
    pub pos: usize,
    pub neg: usize,
}

// What the slots are found to be: whether each series that is held agrees; then how many points are due, and how many counts they have in
// either store.
#[derive(Clone, Copy)]
pub struct Survey {
    pub sound: bool,
    pub points: usize,
    pub pos: usize,
    pub neg: usize,
}

impl Survey {
    // The survey of slots whose series agree.
    pub fn of(s: Sums) -> Survey
        ensures { result ≡ sound_of s }
    {
        Survey {
            sound: true,
            points: s.points,
            pos: s.pos,
            neg: s.neg,
        }
    }

    // The survey of slots by what was found there: none where a series disagrees.
    pub fn found(found: Option<Sums>) -> Survey
        ensures { result ≡ survey_of found }
    {
        match found {
            None => Survey {
                sound: false,
                points: 0,
                pos: 0,
                neg: 0,
            },
            Some(s) => Survey::of(s),
        }
    }

    // What its slots take in the output; none where a series disagrees.
    pub fn sums(self) -> Option<Sums>
        ensures sound { self.sound ≡ true → survey_of result ≡ self }
        ensures unsound { self.sound ≡ false → result ≡ None }
    {
        if !self.sound {
            return None;
        }
        Some(Sums {
            points: self.points,
            pos: self.pos,
            neg: self.neg,
        })
    }
}

// What refuses a collection before any series is read: 12, 8. Of the kind: whether its cells suffice, and what configuring says of its
// settings, with any number but 0 where it refuses them. Nothing is asked where it is known that nothing does.
pub fn barred<E: Reason>(
    known: bool,
    cells: bool,
    unset: Result<(), E>,
    limit: u64,
    d: Directory,
    sets: &[[u64; 9]],
    entries: &[[u64; 3]],
    order: &[u32],
) -> Result<(), Refusal>
    requires { known ≡ true → unsurveyed cells (code_by E.number unset) limit d (stores sets.now entries.now order.now) ≡ 0 }
    ensures { code result ≡ unsurveyed cells (code_by E.number unset) limit d (stores sets.now entries.now order.now) }
{
    if known {
        return Ok(());
    }
    if !directory::stores_suffice(limit, sets.len(), entries.len(), order.len()) {
        return Err(Refusal::LentShort);
    }
    if !cells {
        return Err(Refusal::LentShort);
    }
    if unset.is_err() {
        return Err(Refusal::Disagrees);
    }
    if limit > directory::MOST_SETS {
        return Err(Refusal::Disagrees);
    }
    if !directory::check::agrees(limit, d, sets, entries, order) {
        return Err(Refusal::Disagrees);
    }
    Ok(())
}

// What refuses it then, by what a survey of the slots found, in output of so many places: 8, 10.
pub fn number_of(
    s: Survey,
    sets: usize,
    words: usize,
    pos: usize,
    neg: usize,
) -> Result<(), Refusal>
    ensures { code result ≡ surveyed_by s sets words pos neg }
{
    if !s.sound {
        return Err(Refusal::Disagrees);
    }
    if s.points > sets {
        return Err(Refusal::NoRoom);
    }
    if s.points > words {
        return Err(Refusal::NoRoom);
    }
    if s.pos > pos {
        return Err(Refusal::NoRoom);
    }
    if s.neg > neg {
        return Err(Refusal::NoRoom);
    }
    Ok(())
}

// The slot of place i among all, ascending by set: the empty set's is the first.
pub fn slot_at(order: &[u32], i: usize) -> usize
    requires { i ≤ length order.now }
    ensures { result ≡ get_or (0 ∷ order.now) i 0 }
{
    if i == 0 {
        return 0;
    }
    order[i - 1] as usize
}

// Whether a slot is listed: by a delta collection if it was updated, by a cumulative one also if it is named.
pub fn is_due(cumulative: bool, updated: bool, x: usize) -> bool
    ensures { result ≡ (updated || (cumulative && not (eqb x 0))) }
{
    if updated {
        return true;
    }
    if !cumulative {
        return false;
    }
    x != 0
}

// The word at a place of a row, 0 behind its set's.
fn word_of(row: [u64; 9], i: usize) -> u64
    requires { i < 8 }
    ensures { result ≡ pick (ltb i (size row)) (get_or row i 0) 0 }
{
    if (i as u64) < row[8] {
        return row[i];
    }
    0
}

// A row with zeros behind its set's words.
fn clean(row: [u64; 9]) -> [u64; 9]
    requires { size row ≤ 8 }
    ensures { result ≡ row_of (set_of row) }
{
    [
        word_of(row, 0),
        word_of(row, 1),
        word_of(row, 2),
        word_of(row, 3),
        word_of(row, 4),
        word_of(row, 5),
        word_of(row, 6),
        word_of(row, 7),
        row[8],
    ]
}

// The row of a slot's set as it is handed out: zeros behind its words, whatever lies there in the store.
pub fn row_at(sets: &[[u64; 9]], x: usize) -> [u64; 9]
    requires { (x < length sets.now) × (0 < x → size (get_or sets.now x []) ≤ 8) }
    ensures { result ≡ row_of (set_at sets.now x) }
{
    if x == 0 {
        return [0; 9];
    }
    clean(sets[x])
}
