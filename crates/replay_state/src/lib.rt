// What a script holds beside its stores; what the crates of the program `replay` share (docs/REPLAY.md).
#![tactic(auto)]

ghost use Rattle.std.specs.Prelude.{◌≡◌, min, ◌%◌};
ghost use Rattle.replay_state.specs.After.{single, whole, fault_of, fault_number, refused};

use directory::Directory;
use numbered::Numbered;
use refusals::Refusal;

pub mod after;
pub mod binding;
pub mod lent;
pub mod stores;

pub type Keys = [u32; 32];

// The fields of a line behind its letter, from 1 on: a number, bits, a byte; the greatest number for `-`, of a list or a set how many are
// there, of a handle that is asked for the birth number in its place.
pub type Fields = [u64; 11];

// The line that is followed, the kind whose call it makes, 0 where it makes none, and what it comes to: `no` is an error where it is
// not accepted; `told` the birth number of a binding or the start of a collection. What was configured, where `kind` is
// `e`, `x`, `s`, `l`, over i64 `E` or `X`, or 0 before any accepted `n`; the map's and the clock's state, and the handles; what waits for the
// next `n`; how many counts and entries are lent; how many points the last collection has, and the kind that they are of.
#[derive(Clone, Copy)]
pub struct State {
    pub letter: u8,
    pub of: u8,
    pub f: Fields,
    pub no: Result<(), Fault>,
    pub told: u64,
    pub kind: u8,
    pub size: u32,
    pub top: u32,
    pub extremes: bool,
    pub sums: bool,
    pub limit: u64,
    pub delta: bool,
    pub bounds: usize,
    pub filtered: bool,
    pub keys: usize,
    pub filter: Keys,
    pub dir: Directory,
    pub handles: [u64; 100],
    pub start: u64,
    pub next_bounds: u64,
    pub next_filtered: bool,
    pub next_keys: u64,
    pub next_filter: Keys,
    pub counts: u64,
    pub entries: u64,
    pub listed: usize,
    pub collected: u8,
}

// Why a line is not accepted: it can't be read, or its call is refused. A state says any number that it is given: so there is a case for
// those that no refusal of document 01 has. `numbered` makes it of 0 and of 17 to 254 alone.
#[derive(Clone, Copy)]
pub enum Fault {
    Unread,
    Refused(Refusal),
    Other(u8),
}

// That of a line which can't be read, and no refusal's.
const UNREAD: u8 = 255;

impl Fault {
    // The fault that has a number.
    pub fn numbered(no: u8) -> Fault
        ensures value { result ≡ fault_of no }
        ensures kept { fault_number result ≡ no }
    {
        if no == UNREAD {
            return Fault::Unread;
        }
        if no == 0 || no > 16 {
            return Fault::Other(no);
        }
        Fault::Refused(Refusal::numbered(no))
    }

    // Its number.
    pub fn number(self) -> u8
        ensures { result ≡ fault_number self }
    {
        match self {
            Fault::Unread => UNREAD,
            Fault::Refused(no) => no.number(),
            Fault::Other(no) => no,
        }
    }
}

impl Numbered for Fault {
    ghost number = { fault_number };

    fn number(self) -> u8 {
        self.number()
    }
}

// What a line comes to by a number, which is 0 where it is accepted.
pub fn outcome(no: u8) -> Result<(), Fault>
    ensures { result ≡ refused no }
{
    if no == 0 {
        return Ok(());
    }
    Err(Fault::numbered(no))
}

// Before any line of a script.
pub fn first() -> State
    ensures { (result.letter ≡ 0) × (result.kind ≡ 0) × (result.counts ≡ 10560) × (result.entries ≡ 66) }
{
    let dir = Directory {
        used: 0,
        count: 0,
        last: 0,
    };
    let f = [0u64; 11];
    let filter = [0u32; 32];
    let handles = [0u64; 100];
    let next_filter = [0u32; 32];
    State {
        letter: 0,
        of: 0,
        f,
        no: Ok(()),
        told: 0,
        kind: 0,
        size: 0,
        top: 0,
        extremes: false,
        sums: false,
        limit: 0,
        delta: false,
        bounds: 0,
        filtered: false,
        keys: 0,
        filter,
        dir,
        handles,
        start: 0,
        next_bounds: 0,
        next_filtered: false,
        next_keys: 0,
        next_filter,
        counts: 10560,
        entries: 66,
        listed: 0,
        collected: 0,
    }
}

// Whether a series of a kind is one value: a sum or a last value.
pub fn is_single(kind: u8) -> bool
    ensures { result ≡ single kind }
{
    kind == b's' || kind == b'l'
}

// Whether a series of a kind is over i64.
pub fn is_whole(kind: u8) -> bool
    ensures { result ≡ whole kind }
{
    kind == b'E' || kind == b'X'
}

// The lesser of a number and a most.
pub fn within(n: u64, most: usize) -> usize
    ensures { result ≡ min n most }
{
    if n < most as u64 { n as usize } else { most }
}

// The lower 32 bits.
pub fn cut(n: u64) -> u32
    ensures { result ≡ n % 4294967296 }
{
    (n % 0x1_0000_0000) as u32
}

// The byte that a field is.
pub fn byte(n: u64) -> u8
    ensures { result ≡ n % 256 }
{
    (n % 256) as u8
}
