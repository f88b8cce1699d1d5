// Reading a shift sheet (docs/SHEET.md): bytes into a list of points in lent stores (docs/LIST.md).
#![tactic(auto)]

mod copy;
mod frame;
mod judge;
mod words;

ghost use Rattle.std.specs.Prelude.{◌≡◌};
ghost use Rattle.pooling.specs.Lists.{source};
ghost use Rattle.refusals.specs.Refusals.{said};
ghost use Rattle.sheet_reading.specs.Reading.{ends, reading};

use refusals::Refusal;
use sheets::Header;

// A sheet's header, and how many points of it lie in the list.
#[derive(Clone, Copy)]
pub struct Listed {
    pub header: Header,
    pub points: usize,
}

// Reads a sheet: its points over the front of the lent stores, the bounds of explicit ones among them; or refuses, with nothing changed: 15
// the bytes are no sheet that could have been written; 10 the stores are too short.
pub fn read(
    s: &[u8],
    sets: &mut [[u64; 9]],
    words: &mut [[u64; 12]],
    pos: &mut [u64],
    neg: &mut [u64],
    bounds: &mut [f64],
) -> Result<Listed, Refusal>
    ensures { ends (said result) (source sets.new words.new pos.new neg.new bounds.new)
        ≡ reading s.now (source sets.old words.old pos.old neg.old bounds.old) }
{
    records::words::know_bytes(s);
    if !frame::frame_holds(s) {
        return Err(Refusal::NotASheet);
    }
    let n = frame::points_in(s);
    let Some(z) = judge::judge(s, n) else {
        return Err(Refusal::NotASheet);
    };
    if !judge::fits(
        n,
        z,
        sets.len(),
        words.len(),
        pos.len(),
        neg.len(),
        bounds.len(),
    ) {
        return Err(Refusal::NoRoom);
    }
    let header = frame::header_in(s);
    copy::copy_points(s, n, sets, words, pos, neg, bounds);
    Ok(Listed { header, points: n })
}
