// Writing a shift sheet (docs/SHEET.md): points of a list, in the form that collections hand out (docs/LIST.md), into lent bytes.
#![tactic(auto)]

mod judge;
mod put;

ghost use Rattle.std.specs.Prelude.{◌≡◌};
ghost use Rattle.pooling.specs.Lists.{source};
ghost use Rattle.refusals.specs.Refusals.{said};
ghost use Rattle.sheet_writing.specs.Writing.{ends, writing};

use refusals::Refusal;
use sheets::Header;

// Writes the sheet of a header and the first n points of a list over the front of the lent bytes, and says how many it has; or refuses, with nothing changed: 8 a
// point is not there, disagrees with itself under size 160 and scale 10, or has an ill-formed set, sets do not ascend strictly, or there
// are over 64 points; 11 a point is of i64 values; 10 the bytes are too few.
pub fn write<'a>(
    header: Header,
    n: usize,
    sets: &[[u64; 9]],
    words: &[[u64; 12]],
    pos: &'a [u64],
    neg: &'a [u64],
    bounds: &[f64],
    out: &mut [u8],
) -> Result<usize, Refusal>
    ensures { ends (said result) out.new ≡ writing header n (source sets.now words.now pos.now neg.now bounds.now) out.old }
{
    let Some(cells) = judge::judge(n, sets, words, pos, neg, bounds) else {
        return Err(Refusal::Disagrees);
    };
    if !judge::no_kind(n, words) {
        return Err(Refusal::Unlike);
    }
    let records = cells / 3 + 1;
    let size = records * 32;
    if out.len() < size {
        return Err(Refusal::NoRoom);
    }
    put::put_sheet(header, n, records, sets, words, pos, neg, bounds, out);
    Ok(size)
}
