// Calls for programs in other languages: a shift sheet written and read.
#![tactic(auto)]

ghost use Rattle.std.specs.Prelude.{◌≡◌, eqb};
ghost use Rattle.laws.specs.Said.{number};
ghost use Rattle.pooling.specs.Lists.{source};
ghost use Rattle.refusals.specs.Refusals.{said};
ghost use Rattle.sheet_writing.specs.Writing as Writing;
ghost use Rattle.sheet_reading.specs.Reading as Reading;
ghost use Rattle.sheet_exports.specs.Words.{size_in, header_in, put, put_out, got, got_out};

use refusals::Refusal;
use sheet_reading::Listed;
use sheets::Header;

// Document 02's number of an answer of the writer.
fn written_number(answer: Result<usize, Refusal>) -> u64
    ensures { result ≡ number (said answer) }
{
    match answer {
        Err(e) => e.number() as u64,
        Ok(_) => 0,
    }
}

// How many bytes were written.
fn size_of(answer: Result<usize, Refusal>) -> u64
    ensures { result ≡ size_in (said answer) }
{
    match answer {
        Err(_) => 0,
        Ok(n) => n as u64,
    }
}

// Writes a sheet. Returns document 02's number; how many bytes it has is put into `size`.
#[unsafe(no_mangle)]
pub extern "C" fn sheet_write<'a>(
    start: u64,
    time: u64,
    delta: u64,
    points: usize,
    sets: &[[u64; 9]],
    words: &[[u64; 12]],
    pos: &'a [u64],
    neg: &'a [u64],
    bounds: &[f64],
    out: &mut [u8],
    size: &mut [u64; 1],
) -> u64
    ensures { put result size.new out.new
        ≡ put_out size.old (Writing.writing (record { start = start; time = time; delta = eqb delta 1 }) points
        (source sets.now words.now pos.now neg.now bounds.now) out.old) }
{
    let header = Header {
        start,
        time,
        delta: delta == 1,
    };
    let answer = sheet_writing::write(header, points, sets, words, pos, neg, bounds, out);
    size[0] = size_of(answer);
    written_number(answer)
}

// Document 02's number of an answer of the reader.
fn read_number(answer: Result<Listed, Refusal>) -> u64
    ensures { result ≡ number (said answer) }
{
    match answer {
        Err(e) => e.number() as u64,
        Ok(_) => 0,
    }
}

// Start, time, temporality and how many points; zeros where nothing was read.
fn header_of(answer: Result<Listed, Refusal>) -> [u64; 4]
    ensures { result ≡ header_in (said answer) }
{
    match answer {
        Err(_) => [0; 4],
        Ok(l) => {
            let h = l.header;
            [h.start, h.time, u64::from(h.delta), l.points as u64]
        }
    }
}

// Reads a sheet. Returns document 02's number; start, time, temporality and how many points lie in the list are put into `header`.
#[unsafe(no_mangle)]
pub extern "C" fn sheet_read(
    s: &[u8],
    sets: &mut [[u64; 9]],
    words: &mut [[u64; 12]],
    pos: &mut [u64],
    neg: &mut [u64],
    bounds: &mut [f64],
    header: &mut [u64; 4],
) -> u64
    ensures { got result header.new (source sets.new words.new pos.new neg.new bounds.new)
        ≡ got_out (Reading.reading s.now (source sets.old words.old pos.old neg.old bounds.old)) }
{
    let answer = sheet_reading::read(s, sets, words, pos, neg, bounds);
    *header = header_of(answer);
    read_number(answer)
}
