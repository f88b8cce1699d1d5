// The words of an entry, by value and into lent rows.
ghost use Rattle.std.specs.Prelude.{◌≡◌, length};
ghost use Rattle.records.specs.Inner.{run};
ghost use Rattle.sheet_reading.specs.Inner.{floats_at, There};

use records::chain::{cell, read_run};

// The nine words of a set.
pub fn row_at(s: &[u8], k: usize) -> [u64; 9]
    requires { There s.now k 9 }
    ensures { result ≡ run s.now k 9 }
{
    let mut row: [u64; 9] = [0; 9];
    read_run(s, k, &mut row);
    row
}

// The twelve words of a point.
pub fn head_at(s: &[u8], k: usize) -> [u64; 12]
    requires { There s.now k 12 }
    ensures { result ≡ run s.now k 12 }
{
    let mut head: [u64; 12] = [0; 12];
    read_run(s, k, &mut head);
    head
}

// The f64s whose bits are the words from k on, as many as the lent part has.
pub fn read_floats(s: &[u8], k: usize, out: &mut [f64])
    requires { There s.now k (length out.old) }
    ensures { out.new ≡ floats_at s.now k (length out.old) }
{
    for (i, x) in out.iter_mut().enumerate() {
        *x = floats::of_bits(cell(s, k + i));
    }
}
