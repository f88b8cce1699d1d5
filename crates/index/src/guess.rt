// A guess of the rank of a mantissa among the bounds: the rank, or one less.
ghost use Rattle.std.specs.Prelude.{◌<◌, ◌≤◌, ◌^◌};
ghost use Rattle.index.specs.Ranked.{Near};

// One chord of the logarithm for each 64th of the range, half a rank above it. The remainder by 64 changes nothing: it tells the compiler
// that no test is needed.
pub fn guess(m: u64) -> u64
    requires { (2 ^ 52 ≤ m) × (m < 2 ^ 53) }
    ensures { Near m result }
{
    let above = (m - 0x10_0000_0000_0000) / 0x4000;
    let piece = crate::pieces::piece(above / 0x1_0000_0000 % 64);
    let start = piece / 0x1_0000_0000;
    let rise = piece % 0x1_0000_0000;
    let part = above % 0x1_0000_0000;
    (start + rise * part / 0x1_0000_0000) / 0x10_0000
}
