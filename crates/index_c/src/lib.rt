// `index::index_bin` for programs in other languages.
#![tactic(auto)]

ghost use Rattle.std.specs.Prelude.{◌≡◌};
ghost use Rattle.index.specs.Answers.{bin_of};
ghost use Rattle.index.specs.Inner.{bin_or_zero};

// The bin of v at a level, 0 where there is none (no f64 has the bin 0 at a level above 0).
#[unsafe(no_mangle)]
pub extern "C" fn index_bin(v: f64, level: u32) -> u32
    ensures { result ≡ bin_or_zero (bin_of v level) }
{
    index::index_bin(v, level)
}
