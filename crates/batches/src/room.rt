// How many slots a kind's cells have room for, as a seating asks for it.
ghost use Rattle.std.specs.Prelude.{◌≡◌};
ghost use Rattle.laws.specs.Pick.{pick};

// More than any limit asks for, where the cells suffice; else none.
pub fn slots_if(suffice: bool) -> usize
    ensures { result ≡ pick suffice 18446744073709551615 0 }
{
    if suffice { usize::MAX } else { 0 }
}
