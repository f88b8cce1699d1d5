// The refusals of a recording that come before the directory is read, the same for every kind.
ghost use Rattle.std.specs.Prelude.{◌≡◌, ◌&&◌, eqb};
ghost use Rattle.seats.specs.Seats.{barred_by};
ghost use Rattle.refusals.specs.Refusals.{code};
ghost use Rattle.numbered.specs.Numbered.{code_by};

use numbered::Reason;
use refusals::Refusal;

// The first refusal: 12, 6, 5, and 8 by the settings and by the rest of the configuration.
pub fn barred<E: Reason>(
    lent: bool,
    value: bool,
    attributes: usize,
    unset: Result<(), E>,
    accepted: bool,
) -> Result<(), Refusal>
    ensures { code result ≡ barred_by lent value attributes (eqb (code_by E.number unset) 0 && accepted) }
{
    if !lent {
        return Err(Refusal::LentShort);
    }
    if !value {
        return Err(Refusal::NotFinite);
    }
    if attributes > sets::canon::MOST_ATTRIBUTES {
        return Err(Refusal::Attributes);
    }
    if unset.is_err() {
        return Err(Refusal::Disagrees);
    }
    if !accepted {
        return Err(Refusal::Disagrees);
    }
    Ok(())
}
