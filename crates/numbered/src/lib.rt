// Errors that have a number: a Refusal, whose number is document 01's, and a number by itself, for those that no Refusal has. What hands an
// error on, or asks no more of it than its number, takes any that is Numbered; where the number 0 would be success, any that is a Reason.
#![tactic(auto)]

ghost use Rattle.std.specs.Prelude.{◌≡◌, ◌≢◌, ℕ};
ghost use Rattle.std.specs.Int.NonZero.{non_zero_u8_get};
ghost use Rattle.refusals.specs.Refusals.{number as number_of};
ghost use Rattle.refusals.proofs.Numbers.{number-nonzero};
ghost use Rattle.numbered.specs.NonZero.{held};
ghost use Rattle.numbered.specs.Numbered.{code_by};

use refusals::Refusal;
use std::num::NonZeroU8;

// An error with a number, whatever that is: a u8 may be 0, though 0 is success.
pub trait Numbered: Copy {
    ghost number: { Self → ℕ };

    fn number(self) -> u8
        ensures { result ≡ number self };
}

// An error whose number says that something was refused: it is never 0.
pub trait Reason: Numbered {
    // The error of this type that has a refusal's number.
    fn of(no: Refusal) -> Self
        ensures { Self.number result ≡ number_of no };

    ghost refuses: { (e : Self) → Self.number e ≢ 0 };
}

impl Numbered for Refusal {
    ghost number = { number_of };

    fn number(self) -> u8 {
        self.number()
    }
}

impl Numbered for u8 {
    ghost number = { λ n. n };

    fn number(self) -> u8 {
        self
    }
}

impl Numbered for NonZeroU8 {
    ghost number = { non_zero_u8_get };

    fn number(self) -> u8 {
        self.get()
    }
}

impl Reason for Refusal {
    ghost refuses = { number-nonzero };

    fn of(no: Refusal) -> Refusal {
        no
    }
}

impl Reason for NonZeroU8 {
    ghost refuses = { held };

    fn of(no: Refusal) -> NonZeroU8 {
        match NonZeroU8::new(no.number()) {
            Some(n) => n,
            None => NonZeroU8::MAX,
        }
    }
}

// The number of an answer, 0 where it is no error; `refusals::code`, of any numbered error.
pub fn code<E: Numbered>(answer: Result<(), E>) -> u8
    ensures { result ≡ code_by E.number answer }
{
    match answer {
        Ok(_) => 0,
        Err(e) => e.number(),
    }
}
