// What a call answers: a value, or the refusal that it gets. specs/Outcome.antt says what the contracts of every crate mean by an outcome, and by the order of checks.
#![tactic(auto)]

ghost use Rattle.std.specs.Prelude.{◌≡◌, ℕ};
ghost use Rattle.std.specs.Int.NonZero.{non_zero_u32_get};
ghost use Rattle.outcome.specs.Outcome.{number_of, status_by};
ghost use Rattle.outcome.specs.Nonzero.{number_nonzero, nonzero_number};

use std::fmt;
use std::num::NonZero;

// Why a call is refused. The variants are in the order of their numbers.
#[derive(Clone, Copy, Debug, PartialEq, Eq)]
pub enum Refusal {
    // The four fixed page ids are not distinct, the stride is below 4, or two layouts differ.
    Layout,
    // A count is out of its bounds, or a lent buffer has another length than the counts ask for.
    Sizes,
    NotFormed,
    Undecodable,
    Fixed,
    Allocated,
    NotAllocated,
    // A range or a list is too long, or what is lent for it has another length.
    Range,
    NoPage,
    NoChunk,
    NoJournal,
    // A rollback goes back to more than a journal has.
    BadMark,
    // A truncation goes above the dynamic length.
    BadLength,
    // Start and length of a fat pointer leave 32 bits.
    Pointer,
    // A hook is hit by a value of more than 32 bits.
    HookValue,
    // An instruction does not take a place.
    Operand,
}

impl From<Refusal> for u32 {
    ghost from_gives = { λ r n. n ≡ number_of r };

    fn from(refusal: Refusal) -> u32 {
        match refusal {
            Refusal::Layout => 1,
            Refusal::Sizes => 2,
            Refusal::NotFormed => 3,
            Refusal::Undecodable => 4,
            Refusal::Fixed => 5,
            Refusal::Allocated => 6,
            Refusal::NotAllocated => 7,
            Refusal::Range => 8,
            Refusal::NoPage => 9,
            Refusal::NoChunk => 10,
            Refusal::NoJournal => 11,
            Refusal::BadMark => 12,
            Refusal::BadLength => 13,
            Refusal::Pointer => 14,
            Refusal::HookValue => 15,
            Refusal::Operand => 16,
        }
    }
}

impl fmt::Display for Refusal {
    fn fmt<W: fmt::Write>(&self, f: &mut fmt::Formatter<W>) -> fmt::Result {
        let number = u32::from(*self);
        write!(f, "refused {number}")
    }
}

// What tells the number of a refusal: a `Refusal`, or the number itself.
pub trait Numbered: Copy {
    ghost number: { Self → ℕ };

    fn number(self) -> u32
        ensures { result ≡ number self };
}

impl Numbered for Refusal {
    ghost number = { number_of };

    fn number(self) -> u32 {
        u32::from(self)
    }
}

impl Numbered for u32 {
    ghost number = { λ n. n };

    fn number(self) -> u32 {
        self
    }
}

impl Numbered for NonZero<u32> {
    ghost number = { non_zero_u32_get };

    fn number(self) -> u32 {
        self.get()
    }
}

// One that is never 0, which is the status of a call that was carried out.
pub trait NeverZero: Numbered {
    ghost nonzero: { (e : Self) → Self.number e ≡ 0 → ⊥ };
}

impl NeverZero for Refusal {
    ghost nonzero = { number_nonzero };
}

impl NeverZero for NonZero<u32> {
    ghost nonzero = { nonzero_number };
}

// The number of a refusal, 0 where the call was carried out.
pub fn status<N: Numbered>(answer: Result<(), N>) -> u32
    ensures { result ≡ status_by N.number answer }
{
    match answer {
        Ok(()) => 0,
        Err(refusal) => refusal.number(),
    }
}
