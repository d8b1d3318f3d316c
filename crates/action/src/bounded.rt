//! Numbers that cannot be above a highest one.
ghost use Rattle.std.specs.Prelude.{◌≡◌, ◌+◌, ◌%◌, ◌≤◌};
ghost use Rattle.action.specs.Ranges.{Ranged};

use crate::kind::HIGHEST_KIND;
use crate::partner::HIGHEST_PARTNER;
use fault::fault::Fault;
use std::fmt;

/// A number of at most `HIGHEST`.
#[derive(Clone, Copy, PartialEq, Eq)]
pub struct Bounded<const HIGHEST: u8> {
    value: u8,
    ghost low: { value ≤ HIGHEST },
}

// Stays: no derive, which would call a kind and a partner by the name of what they share.
impl<const HIGHEST: u8> fmt::Debug for Bounded<HIGHEST> {
    fn fmt<W: fmt::Write>(&self, f: &mut fmt::Formatter<W>) -> fmt::Result {
        let name = match HIGHEST {
            HIGHEST_KIND => "Kind",
            HIGHEST_PARTNER => "Partner",
            _ => "Bounded",
        };
        f.debug_struct(name).field("value", &self.value).finish()
    }
}

/// This number, or refusal 13.
impl<const HIGHEST: u8> TryFrom<u8> for Bounded<HIGHEST> {
    type Error = Fault;

    ghost try_from_gives = { λ v r. Ranged HIGHEST v (λ b. b.value) r };

    fn try_from(value: u8) -> Result<Bounded<HIGHEST>, Fault> {
        if value > HIGHEST {
            return Err(Fault::OutOfRange);
        }
        Ok(Bounded { value })
    }
}

impl<const HIGHEST: u8> Bounded<HIGHEST> {
    /// The number.
    // Stays: `kind.value() as usize` is plainer at an index than `usize::from(u8::from(kind))`.
    pub fn value(self) -> u8
        ensures is { result ≡ self.entry.value }
        ensures low { result ≤ HIGHEST }
    {
        self.value
    }

    // The one that a byte is read as.
    // Stays: a name, and no `From`, since bytes above the highest become others.
    pub(crate) fn of(byte: u8) -> Bounded<HIGHEST>
        ensures { result.value ≡ byte % (HIGHEST + 1) }
    {
        let value = byte as u16 % (HIGHEST as u16 + 1);
        Bounded { value: value as u8 }
    }
}
