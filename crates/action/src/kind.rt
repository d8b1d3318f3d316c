ghost use Rattle.action.specs.Ranges.{highest_kind, Ranged};

use crate::bounded::Bounded;
use fault::fault::Fault;

/// The highest kind.
pub const HIGHEST_KIND: u8 = 31;

/// The kind of an action: the signal of a deed, the family of a call.
pub type Kind = Bounded<HIGHEST_KIND>;

impl Bounded<HIGHEST_KIND> {
    /// The kind of this number, or refusal 13.
    pub fn new(value: u8) -> Result<Kind, Fault>
        ensures { Ranged highest_kind value (λ k. k.value) result }
    {
        Kind::try_from(value)
    }
}
