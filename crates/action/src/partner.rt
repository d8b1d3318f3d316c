ghost use Rattle.action.specs.Ranges.{highest_partner, Ranged};

use crate::bounded::Bounded;
use fault::fault::Fault;

/// The highest partner that can be asked for.
pub const HIGHEST_PARTNER: u8 = 7;

/// Whom a script exchanges deeds with, as one asks for it by number.
pub type Partner = Bounded<HIGHEST_PARTNER>;

impl Bounded<HIGHEST_PARTNER> {
    /// The partner of this number, or refusal 13.
    pub fn new(value: u8) -> Result<Partner, Fault>
        ensures { Ranged highest_partner value (λ p. p.value) result }
    {
        Partner::try_from(value)
    }
}
