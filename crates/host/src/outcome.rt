ghost use Rattle.std.specs.Prelude.{◌≡◌};
ghost use Rattle.host.specs.Outcomes.{number as number_of};

/// What became of an action at its host.
#[derive(Clone, Copy, Debug, PartialEq, Eq)]
pub enum Outcome {
    /// 0: the host did it.
    Performed,
    /// 22: the host cannot do it.
    Declined,
}

impl Outcome {
    /// The number of the outcome.
    // Stays: `outcome.number()` says which number is meant, and `u8::from(outcome)` would not.
    pub fn number(self) -> u8
        ensures { result ≡ number_of self }
    {
        match self {
            Outcome::Performed => 0,
            Outcome::Declined => 22,
        }
    }
}
