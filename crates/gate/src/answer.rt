ghost use Rattle.std.specs.Prelude.{◌≡◌};
ghost use Rattle.gate.specs.Words.{number as number_of};

/// The answer to an action.
#[derive(Clone, Copy, Debug, PartialEq, Eq)]
pub enum Answer {
    /// 0: the host did it.
    Done,
    /// 20: the gate was stopped earlier.
    Stopped,
    /// 21: the watch bars it, and the gate is stopped from here on.
    Barred,
    /// 22: the host cannot do it.
    Declined,
}

impl Answer {
    /// The number of the answer.
    // Stays: `answer.number()` says which number is meant, and `u8::from(answer)` would not.
    pub fn number(self) -> u8
        ensures { result ≡ number_of self }
    {
        match self {
            Answer::Done => 0,
            Answer::Stopped => 20,
            Answer::Barred => 21,
            Answer::Declined => 22,
        }
    }
}
