ghost use Rattle.std.specs.Prelude.{◌≡◌, ℕ, List, [], ◌∷◌, Decides, Option};
ghost use Rattle.host.specs.Outcomes.{number};
ghost use Rattle.host.specs.Hosting.{Attempts, count_of};

use crate::outcome::Outcome;
use action::action::Action;
use fault::fault::Fault;

/// Does actions, and counts them by kind.
pub trait Host {
    /// What it does.
    type Act: Action;

    /// Which lists it can do, from here on.
    ghost can: { Self → List Self.Act → Type 0 };

    /// How many of each kind it has done.
    ghost counts: { Self → ℕ → ℕ };

    /// What it has done, in order, where it keeps a record.
    ghost recorded: { Self → Option (List Self.Act) };

    /// Its own step: what else doing an action changes.
    ghost did: { Self → Self.Act → Self → Type 0 };

    /// Whether the list of this one action can be done.
    fn able(&self, a: &Self::Act) -> bool
        ensures { Decides result (can self.now (a.now ∷ [])) };

    /// Does an action that can be done; declines any other, and is then as it was.
    // Stays: a trait's own clause names its members one by one, since the file of `hosting` imports the trait's record.
    fn perform(&mut self, a: &Self::Act) -> Outcome
        ensures { Attempts (record { can = can; counts = counts; recorded = recorded; did = did; kind = Self.Act.Action.kind }) self.old a.now (number result) self.new };

    /// The count of a kind, or refusal 13 above the highest kind.
    // Stays: any number may be asked about, and refusal 13 says which names no kind.
    fn count(&self, kind: u8) -> Result<u64, Fault>
        ensures { result ≡ count_of kind (counts self.now kind) };
}
