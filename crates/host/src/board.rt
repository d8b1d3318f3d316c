ghost use Rattle.std.specs.Prelude.{ℕ, ◌≤◌};
ghost use Rattle.action.specs.Ranges.{highest_kind};
ghost use Rattle.action.specs.Traces.{tally};
ghost use Rattle.host.specs.Hosting.{Begins};
ghost use Rattle.host.specs.Boards.{most, counted, Low, Within, no_record};

use crate::host::Host;
use crate::outcome::Outcome;
use action::action::Action;
use action::kind::Kind;
use fault::fault::Fault;
use std::marker::PhantomData;

/// The most that a board counts of a kind.
pub const MOST: u64 = 999;

/// A host that keeps only counts, and can do a list after which none is above 999.
#[derive(Drop)]
pub struct Board<T> {
    counts: [u64; 32],
    of: PhantomData<T>,
    ghost low: { Low counts },
}

impl<T: Action> Board<T> {
    /// A board that has done nothing.
    pub fn new() -> Board<T>
        ensures { Begins (Within T.Action.kind result.counts) (counted result.counts) no_record (λ l. ((k : ℕ) → k ≤ highest_kind → tally T.Action.kind k l ≤ most)) no_record }
    {
        Board {
            counts: [0; 32],
            of: PhantomData,
        }
    }
}

impl<T: Action> Host for Board<T> {
    type Act = T;

    ghost can = { λ b. Within T.Action.kind b.counts };

    ghost counts = { λ b. counted b.counts };

    ghost recorded = { λ _. no_record };

    ghost did = { λ _ _ _. Unit {0} };

    fn able(&self, a: &T) -> bool {
        self.counts[a.kind().value() as usize] < MOST
    }

    fn perform(&mut self, a: &T) -> Outcome {
        let kind = a.kind().value() as usize;
        if self.counts[kind] >= MOST {
            return Outcome::Declined;
        }
        self.counts[kind] += 1;
        Outcome::Performed
    }

    fn count(&self, kind: u8) -> Result<u64, Fault> {
        let kind = Kind::try_from(kind)?;
        Ok(self.counts[kind.value() as usize])
    }
}
