//! Which marks the runs over the empty list can have.
ghost use Rattle.std.specs.Prelude.{◌≡◌, ℕ, ◌<◌, ◌≤◌};
ghost use Rattle.sheet.specs.Forbid.{fragment};
ghost use Rattle.sheet.specs.Laws.{Earlier};
ghost use Rattle.sheet.specs.Empties.{empty_at, EmptyRuns, nothing};

use crate::diagram::Fragment;
use crate::headed::Headed;
use crate::marks::Marks;
use crate::sheet::Sheet;

impl Headed<'_> {
    // Of the fragment i.
    pub(crate) fn emptiness(&self, i: usize) -> Marks
        requires earlier { (j : ℕ) → j < self.now.diagram.now.count → Earlier (fragment self.now.diagram.now j) j }
        requires here { i < self.now.diagram.now.count }
        ensures { result ≡ empty_at (fragment self.now.diagram.now) i }
    {
        match self.diagram.fragments[i] {
            Fragment::Skip => Marks::only_plain(),
            Fragment::Step(_) => Marks::nothing(),
            Fragment::Seq(l, r) => self.emptiness(l).and_then(self.emptiness(r)),
            Fragment::Alt(l, r) => self.emptiness(l).or(self.emptiness(r)),
            Fragment::Loop(b) => self.emptiness(b).repeated(),
            Fragment::Neg(b) => self.emptiness(b).negated(),
        }
    }
}

impl Sheet {
    /// Which marks the runs of a fragment over the empty list can have; none, where there is no such fragment.
    pub fn empty_runs(&self, i: usize) -> Marks
        ensures is { i < self.now.diagram.count → result ≡ empty_at (fragment self.now.diagram) i }
        ensures runs { i < self.now.diagram.count → EmptyRuns (fragment self.now.diagram) i result }
        ensures none { self.now.diagram.count ≤ i → result ≡ nothing }
    {
        if i < self.diagram.count {
            let headed = Headed {
                diagram: &self.diagram,
            };
            headed.emptiness(i)
        } else {
            Marks::nothing()
        }
    }
}
