ghost use Rattle.std.specs.Prelude.{List, [], ◌∷◌, Decides};
ghost use Rattle.watch.specs.Meaning.{Shifted, LeavesOut};

use action::action::Action;

/// Forbids some lists of actions.
pub trait Watch {
    /// What it judges.
    type Act: Action;

    /// Which lists it forbids, from here on.
    ghost forbids: { Self → List Self.Act → Type 0 };

    /// Whether the empty list is forbidden.
    fn broken(&self) -> bool
        ensures { Decides result (forbids self.now []) };

    /// Whether the list of this one action is forbidden.
    fn bars(&self, a: &Self::Act) -> bool
        ensures { Decides result (forbids self.now (a.now ∷ [])) };

    /// Takes in an action, a barred one too: a list is then forbidden exactly when the action followed by the list was.
    fn note(&mut self, a: &Self::Act)
        ensures { Shifted (forbids self.old) a.now (forbids self.new) };

    /// A list that has a forbidden list as a sub-trace is forbidden.
    ghost leaving: { (w : Self) → LeavesOut (forbids w) };
}
