ghost use Rattle.std.specs.Prelude.{◌≡◌};
ghost use Rattle.watch.specs.Meaning.{Alike};
ghost use Rattle.watch.specs.Pairs.{Either, pair_forbids};
ghost use Rattle.watch.specs.Leaving.{pair_leaves};

use crate::watch::Watch;

/// Two watches as one.
#[derive(Drop)]
pub struct Pair<V, W> {
    first: V,
    second: W,
}

impl<V: Watch, W: Watch<Act = V::Act>> Pair<V, W> {
    /// Forbids what either of two watches forbids.
    pub fn new(first: V, second: W) -> Pair<V, W>
        ensures forbids { Alike (pair_forbids V.Watch.forbids W.Watch.forbids result) (Either (V.Watch.forbids first) (W.Watch.forbids second)) }
        ensures holds { (result.first ≡ first) × (result.second ≡ second) }
    {
        Pair { first, second }
    }
}

impl<V: Watch, W: Watch<Act = V::Act>> Watch for Pair<V, W> {
    type Act = V::Act;

    ghost forbids = { pair_forbids V.Watch.forbids W.Watch.forbids };

    ghost leaving = { λ w. pair_leaves (V.Watch.forbids w.first) (W.Watch.forbids w.second) (V.Watch.leaving w.first) (W.Watch.leaving w.second) };

    fn broken(&self) -> bool {
        self.first.broken() || self.second.broken()
    }

    fn bars(&self, a: &V::Act) -> bool {
        self.first.bars(a) || self.second.bars(a)
    }

    fn note(&mut self, a: &V::Act) {
        self.first.note(a);
        self.second.note(a);
    }
}
