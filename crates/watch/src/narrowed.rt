ghost use Rattle.std.specs.Prelude.{◌≡◌, ◌==◌};
ghost use Rattle.action.specs.Deeds.{partner as partner_of};
ghost use Rattle.watch.specs.Meaning.{Alike};
ghost use Rattle.watch.specs.Narrows.{narrowed_forbids, with_partner};
ghost use Rattle.watch.specs.Leaving.{narrowed_leaves};

use crate::watch::Watch;
use action::deed::Deed;
use action::partner::Partner;

/// Shows a watch only the deeds of one partner.
#[derive(Drop)]
pub struct Narrowed<W> {
    below: W,
    partner: Partner,
}

impl<W: Watch<Act = Deed>> Narrowed<W> {
    /// Forbids a list of which this watch forbids the deeds with this partner.
    pub fn new(watch: W, partner: Partner) -> Narrowed<W>
        ensures forbids { Alike (narrowed_forbids W.Watch.forbids result) (λ l. W.Watch.forbids watch (with_partner partner.value l)) }
        ensures holds { (result.below ≡ watch) × (result.partner ≡ partner) }
    {
        Narrowed {
            below: watch,
            partner,
        }
    }

    // Whether the watch below is shown a deed.
    fn shows(&self, deed: &Deed) -> bool
        ensures { result ≡ (partner_of deed.now == self.now.partner.value) }
    {
        deed.partner() == self.partner
    }
}

impl<W: Watch<Act = Deed>> Watch for Narrowed<W> {
    type Act = Deed;

    ghost forbids = { narrowed_forbids W.Watch.forbids };

    ghost leaving = { λ w. narrowed_leaves W.Watch.forbids w (W.Watch.leaving w.below) };

    fn broken(&self) -> bool {
        self.below.broken()
    }

    // A deed with another partner does not pass a broken watch.
    fn bars(&self, a: &Deed) -> bool {
        if !self.shows(a) {
            return self.below.broken();
        }
        self.below.bars(a)
    }

    fn note(&mut self, a: &Deed) {
        if self.shows(a) {
            self.below.note(a);
        }
    }
}
