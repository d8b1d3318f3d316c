ghost use Rattle.std.specs.Prelude.{◌≡◌};
ghost use Rattle.watch.specs.Meaning.{Alike};
ghost use Rattle.translation.specs.Calls.{deeds_of, translated_forbids};
ghost use Rattle.translation.specs.Leaving.{translated_leaves};

use crate::translation::Translation;
use action::call::Call;
use action::deed::Deed;
use watch::watch::Watch;

/// Judges calls by a watch of deeds.
#[derive(Drop)]
pub struct Translated<W> {
    below: W,
    table: Translation,
}

impl<W: Watch<Act = Deed>> Translated<W> {
    /// Forbids a list of calls of which this watch forbids the translation.
    pub fn new(watch: W, table: Translation) -> Translated<W>
        ensures forbids { Alike (translated_forbids W.Watch.forbids result) (λ l. W.Watch.forbids watch (deeds_of table l)) }
        ensures holds { (result.below ≡ watch) × (result.table ≡ table) }
    {
        Translated {
            below: watch,
            table,
        }
    }
}

impl<W: Watch<Act = Deed>> Watch for Translated<W> {
    type Act = Call;

    ghost forbids = { translated_forbids W.Watch.forbids };

    ghost leaving = { λ w. translated_leaves W.Watch.forbids w (W.Watch.leaving w.below) };

    fn broken(&self) -> bool {
        self.below.broken()
    }

    // A call that becomes no deed does not pass a broken watch.
    fn bars(&self, a: &Call) -> bool {
        match self.table.translate(a) {
            Some(deed) => self.below.bars(&deed),
            None => self.below.broken(),
        }
    }

    fn note(&mut self, a: &Call) {
        if let Some(deed) = self.table.translate(a) {
            self.below.note(&deed);
        }
    }
}
