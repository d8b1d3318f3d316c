use crate::watch::Watch;

/// A watch that is lent is a watch, and means what the one behind the reference means.
impl<'a, W: Watch> Watch for &'a mut W {
    type Act = W::Act;

    ghost forbids = { λ w. W.Watch.forbids w.now };

    ghost leaving = { λ w. W.Watch.leaving w.now };

    fn broken(&self) -> bool {
        (**self).broken()
    }

    fn bars(&self, a: &W::Act) -> bool {
        (**self).bars(a)
    }

    fn note(&mut self, a: &W::Act) {
        (**self).note(a)
    }
}
