ghost use Rattle.watch.specs.Caps.{NewCap, cap_forbids};
ghost use Rattle.watch.specs.Leaving.{cap_leaves};

use crate::watch::Watch;
use action::action::Action;
use action::kind::Kind;
use fault::fault::Fault;
use std::marker::PhantomData;

/// Forbids more actions of one kind than a limit.
#[derive(Drop)]
pub struct Cap<T> {
    kind: Kind,
    // how many more of them are allowed; `None` once there were more
    left: Option<u16>,
    of: PhantomData<T>,
}

impl<T: Action> Cap<T> {
    /// Forbids lists with more actions of this kind than the limit; or refusal 13.
    // Stays: any number may be given, and refusal 13 says which names no kind.
    pub fn new(kind: u8, limit: u16) -> Result<Cap<T>, Fault>
        ensures { NewCap T.Action.kind kind limit result }
    {
        Ok(Cap {
            kind: Kind::try_from(kind)?,
            left: Some(limit),
            of: PhantomData,
        })
    }
}

impl<T: Action> Watch for Cap<T> {
    type Act = T;

    ghost forbids = { cap_forbids T.Action.kind };

    ghost leaving = { λ w. cap_leaves T.Action.kind w };

    fn broken(&self) -> bool {
        self.left.is_none()
    }

    fn bars(&self, a: &T) -> bool {
        match self.left {
            None => true,
            Some(left) => left == 0 && a.kind() == self.kind,
        }
    }

    fn note(&mut self, a: &T) {
        if a.kind() == self.kind {
            self.left = self.left.and_then(|left| left.checked_sub(1));
        }
    }
}
