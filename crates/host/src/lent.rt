ghost use Rattle.std.specs.Prelude.{◌≡◌};

use crate::host::Host;
use crate::outcome::Outcome;
use fault::fault::Fault;

/// A host that is lent is a host, and means what the one behind the reference means.
impl<'a, H: Host> Host for &'a mut H {
    type Act = H::Act;

    ghost can = { λ h. H.Host.can h.now };

    ghost counts = { λ h. H.Host.counts h.now };

    ghost recorded = { λ h. H.Host.recorded h.now };

    ghost did = { λ g x h. H.Host.did g.now x h.now × (h.ghost_name ≡ g.ghost_name) };

    fn able(&self, a: &H::Act) -> bool {
        (**self).able(a)
    }

    fn perform(&mut self, a: &H::Act) -> Outcome {
        (**self).perform(a)
    }

    fn count(&self, kind: u8) -> Result<u64, Fault> {
        (**self).count(kind)
    }
}
