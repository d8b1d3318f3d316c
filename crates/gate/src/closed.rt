ghost use Rattle.std.specs.Prelude.{◌≡◌};
ghost use Rattle.host.specs.Hosting.{count_of};

use fault::fault::Fault;
use host::host::Host;

/// What is left of a gate.
#[derive(Drop)]
pub struct Closed<H> {
    host: H,
    // Stays: as in a gate.
    stopped: bool,
}

impl<H: Host> Closed<H> {
    // What is left of a gate that held this host.
    pub(crate) fn new(host: H, stopped: bool) -> Closed<H>
        ensures { result ≡ record { host = host; stopped = stopped } }
    {
        Closed { host, stopped }
    }

    /// The host's count of a kind, or refusal 13.
    // Stays: any number may be asked about, as at a host.
    pub fn count(&self, kind: u8) -> Result<u64, Fault>
        ensures { result ≡ count_of kind (H.Host.counts self.now.host kind) }
    {
        self.host.count(kind)
    }

    /// Whether the gate was stopped.
    pub fn stopped(&self) -> bool
        ensures { result ≡ self.now.stopped }
    {
        self.stopped
    }

    /// Gives the host back.
    pub fn into_host(self) -> H
        ensures { result ≡ self.host }
    {
        let Closed { host, stopped: _ } = self;
        host
    }
}
