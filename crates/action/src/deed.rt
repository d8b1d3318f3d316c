ghost use Rattle.std.specs.Prelude.{◌≡◌};
ghost use Rattle.action.specs.Deeds.{deed_from, reading as reading_of, address as address_of, partner as partner_of, signal as signal_of, first as first_of, second as second_of};
ghost use Rattle.action.specs.Low.{signal_low};

use crate::action::Action;
use crate::bytes::check_bytes;
use crate::kind::{HIGHEST_KIND, Kind};
use crate::partner::Partner;
use fault::fault::Fault;

/// The highest byte that says whom a deed is exchanged with.
pub const HIGHEST_ADDRESS: u8 = 7;

/// The highest argument.
pub const HIGHEST_ARGUMENT: u8 = 15;

/// One message between a script and a partner, whichever of them sends it.
/// Whatever the fields hold is read as parts within the ranges.
#[derive(Clone, Copy, Debug, PartialEq, Eq)]
pub struct Deed {
    // Stays: bytes and no `Bounded`: definitions speak of deeds of any numbers, each read as a part within its range.
    address: u8,
    signal: u8,
    first: u8,
    second: u8,
}

impl Deed {
    /// The deed of four bytes: partner, signal, first and second argument; or refusal 12.
    // Stays: no `TryFrom<&[u8]>`: callers hold arrays, which only a call by name takes for slices.
    pub fn from_bytes(bytes: &[u8]) -> Result<Deed, Fault>
        ensures { result ≡ deed_from bytes.now }
    {
        check_bytes(
            bytes,
            &[
                HIGHEST_ADDRESS,
                HIGHEST_KIND,
                HIGHEST_ARGUMENT,
                HIGHEST_ARGUMENT,
            ],
        )?;
        Ok(Deed {
            address: bytes[0],
            signal: bytes[1],
            first: bytes[2],
            second: bytes[3],
        })
    }

    /// The deed that four numbers are read as, each within its range.
    // Stays: four numbers, each of any size, are what a deed is read from.
    pub fn reading(address: u8, signal: u8, first: u8, second: u8) -> Deed
        ensures { result ≡ reading_of address signal first second }
    {
        Deed {
            address: address % 8,
            signal: signal % 32,
            first: first % 16,
            second: second % 16,
        }
    }

    /// What a step matches of the partner.
    pub fn address(&self) -> u8
        ensures { result ≡ address_of self.now }
    {
        self.address % 8
    }

    /// Whom the deed is exchanged with.
    pub fn partner(&self) -> Partner
        ensures { result.value ≡ partner_of self.now }
    {
        Partner::of(self.address)
    }

    pub fn signal(&self) -> u8
        ensures { result ≡ signal_of self.now }
    {
        self.signal % 32
    }

    pub fn first(&self) -> u8
        ensures { result ≡ first_of self.now }
    {
        self.first % 16
    }

    pub fn second(&self) -> u8
        ensures { result ≡ second_of self.now }
    {
        self.second % 16
    }
}

impl Action for Deed {
    ghost kind = { signal_of };

    ghost low = { signal_low };

    fn kind(&self) -> Kind {
        Kind::of(self.signal)
    }
}
