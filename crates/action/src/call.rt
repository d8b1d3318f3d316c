ghost use Rattle.std.specs.Prelude.{◌≡◌};
ghost use Rattle.action.specs.Calls.{call_from, family as family_of, form as form_of, first as first_of, second as second_of, third as third_of};
ghost use Rattle.action.specs.Low.{family_low};

use crate::action::Action;
use crate::bytes::check_bytes;
use crate::deed::HIGHEST_ARGUMENT;
use crate::kind::{HIGHEST_KIND, Kind};
use fault::fault::Fault;

/// The highest form of a call.
pub const HIGHEST_FORM: u8 = 7;

/// What the script engine meets.
/// Whatever the fields hold is read as parts within the ranges.
#[derive(Clone, Copy, Debug, PartialEq, Eq)]
pub struct Call {
    // Stays: bytes and no `Bounded`, as in a deed.
    family: u8,
    form: u8,
    first: u8,
    second: u8,
    third: u8,
}

impl Call {
    /// The call of five bytes: family, form and three arguments; or refusal 12.
    // Stays: no `TryFrom<&[u8]>`: callers hold arrays, which only a call by name takes for slices.
    pub fn from_bytes(bytes: &[u8]) -> Result<Call, Fault>
        ensures { result ≡ call_from bytes.now }
    {
        check_bytes(
            bytes,
            &[
                HIGHEST_KIND,
                HIGHEST_FORM,
                HIGHEST_ARGUMENT,
                HIGHEST_ARGUMENT,
                HIGHEST_ARGUMENT,
            ],
        )?;
        Ok(Call {
            family: bytes[0],
            form: bytes[1],
            first: bytes[2],
            second: bytes[3],
            third: bytes[4],
        })
    }

    pub fn family(&self) -> u8
        ensures { result ≡ family_of self.now }
    {
        self.family % 32
    }

    pub fn form(&self) -> u8
        ensures { result ≡ form_of self.now }
    {
        self.form % 8
    }

    pub fn first(&self) -> u8
        ensures { result ≡ first_of self.now }
    {
        self.first % 16
    }

    pub fn second(&self) -> u8
        ensures { result ≡ second_of self.now }
    {
        self.second % 16
    }

    pub fn third(&self) -> u8
        ensures { result ≡ third_of self.now }
    {
        self.third % 16
    }
}

impl Action for Call {
    ghost kind = { family_of };

    ghost low = { family_low };

    fn kind(&self) -> Kind {
        Kind::of(self.family)
    }
}
