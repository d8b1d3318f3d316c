ghost use Rattle.std.specs.Prelude.{◌≡◌};
ghost use Rattle.watch.specs.Sets.{member, with_kind, union};

use action::kind::Kind;

// A set of kinds: a kind is in it where the binary digit of its number is 1.
#[derive(Clone, Copy)]
pub(crate) struct Kinds {
    digits: u32,
}

impl Kinds {
    // The empty set.
    pub(crate) const NONE: Kinds = Kinds { digits: 0 };

    // Whether a kind is in the set.
    pub(crate) fn has(self, kind: Kind) -> bool
        ensures { result ≡ member self kind.value }
    {
        (self.digits >> kind.value()) % 2 == 1
    }

    // The set and one kind more.
    pub(crate) fn with(self, kind: Kind) -> Kinds
        ensures { result ≡ with_kind self kind.value }
    {
        Kinds {
            digits: self.digits | 1 << kind.value(),
        }
    }

    // What is in either of two sets.
    pub(crate) fn or(self, other: Kinds) -> Kinds
        ensures { result ≡ union self other }
    {
        Kinds {
            digits: self.digits | other.digits,
        }
    }
}
