ghost use Rattle.std.specs.Prelude.{◌≡◌, ℕ, ◌≤◌};
ghost use Rattle.action.specs.Ranges.{highest_kind};

use crate::kind::Kind;

/// What a script asks for. All that most of the gate knows of it is its kind.
pub trait Action: Copy {
    ghost kind: { Self → ℕ };

    /// Its kind.
    fn kind(&self) -> Kind
        ensures { result.value ≡ kind self.now };

    ghost low: { (a : Self) → kind a ≤ highest_kind };
}
