ghost use Rattle.std.specs.Prelude.{◌≡◌, true};
ghost use Rattle.sheet.specs.Rules.{accepted};

use crate::diagram::Diagram;

/// A diagram that is accepted.
#[derive(Clone, Copy)]
pub struct Sheet {
    pub diagram: Diagram,
    ghost ok: { accepted diagram ≡ true },
}
