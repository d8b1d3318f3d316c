ghost use Rattle.std.specs.Prelude.{◌≡◌, ◌≤◌, take, length};

use crate::diagram::{Diagram, Fragment};

// A diagram whose number of fragments fits.
#[derive(Clone, Copy)]
pub(crate) struct Headed<'a> {
    pub(crate) diagram: &'a Diagram,
    ghost some: { 1 ≤ diagram.now.count },
    ghost few: { diagram.now.count ≤ 64 },
}

impl Headed<'_> {
    pub(crate) fn fragments(&self) -> &[Fragment]
        ensures is { result.now ≡ take self.now.diagram.now.count self.now.diagram.now.fragments }
        ensures count { length result.now ≡ self.now.diagram.now.count }
    {
        &self.diagram.fragments[..self.diagram.count]
    }
}
