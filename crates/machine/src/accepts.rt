//! Which lists are negative traces of a sheet.
ghost use Rattle.std.specs.Prelude.{Decides};
ghost use Rattle.sheet.specs.Forbid.{Negative};

use crate::chart::{Chart, first_marks};
use action::deed::Deed;
use followers::follow::begin;
use sheet::sheet::Sheet;

/// Whether the list is a negative trace of the sheet.
pub fn accepts(sheet: &Sheet, deeds: &[Deed]) -> bool
    ensures { Decides result (Negative sheet.now.diagram deeds.now) }
{
    let chart = Chart::new(sheet);
    let first = begin(sheet);
    let mut ended = first.marked.end;
    let mut marks = first_marks(sheet);
    for d in deeds {
        let old = marks;
        marks = [0; 16384];
        ended = chart.advance(&old, *d, &mut marks);
    }
    ended
}
