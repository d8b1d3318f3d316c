ghost use Rattle.sheet.specs.Forbid.{Forbids};
ghost use Rattle.watch.specs.Meaning.{Alike};
ghost use Rattle.std.specs.Prelude.{is_none};
ghost use Rattle.sheet_watch.specs.Watching.{Forbidden, may_of};
ghost use Rattle.machine.specs.Charts.{kinds_of, follows_of};
ghost use Rattle.sheet_watch.specs.Leaving.{leaving_out};

use action::deed::Deed;
use followers::follow::begin;
use machine::chart::{Chart, first_marks};
use sheet::sheet::Sheet;
use watch::watch::Watch;

/// Forbids what a sheet forbids.
/// The marks say for each step and each pair of x and y whether a run may take that step next, unmarked or marked; all runs live side by side.
/// There are none once a marked run has ended: every list is forbidden from then on.
#[derive(Drop)]
pub struct SheetWatch {
    pub(crate) chart: Chart,
    pub(crate) marks: Option<[u8; 16384]>,
}

impl SheetWatch {
    /// The watch of the sheet, before any deed.
    pub fn new(sheet: &Sheet) -> SheetWatch
        ensures { Alike (Forbidden result) (Forbids sheet.now.diagram) }
    {
        let chart = Chart::new(sheet);
        let first = begin(sheet);
        let marks = first_marks(sheet);
        SheetWatch {
            chart,
            marks: if first.marked.end { None } else { Some(marks) },
        }
    }
}

impl Watch for SheetWatch {
    type Act = Deed;

    ghost forbids = { Forbidden };

    ghost leaving = { λ w s l sub h. leaving_out (kinds_of w.chart) (follows_of w.chart) (is_none w.marks) (may_of w.marks) s l sub h };

    fn broken(&self) -> bool {
        self.marks.is_none()
    }

    fn bars(&self, a: &Deed) -> bool {
        match &self.marks {
            Some(marks) => self.chart.ends(marks, *a),
            None => true,
        }
    }

    fn note(&mut self, a: &Deed) {
        if let Some(marks) = &mut self.marks {
            let old = *marks;
            if self.chart.advance(&old, *a, marks) {
                self.marks = None;
            }
        }
    }
}
