//! From a diagram to a sheet.
ghost use Rattle.std.specs.Prelude.{◌≡◌};
ghost use Rattle.fault.specs.Checks.{or_fault};
ghost use Rattle.sheet.specs.Rules.{header_fits, verdict};
ghost use Rattle.sheet.specs.Judged.{drawn, blank};

use crate::checks::check_header;
use crate::diagram::{Diagram, Fragment, Variables};
use crate::headed::Headed;
use crate::sheet::Sheet;
use crate::step::Step;
use fault::fault::Fault;

/// The most fragments of a sheet.
pub const MOST_FRAGMENTS: usize = 64;

/// The most steps of a sheet.
pub const MOST_STEPS: usize = 31;

/// The highest start of a variable.
pub const HIGHEST_START: u8 = 15;

/// Whether the numbers of a header are in their ranges.
pub fn header_fits(count: usize, steps: usize, start: Variables) -> bool
    ensures { result ≡ header_fits count steps start.x start.y }
{
    1 <= count
        && count <= MOST_FRAGMENTS
        && steps <= MOST_STEPS
        && start.x <= HIGHEST_START
        && start.y <= HIGHEST_START
}

/// The sheet of a diagram, or the first rule that refuses it: 2, 5, 6, 7 or 8.
pub fn judge(diagram: Diagram) -> Result<Sheet, Fault>
    ensures { drawn result ≡ or_fault (verdict diagram) diagram }
{
    check_header(&diagram)?;
    let headed = Headed { diagram: &diagram };
    headed.check_ranges()?;
    headed.check_tree()?;
    headed.check_steps()?;
    headed.check_empty()?;
    Ok(Sheet { diagram })
}

impl Sheet {
    /// A sheet to lend: the neg of one step.
    pub fn blank() -> Sheet
        ensures { result.diagram ≡ blank }
    {
        let mut fragments = [Fragment::Skip; 64];
        fragments[0] = Fragment::Step(Step {
            address: 0,
            signal: 0,
            guard: None,
            change: None,
        });
        fragments[1] = Fragment::Neg(0);
        Sheet {
            diagram: Diagram {
                count: 2,
                steps: 1,
                start: Variables { x: 0, y: 0 },
                fragments,
            },
        }
    }
}
