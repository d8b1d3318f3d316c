ghost use Rattle.std.specs.Prelude.{◌≡◌};
ghost use Rattle.fault.specs.Checks.{filled, or_fault};
ghost use Rattle.sheet.specs.Judged.{drawn};
ghost use Rattle.sheet_file.specs.Sheets.{sheet_verdict, diagram_of, EmptyRefused};

use crate::rows::{check_kinds, read_rows};
use fault::fault::Fault;
use sheet::diagram::{Diagram, Variables};
use sheet::judge::{header_fits, judge};
use sheet::sheet::Sheet;

// The sheet that bytes say, or the first rule that refuses them.
fn read_sheet(bytes: &[u8]) -> Result<Sheet, Fault>
    ensures { drawn result ≡ or_fault (sheet_verdict bytes.now) (diagram_of bytes.now) }
{
    let [n, k, x, y, rest @ ..] = bytes else {
        return Err(Fault::SheetShort);
    };
    let count = *n as usize;
    let steps = *k as usize;
    let start = Variables { x: *x, y: *y };
    if !header_fits(count, steps, start) {
        return Err(Fault::SheetHeader);
    }
    if rest.len() != 9 * count {
        return Err(Fault::SheetLength);
    }
    let (kinds, rows) = rest.split_at(count);
    check_kinds(kinds)?;
    let fragments = read_rows(kinds, rows)?;
    judge(Diagram {
        count,
        steps,
        start,
        fragments,
    })
}

/// Loads a sheet into a place that the caller lends, or answers the first rule that refuses the bytes, 1 to 8.
/// After a refusal the place holds what it held.
pub fn load_sheet(bytes: &[u8], place: &mut Sheet) -> Result<(), Fault>
    ensures verdict { result ≡ sheet_verdict bytes.now }
    ensures place { place.new.diagram ≡ filled (sheet_verdict bytes.now) (diagram_of bytes.now) place.old.diagram }
    ensures empty_refused { EmptyRefused bytes.now result }
{
    *place = read_sheet(bytes)?;
    Ok(())
}
