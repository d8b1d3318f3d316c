ghost use Rattle.std.specs.Prelude.{◌≡◌, ◌+◌, ◌<◌, ◌≤◌, ◌++◌, IfOk, OnOk};
ghost use Rattle.sheet.specs.Forbid.{fragment as fragment_at};
ghost use Rattle.outline.specs.Lines.{lines_at, outline as outline_of};

use sheet::diagram::Fragment;
use sheet::sheet::Sheet;
use std::alloc::{AllocError, Global};

/// A line of an outline: a fragment, and how deep it lies.
#[derive(Clone, Copy)]
pub struct Line {
    pub depth: usize,
    pub fragment: Fragment,
}

// Adds the lines of a fragment.
#[tactic(auto, using(sheet::proofs::Facts::accepted_sizes))]
fn add(sheet: &Sheet, i: usize, depth: usize, lines: &mut Vec<Line>) -> Result<(), AllocError>
    requires here { i < sheet.now.diagram.count }
    requires shallow { depth + i ≤ 64 }
    ensures { OnOk result (lines.new.items ≡ lines.old.items ++ lines_at (fragment_at sheet.now.diagram) i depth) }
{
    let fragment = sheet.diagram.fragments[i];
    lines.push(Line { depth, fragment })?;
    match fragment {
        Fragment::Skip | Fragment::Step(_) => Ok(()),
        Fragment::Seq(l, r) | Fragment::Alt(l, r) => {
            add(sheet, l, depth + 1, lines)?;
            add(sheet, r, depth + 1, lines)
        }
        Fragment::Loop(b) | Fragment::Neg(b) => add(sheet, b, depth + 1, lines),
    }
}

/// The lines of a sheet: the whole first, and each fragment before its parts.
#[tactic(auto, using(sheet::proofs::Facts::accepted_sizes))]
pub fn outline(heap: Global, sheet: &Sheet) -> Result<Vec<Line>, AllocError>
    ensures { IfOk result (λ v. v.items ≡ outline_of sheet.now.diagram) }
{
    let mut lines = Vec::new(heap);
    add(sheet, sheet.diagram.count - 1, 0, &mut lines)?;
    Ok(lines)
}
