// The kinds and the rows of the fragments.
ghost use Rattle.std.specs.Prelude.{◌≡◌, ◌*◌, ◌≤◌, if◌then◌else◌, length, position, nat_lt, Some, None};
ghost use Rattle.fault.specs.Checks.{or_fault};
ghost use Rattle.sheet_file.specs.Rows.{step_row_fits, row_fits, row_check, step_of, fragment_of, fragments_of, kinds_check, rows_check};

use crate::codes::{change, guard};
use action::deed::HIGHEST_ADDRESS;
use action::kind::HIGHEST_KIND;
use fault::fault::Fault;
use sheet::diagram::Fragment;
use sheet::step::Step;

/// The highest kind of a fragment.
const HIGHEST_FRAGMENT: u8 = 5;

fn first_unknown(kinds: &[u8]) -> Option<usize>
    ensures { result ≡ position (λ k. nat_lt 5 k) kinds.now }
{
    kinds.iter().position(|kind| *kind > HIGHEST_FRAGMENT)
}

// Stays: kinds are judged before any row, and an enum of them would be matched once, in `read_fragment`, as the bytes are.
pub(crate) fn check_kinds(kinds: &[u8]) -> Result<(), Fault>
    ensures { result ≡ kinds_check kinds.now }
{
    match first_unknown(kinds) {
        Some(i) => Err(Fault::FragmentKind(i)),
        None => Ok(()),
    }
}

// The step of a row whose bytes are in their ranges. Without a comparison it has no guard, without a target no change.
fn read_step(row: &[u8; 8]) -> Option<Step>
    ensures { result ≡ (if step_row_fits row.now then Some (step_of row.now) else None) }
{
    let [
        address,
        signal,
        left,
        comparison,
        right,
        target,
        source,
        add,
    ] = *row;
    if address > HIGHEST_ADDRESS || signal > HIGHEST_KIND {
        return None;
    }
    let guard = match (left, comparison, right) {
        (0, 0, 0) => None,
        _ => Some(guard(left, comparison, right)?),
    };
    let change = match (target, source, add) {
        (0, 0, 0) => None,
        _ => Some(change(target, source, add)?),
    };
    Some(Step {
        address,
        signal,
        guard,
        change,
    })
}

// The fragment of a kind and a row whose bytes are in their ranges: other than a step's, they are the parts and then 0.
// A kind above the highest has been refused, and would be a skip.
fn read_fragment(kind: u8, row: &[u8; 8]) -> Option<Fragment>
    ensures { result ≡ (if row_fits kind row.now then Some (fragment_of kind row.now) else None) }
{
    match (kind, *row) {
        (1, _) => Some(Fragment::Step(read_step(row)?)),
        (2, [first, second, 0, 0, 0, 0, 0, 0]) => {
            Some(Fragment::Seq(first as usize, second as usize))
        }
        (3, [first, second, 0, 0, 0, 0, 0, 0]) => {
            Some(Fragment::Alt(first as usize, second as usize))
        }
        (4, [part, 0, 0, 0, 0, 0, 0, 0]) => Some(Fragment::Loop(part as usize)),
        (5, [part, 0, 0, 0, 0, 0, 0, 0]) => Some(Fragment::Neg(part as usize)),
        (0 | 6.., [0, 0, 0, 0, 0, 0, 0, 0]) => Some(Fragment::Skip),
        _ => None,
    }
}

// The fragment that a kind and a row say, or refusal 5.
fn read_row(i: usize, kind: u8, row: &[u8; 8]) -> Result<Fragment, Fault>
    ensures { result ≡ or_fault (row_check i kind row.now) (fragment_of kind row.now) }
{
    read_fragment(kind, row).ok_or(Fault::FragmentRow(i))
}

// The fragments, with skips past the last; or refusal 5.
pub(crate) fn read_rows(kinds: &[u8], bytes: &[u8]) -> Result<[Fragment; 64], Fault>
    requires few { length kinds.now ≤ 64 }
    requires eight { length bytes.now ≡ 8 * length kinds.now }
    ensures { result ≡ or_fault (rows_check kinds.now bytes.now) (fragments_of kinds.now bytes.now) }
{
    let (rows, _) = bytes.as_chunks();
    let mut fragments = [Fragment::Skip; 64];
    for (i, (kind, row)) in kinds.iter().zip(rows).enumerate() {
        // Stays: written by its number: where `iter_mut` is zipped with what is read, nothing is known of the slice afterwards.
        fragments[i] = read_row(i, *kind, row)?;
    }
    Ok(fragments)
}
