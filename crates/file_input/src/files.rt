//! The files of a folder. One that cannot be opened or read counts as empty.
ghost use Rattle.std.specs.Prelude.{◌≤◌, IfOk};
ghost use Rattle.file_input.specs.Inputs.{RuleRead, RunRead};

use crate::bytes::read_file;
use action::deed::Deed;
use fault::fault::Fault;
use run_file::{MOST_DEEDS, load_run};
use sheet::sheet::Sheet;
use sheet_file::load::load_sheet;
use std::alloc::AllocError;
use std::rt::Files;

/// The largest sheet has 4 + 9 × 64 bytes; one more shows that a file is larger.
pub const SHEET_BYTES: usize = 581;

/// The largest run has 2 + 3 × 8,000 bytes; one more shows that a file is larger.
pub const RUN_BYTES: usize = 24003;

/// Reads the sheet file `rule.sht` of a folder, and answers how many bytes that is.
// Stays: two names for two files; what they share is `read_file`, and `rt` goes with every call that reads.
pub fn rule_bytes<R: Files + AllocGlobal>(
    rt: &R,
    folder: &str,
    buffer: &mut [u8; SHEET_BYTES],
) -> Result<usize, AllocError>
    ensures { IfOk result (λ n. n ≤ 581) }
{
    let path = format!(in rt.alloc(); "{folder}rule.sht")?;
    Ok(read_file(rt, path.as_str(), buffer))
}

/// Reads the run file `run.dds` of a folder, and answers how many bytes that is.
pub fn run_bytes<R: Files + AllocGlobal>(
    rt: &R,
    folder: &str,
    buffer: &mut [u8; RUN_BYTES],
) -> Result<usize, AllocError>
    ensures { IfOk result (λ n. n ≤ 24003) }
{
    let path = format!(in rt.alloc(); "{folder}run.dds")?;
    Ok(read_file(rt, path.as_str(), buffer))
}

/// Loads the sheet of a folder, or answers why it is refused.
// Stays: what is loaded and what is promised of it differ from `read_run`.
pub fn read_rule<R: Files + AllocGlobal>(
    rt: &R,
    folder: &str,
    place: &mut Sheet,
) -> Result<Result<(), Fault>, AllocError>
    ensures { IfOk result (λ q. RuleRead q place.old.diagram place.new.diagram) }
{
    let mut buffer = [0; SHEET_BYTES];
    let n = rule_bytes(rt, folder, &mut buffer)?;
    Ok(load_sheet(&buffer[0..n], place))
}

/// Loads the run of a folder, and answers how many deeds it has, or why it is refused.
pub fn read_run<R: Files + AllocGlobal>(
    rt: &R,
    folder: &str,
    place: &mut [Deed; MOST_DEEDS],
) -> Result<Result<usize, Fault>, AllocError>
    ensures read { IfOk result (λ q. RunRead q place.old place.new) }
    ensures few { IfOk result (λ q. IfOk q (λ n. n ≤ 8000)) }
{
    let mut buffer = [0; RUN_BYTES];
    let n = run_bytes(rt, folder, &mut buffer)?;
    Ok(load_run(&buffer[0..n], place))
}
