//! What the deeds of a run file are answered under a sheet file.
ghost use Rattle.answers.specs.Files.{FilesAnswered};

use crate::deeds::{Account, answer_deeds};
use action::deed::Deed;
use fault::fault::Fault;
use gate::ask::Reply;
use run_file::{MOST_DEEDS, load_run};
use sheet::sheet::Sheet;
use sheet_file::load::load_sheet;

/// A file that is refused, and why.
#[derive(Drop)]
pub enum Refused {
    Sheet(Fault),
    Run(Fault),
}

/// Submits the deeds of a run file, in order, to a new gate under the sheet of a sheet file and over a new board.
/// Or says which file is refused, the sheet first; then the replies are what they were.
pub fn answer_files(
    rule: &[u8],
    run: &[u8],
    replies: &mut [Reply; MOST_DEEDS],
) -> Result<Account, Refused>
    ensures { FilesAnswered rule.now run.now result replies.old replies.new }
{
    let mut sheet = Sheet::blank();
    load_sheet(rule, &mut sheet).map_err(Refused::Sheet)?;
    let none = Deed::reading(0, 0, 0, 0);
    let mut deeds = [none; MOST_DEEDS];
    let n = load_run(run, &mut deeds).map_err(Refused::Run)?;
    Ok(answer_deeds(&sheet, &deeds[..n], replies))
}
