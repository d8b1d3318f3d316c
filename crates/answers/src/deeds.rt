//! What the deeds of a list are answered under a sheet.
ghost use Rattle.std.specs.Prelude.{◌≡◌, ◌≤◌, min, map, length, take, drop};
ghost use Rattle.gate.specs.Words.{said};
ghost use Rattle.gate.specs.Ledger.{submits};
ghost use Rattle.answers.specs.Answered.{Answered};

use action::deed::Deed;
use gate::ask::{Ask, Reply};
use gate::closed::Closed;
use gate::gate::Gate;
use host::board::Board;
use run_file::MOST_DEEDS;
use sheet::sheet::Sheet;
use sheet_watch::watching::SheetWatch;

// Each deed is submitted in turn.
fn submit_all(deeds: &[Deed]) -> [Ask<Deed>; MOST_DEEDS]
    requires { length deeds.now ≤ 8000 }
    ensures { take (length deeds.now) result ≡ submits deeds.now }
{
    let mut asks = [Ask::Count(0); MOST_DEEDS];
    for (i, deed) in deeds.iter().enumerate() {
        // Stays: written by its number: where `iter_mut` is zipped with what is read, nothing is known of the slice afterwards.
        asks[i] = Ask::Submit(*deed);
    }
    asks
}

/// What came of a list of deeds.
#[derive(Drop)]
pub struct Account {
    /// How many of them were submitted.
    pub many: usize,
    /// What is left of the gate: whether it was stopped, and its board.
    pub gate: Closed<Board<Deed>>,
}

/// Submits the deeds, or the first 8000 of more, to a new gate under the sheet and over a new board.
/// Later replies keep what they held.
pub fn answer_deeds(sheet: &Sheet, deeds: &[Deed], replies: &mut [Reply; MOST_DEEDS]) -> Account
    ensures many { result.many ≡ min (length deeds.now) 8000 }
    ensures later { drop result.many replies.new ≡ drop result.many replies.old }
    ensures answered { Answered sheet.now.diagram (take result.many deeds.now) (map said (take result.many replies.new)) result.gate }
{
    let few = deeds.len().min(MOST_DEEDS);
    // Stays: fixed memory and how much of it is used, since a library takes none of its own.
    let asks = submit_all(&deeds[..few]);
    let mut gate = Gate::open(SheetWatch::new(sheet), Board::new());
    let many = gate.run(&asks[..few], replies);
    Account {
        many,
        gate: gate.close(),
    }
}
