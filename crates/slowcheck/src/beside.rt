//! The fast ones beside the slow one, on one sheet and one list.
use crate::draw::MOST_DRAWN;
use crate::encode::encode_run;
use crate::fronts::{Front, forbidden_at};
use action::deed::Deed;
use answers::files::answer_files;
use gate::answer::Answer;
use gate::ask::{Ask, Reply};
use gate::gate::Gate;
use host::board::Board;
use machine::accepts::accepts;
use run_file::{MOST_DEEDS, load_run};
use sheet::sheet::Sheet;
use sheet_watch::rehearsal::rehearse;
use sheet_watch::watching::SheetWatch;
use std::alloc::{AllocError, Global};
use std::io;
use watch::watch::Watch;

// A query and a submit for each deed of a list.
const MOST_ASKS: usize = 2 * MOST_DRAWN;

/// A sheet, as bytes and loaded; a list of deeds; and what the slow program finds of the list's front parts.
#[derive(Drop)]
pub struct Case<'a> {
    pub rule: &'a [u8],
    pub sheet: &'a Sheet,
    pub deeds: &'a [Deed],
    pub found: &'a [Front],
}

// Each deed of a run file is asked about and then submitted; none where the file is refused.
fn asks(heap: Global, run: &[u8]) -> Result<Option<Vec<Ask<Deed>>>, AllocError> {
    let none = Deed::reading(0, 0, 0, 0);
    let mut deeds = [none; MOST_DEEDS];
    let Ok(count) = load_run(run, &mut deeds) else {
        return Ok(None);
    };
    let mut asks = Vec::new(heap);
    for deed in deeds.iter().take(count) {
        asks.push(Ask::Query(*deed))?;
        asks.push(Ask::Submit(*deed))?;
    }
    Ok(Some(asks))
}

// The replies of a gate, under the sheet and over a new board.
fn replies(sheet: &Sheet, asks: &[Ask<Deed>]) -> [Reply; MOST_ASKS] {
    let mut replies = [Reply::Answered(Answer::Declined); MOST_ASKS];
    let mut gate = Gate::open(SheetWatch::new(sheet), Board::new());
    let _ = gate.run(asks, &mut replies);
    replies
}

impl Case<'_> {
    // Whether the first k deeds are forbidden.
    fn forbidden(&self, k: usize) -> bool {
        forbidden_at(self.found, k)
    }

    // Before each deed, and after the last: is the watch broken, and does it bar the next?
    fn watch_agrees(&self) -> bool {
        let mut watch = SheetWatch::new(self.sheet);
        for (k, deed) in self.deeds.iter().enumerate() {
            if watch.broken() != self.forbidden(k) || watch.bars(deed) != self.forbidden(k + 1) {
                return false;
            }
            watch.note(deed);
        }
        watch.broken() == self.forbidden(self.deeds.len())
    }

    // Is each front part a negative trace?
    fn machine_agrees(&self) -> bool {
        self.found.iter().enumerate().all(|(k, front)| {
            k > self.deeds.len() || accepts(self.sheet, &self.deeds[..k]) == front.negative
        })
    }

    // How many deeds come before the first that makes the list forbidden.
    fn rehearsal_agrees(&self) -> bool {
        let mut watch = SheetWatch::new(self.sheet);
        let before = rehearse(&mut watch, self.deeds);
        !self.forbidden(before) && (before == self.deeds.len() || self.forbidden(before + 1))
    }

    // The answer that the rules ask for to the deed k, where those before it were submitted.
    fn asked_for(&self, k: usize) -> Answer {
        if self.forbidden(k) {
            Answer::Stopped
        } else if self.forbidden(k.saturating_add(1)) {
            Answer::Barred
        } else {
            Answer::Done
        }
    }

    // Whether a reply is the answer that the rules ask for to the deed k.
    fn reply_agrees(&self, reply: &Reply, k: usize) -> bool {
        *reply == Reply::Answered(self.asked_for(k))
    }

    // The list as a run file, each deed asked about and submitted at a gate: two replies for each deed.
    fn gate_agrees(&self, heap: Global) -> Result<bool, AllocError> {
        let run = encode_run(heap, self.deeds)?;
        let Some(asks) = asks(heap, run.as_slice())? else {
            return Ok(false);
        };
        let replies = replies(self.sheet, asks.as_slice());
        Ok(
            replies
                .iter()
                .take(self.deeds.len().saturating_mul(2))
                .enumerate()
                .all(|(k, reply)| self.reply_agrees(reply, k / 2)),
        )
    }

    // The list as a run file, answered under the sheet's bytes as gaterun does.
    fn answers_agree(&self, heap: Global) -> Result<bool, AllocError> {
        let run = encode_run(heap, self.deeds)?;
        let mut replies = [Reply::Answered(Answer::Declined); MOST_DEEDS];
        let Ok(account) = answer_files(self.rule, run.as_slice(), &mut replies) else {
            return Ok(false);
        };
        let told = replies
            .iter()
            .take(account.many)
            .enumerate()
            .all(|(k, reply)| self.reply_agrees(reply, k));
        Ok(
            told && account.many == self.deeds.len()
                && account.gate.stopped() == self.forbidden(self.deeds.len()),
        )
    }

    /// What the fast ones answer, deed by deed.
    pub fn print_fast(&self, rt: &HostRuntime) -> io::Result<()> {
        let mut watch = SheetWatch::new(self.sheet);
        let mut gate = Gate::open(SheetWatch::new(self.sheet), Board::new());
        for deed in self.deeds {
            let bars = watch.bars(deed);
            let answer = gate.submit(deed).number();
            watch.note(deed);
            let broken = watch.broken();
            println!(rt; "watch bars: {bars}, then broken: {broken}; gate: {answer}")?;
        }
        let accepted = accepts(self.sheet, self.deeds);
        let before = rehearse(&mut SheetWatch::new(self.sheet), self.deeds);
        println!(rt; "machine accepts: {accepted}, rehearsal: {before}")
    }

    /// Which of the fast ones answers otherwise, if one does.
    pub fn difference(&self, heap: Global) -> Result<Option<&'static str>, AllocError> {
        Ok(if !self.watch_agrees() {
            Some("watch")
        } else if !self.machine_agrees() {
            Some("machine")
        } else if !self.rehearsal_agrees() {
            Some("rehearsal")
        } else if !self.gate_agrees(heap)? {
            Some("gate")
        } else if !self.answers_agree(heap)? {
            Some("answers")
        } else {
            None
        })
    }
}
