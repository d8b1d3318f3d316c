//! How many agreed, by kind of outcome.
use crate::fronts::{Front, forbidden_at};
use fault::fault::Fault;
use std::{fmt, io};

/// A count that cannot overflow.
#[derive(Clone, Copy, Default)]
pub struct Count(u64);

impl Count {
    pub fn add(&mut self) {
        self.0 = self.0.saturating_add(1);
    }
}

impl fmt::Display for Count {
    fn fmt<W: fmt::Write>(&self, f: &mut fmt::Formatter<W>) -> fmt::Result {
        write!(f, "{}", self.0)
    }
}

/// What the sheets and lists came to.
#[derive(Default, Drop)]
pub struct Tally {
    accepted: Count,
    // By the number of the refusal.
    refused: [Count; 9],
    lists: Count,
    forbidden: Count,
    not_forbidden: Count,
    negative: Count,
    not_negative: Count,
    done: Count,
    barred: Count,
    stopped: Count,
}

impl Tally {
    /// A sheet that was accepted or refused.
    pub fn sheet(&mut self, verdict: Result<(), Fault>) {
        match verdict {
            Ok(()) => self.accepted.add(),
            Err(fault) => {
                if let Some(count) = self.refused.get_mut(fault.number() as usize) {
                    count.add();
                }
            }
        }
    }

    fn front(&mut self, front: &Front) {
        if front.forbidden {
            self.forbidden.add();
        } else {
            self.not_forbidden.add();
        }
        if front.negative {
            self.negative.add();
        } else {
            self.not_negative.add();
        }
    }

    fn answer(&mut self, before: bool, after: bool) {
        if before {
            self.stopped.add();
        } else if after {
            self.barred.add();
        } else {
            self.done.add();
        }
    }

    /// A list on which all agreed.
    pub fn list(&mut self, found: &[Front]) {
        self.lists.add();
        for (k, front) in found.iter().enumerate() {
            self.front(front);
            if k > 0 {
                self.answer(forbidden_at(found, k - 1), front.forbidden);
            }
        }
    }

    // The numbers with which none was refused are left out.
    fn print_verdicts(&self, rt: &HostRuntime) -> io::Result<()> {
        println!(rt; "  accepted: {}", self.accepted)?;
        for (number, many) in self.refused.iter().enumerate() {
            if many.0 > 0 {
                println!(rt; "  refused {number}: {many}")?;
            }
        }
        Ok(())
    }

    fn print_lists(&self, rt: &HostRuntime) -> io::Result<()> {
        println!(rt; "  lists on which all agreed: {}", self.lists)?;
        println!(rt;
            "  their front parts, forbidden: {}, not forbidden: {}",
            self.forbidden, self.not_forbidden
        )?;
        println!(rt;
            "  their front parts, negative traces: {}, others: {}",
            self.negative, self.not_negative
        )
    }

    fn print_answers(&self, rt: &HostRuntime) -> io::Result<()> {
        println!(rt;
            "  answers of gates, done: {}, barred: {}, stopped earlier: {}",
            self.done, self.barred, self.stopped
        )
    }

    pub fn print(&self, rt: &HostRuntime) -> io::Result<()> {
        self.print_verdicts(rt)?;
        self.print_lists(rt)?;
        self.print_answers(rt)
    }
}
