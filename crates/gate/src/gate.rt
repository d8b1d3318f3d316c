ghost use Rattle.std.specs.Prelude.{◌≡◌, min, false, map, length, take, drop};
ghost use Rattle.gate.specs.Words.{number, answer, told, said};
ghost use Rattle.gate.specs.Ledger.{done_of};
ghost use Rattle.gate.specs.Chains.{guarding, Asked, Chain};
ghost use Rattle.gate.specs.Promise.{RepliesAsLedger, BarsAndDoesExactly, CarriesDone};

use crate::answer::Answer;
use crate::ask::{Ask, Reply};
use crate::closed::Closed;
use action::action::Action;
use fault::fault::Fault;
use host::host::Host;
use host::outcome::Outcome;
use watch::watch::Watch;

/// Stands between a script and its host. What its watch bars is not done, and stops it for good.
#[derive(Drop)]
pub struct Gate<W, H> {
    watch: W,
    host: H,
    // Stays: a fact beside the host and no state of it: a stopped gate still counts and gives the host back.
    stopped: bool,
}

impl<W: Watch, H: Host<Act = W::Act>> Gate<W, H> {
    /// Opens a gate. It is not stopped.
    pub fn open(watch: W, host: H) -> Gate<W, H>
        ensures { result ≡ record { watch = watch; host = host; stopped = false } }
    {
        Gate {
            watch,
            host,
            stopped: false,
        }
    }

    /// Has the host do an action, unless the gate is stopped, the watch bars it or the host cannot.
    pub fn submit(&mut self, a: &W::Act) -> Answer
        ensures { Asked (guarding W.Watch H.Host W.Act.Action) self.old (Ask.Submit a.now) (answer (number result)) self.new }
    {
        if self.stopped {
            return Answer::Stopped;
        }
        if self.watch.bars(a) {
            self.stopped = true;
            return Answer::Barred;
        }
        match self.host.perform(a) {
            Outcome::Declined => Answer::Declined,
            Outcome::Performed => {
                self.watch.note(a);
                Answer::Done
            }
        }
    }

    /// What `submit` would answer.
    pub fn query(&self, a: &W::Act) -> Answer
        ensures { Asked (guarding W.Watch H.Host W.Act.Action) self.now (Ask.Query a.now) (answer (number result)) self.now }
    {
        if self.stopped {
            Answer::Stopped
        } else if self.watch.bars(a) {
            Answer::Barred
        } else if self.host.able(a) {
            Answer::Done
        } else {
            Answer::Declined
        }
    }

    /// The host's count of a kind, or refusal 13.
    // Stays: any number may be asked about, as at a host.
    pub fn count(&self, kind: u8) -> Result<u64, Fault>
        ensures { Asked (guarding W.Watch H.Host W.Act.Action) self.now (Ask.Count kind) (told result) self.now }
    {
        self.host.count(kind)
    }

    // Replies to one ask.
    fn reply(&mut self, ask: &Ask<W::Act>) -> Reply
        ensures { Asked (guarding W.Watch H.Host W.Act.Action) self.old ask.now (said result) self.new }
    {
        match ask {
            Ask::Submit(a) => Reply::Answered(self.submit(a)),
            Ask::Query(a) => Reply::Answered(self.query(a)),
            Ask::Count(kind) => Reply::Counted(self.count(*kind)),
        }
    }

    /// Replies to each of `asks` in turn, as long as there is a place for the reply; says to how many.
    // Stays: six clauses, since those who rest on them cite each by its name; `run` and the calls over what is lent promise them again.
    pub fn serve(&mut self, asks: &[Ask<W::Act>], replies: &mut [Reply]) -> usize
        ensures many { result ≡ min (length asks.now) (length replies.old) }
        ensures later { drop result replies.new ≡ drop result replies.old }
        ensures chain { Chain (guarding W.Watch H.Host W.Act.Action) self.old (take result asks.now) (map said (take result replies.new)) self.new }
        ensures ledger { RepliesAsLedger (guarding W.Watch H.Host W.Act.Action) self.old (take result asks.now) (map said (take result replies.new)) self.new }
        ensures decided { BarsAndDoesExactly (W.Watch.forbids self.old.watch) (H.Host.can self.old.host) self.old.stopped (take result asks.now) (map said (take result replies.new)) }
        ensures carried { CarriesDone (guarding W.Watch H.Host W.Act.Action) self.old (done_of (take result asks.now) (map said (take result replies.new))) self.new }
    {
        let many = asks.len().min(replies.len());
        for (i, ask) in asks[..many].iter().enumerate() {
            // Stays: written by its number: where `iter_mut` is zipped with what is read, nothing is known of the slice afterwards.
            replies[i] = self.reply(ask);
        }
        many
    }

    /// Uses the gate up, and leaves its host and whether it was stopped.
    pub fn close(self) -> Closed<H>
    where
        W: Drop,
        ensures { result ≡ record { host = self.host; stopped = self.stopped } }
    {
        let Gate {
            watch,
            host,
            stopped,
        } = self;
        drop(watch);
        Closed::new(host, stopped)
    }
}
