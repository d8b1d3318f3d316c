// What the leaving-out law adds: this file, and no other of the gate, asks for it.
ghost use Rattle.std.specs.Prelude.{◌≡◌, min, false, List, map, length, take, drop};
ghost use Rattle.action.specs.Traces.{Sub};
ghost use Rattle.watch.specs.Meaning.{Alike};
ghost use Rattle.gate.specs.Words.{Word, said};
ghost use Rattle.gate.specs.Ledger.{done_of, submits};
ghost use Rattle.gate.specs.Chains.{guarding, Chain, Mix};
ghost use Rattle.gate.specs.Promise.{RepliesAsLedger, BarsAndDoesExactly, CarriesDone, RestNeverStops};

use crate::ask::{Ask, Reply};
use crate::gate::Gate;
use action::action::Action;
use host::host::Host;
use watch::watch::Watch;

impl<W: Watch, H: Host<Act = W::Act>> Gate<W, H> {
    /// Replies as `serve` does; and whichever of the done actions are left out, the rest never stops such a gate.
    pub fn run(&mut self, asks: &[Ask<W::Act>], replies: &mut [Reply]) -> usize
        ensures many { result ≡ min (length asks.now) (length replies.old) }
        ensures later { drop result replies.new ≡ drop result replies.old }
        ensures chain { Chain (guarding W.Watch H.Host W.Act.Action) self.old (take result asks.now) (map said (take result replies.new)) self.new }
        ensures ledger { RepliesAsLedger (guarding W.Watch H.Host W.Act.Action) self.old (take result asks.now) (map said (take result replies.new)) self.new }
        ensures decided { BarsAndDoesExactly (W.Watch.forbids self.old.watch) (H.Host.can self.old.host) self.old.stopped (take result asks.now) (map said (take result replies.new)) }
        ensures carried { CarriesDone (guarding W.Watch H.Host W.Act.Action) self.old (done_of (take result asks.now) (map said (take result replies.new))) self.new }
        ensures shortened { RestNeverStops (W.Watch.forbids self.old.watch) W.Act.Action.kind (done_of (take result asks.now) (map said (take result replies.new))) }
    {
        self.serve(asks, replies)
    }
}

/// Whichever of the actions that such calls have done are left out, no ledger run over the rest is stopped.
pub fn calls_leave_out<W: Watch, H: Host<Act = W::Act>>()
    ensures { (g h : Gate W H) (qs : List (Ask W.Act)) (ws : List Word) → Mix (guarding W.Watch H.Host W.Act.Action) g qs ws h → RestNeverStops (W.Watch.forbids g.watch) W.Act.Action.kind (done_of qs ws) }
{}

/// The same of gates: one that is not stopped, whose watch forbids the same lists, at any host, is not stopped by the rest.
pub fn gates_leave_out<
    W: Watch,
    H: Host<Act = W::Act>,
    V: Watch<Act = W::Act>,
    K: Host<Act = W::Act>,
>()
    ensures { (g h : Gate W H) (qs : List (Ask W.Act)) (ws : List Word) (p q : Gate V K) (rest : List W.Act) (vs : List Word) → Mix (guarding W.Watch H.Host W.Act.Action) g qs ws h → Alike (V.Watch.forbids p.watch) (W.Watch.forbids g.watch) → p.stopped ≡ false → Sub rest (done_of qs ws) → Mix (guarding V.Watch K.Host W.Act.Action) p (submits rest) vs q → q.stopped ≡ false }
{}
