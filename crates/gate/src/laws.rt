//! What holds of gates and ledgers in general.
ghost use Rattle.std.specs.Prelude.{◌≡◌, ℕ, List};
ghost use Rattle.watch.specs.Meaning.{Alike};
ghost use Rattle.gate.specs.Words.{Word};
ghost use Rattle.gate.specs.Chains.{guarding, known, Mix};
ghost use Rattle.gate.specs.Promise.{Kept, SameLedgers, Compose};

use crate::ask::Ask;
use crate::gate::Gate;
use action::action::Action;
use host::host::Host;
use watch::watch::Watch;

/// Single calls and runs, in any mix, keep the promise from the gate at which they begin, a fresh one among them.
pub fn calls_keep<W: Watch, H: Host<Act = W::Act>>()
    ensures { (g h : Gate W H) (qs : List (Ask W.Act)) (ws : List Word) → Mix (guarding W.Watch H.Host W.Act.Action) g qs ws h → Kept (guarding W.Watch H.Host W.Act.Action) g qs ws h }
{}

/// Ledger runs one after another are one run.
pub fn ledgers_compose<W: Watch, H: Host<Act = W::Act>>()
    ensures { (w : W) (h : H) → Compose (known (guarding W.Watch H.Host W.Act.Action) w h) }
{}

/// Two ledgers that know the same lists and counts give the same replies, done actions and stop.
pub fn ledgers_agree<
    W: Watch,
    H: Host<Act = W::Act>,
    V: Watch<Act = W::Act>,
    K: Host<Act = W::Act>,
>()
    ensures { (w : W) (h : H) (v : V) (k : K) → Alike (W.Watch.forbids w) (V.Watch.forbids v) → Alike (H.Host.can h) (K.Host.can k) → ((i : ℕ) → H.Host.counts h i ≡ K.Host.counts k i) → SameLedgers (known (guarding W.Watch H.Host W.Act.Action) w h) (known (guarding V.Watch K.Host W.Act.Action) v k) }
{}
