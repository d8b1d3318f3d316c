// Gates over what is lent, so that its owner knows what came of it.
ghost use Rattle.std.specs.Prelude.{◌≡◌, ◌≤◌, min, false, map, length, take, drop};
ghost use Rattle.host.specs.Meaning.{hosting};
ghost use Rattle.gate.specs.Words.{said};
ghost use Rattle.gate.specs.Ledger.{done_of};
ghost use Rattle.gate.specs.Chains.{guarding, known};
ghost use Rattle.gate.specs.Promise.{RepliesAsFresh, BarsAndDoesExactly, Carried};
ghost use Rattle.lending.specs.Lent.{after_done};

use action::action::Action;
use gate::ask::{Ask, Reply};
use gate::gate::Gate;
use host::host::Host;
use host::spool::Spool;
use watch::watch::Watch;

/// Opens a gate over a lent host, has it reply to `asks` as `serve` does, and lets it go.
pub fn serve_at<W: Watch + Drop, H: Host<Act = W::Act>>(
    mut watch: W,
    host: &mut H,
    asks: &[Ask<W::Act>],
    replies: &mut [Reply],
) -> usize
    ensures many { result ≡ min (length asks.now) (length replies.old) }
    ensures later { drop result replies.new ≡ drop result replies.old }
    ensures ledger { RepliesAsFresh (known (guarding W.Watch H.Host W.Act.Action) watch host.old) (take result asks.now) (map said (take result replies.new)) }
    ensures decided { BarsAndDoesExactly (W.Watch.forbids watch) (H.Host.can host.old) false (take result asks.now) (map said (take result replies.new)) }
    ensures carried { Carried (hosting H.Host W.Act.Action) host.old (done_of (take result asks.now) (map said (take result replies.new))) host.new }
{
    let mut gate = Gate::open(&mut watch, host);
    gate.serve(asks, replies)
}

/// Opens a gate over a spool on a lent list, has it reply to `asks` as `serve` does, and lets it go.
/// The list then holds the done actions, and after them what its later places held.
pub fn serve_on_list<W: Watch + Drop>(
    watch: W,
    list: &mut [W::Act],
    asks: &[Ask<W::Act>],
    replies: &mut [Reply],
) -> usize
    ensures many { result ≡ min (length asks.now) (length replies.old) }
    ensures later { drop result replies.new ≡ drop result replies.old }
    ensures ledger { RepliesAsFresh (record { forbids = W.Watch.forbids watch; can = λ l. length l ≤ length list.old; counts = λ _. 0; kind = W.Act.Action.kind }) (take result asks.now) (map said (take result replies.new)) }
    ensures decided { BarsAndDoesExactly (W.Watch.forbids watch) (λ l. length l ≤ length list.old) false (take result asks.now) (map said (take result replies.new)) }
    ensures held { list.new ≡ after_done list.old (done_of (take result asks.now) (map said (take result replies.new))) }
{
    let mut spool = Spool::new(list);
    serve_at(watch, &mut spool, asks, replies)
}
