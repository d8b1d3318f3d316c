ghost use Rattle.std.specs.Prelude.{◌≡◌, set as set_at};
ghost use Rattle.watch.specs.Sets.{with_kind};
ghost use Rattle.watch.specs.Orders.{NewOrder, Tabled, row, bars_kind as barred_kind, barred_after, order_forbids};
ghost use Rattle.watch.specs.Leaving.{order_leaves};

use crate::kinds::Kinds;
use crate::watch::Watch;
use action::action::Action;
use action::kind::Kind;
use fault::fault::Fault;
use std::marker::PhantomData;

/// Forbids actions of some kinds after actions of others.
#[derive(Drop)]
pub struct Order<T> {
    // for each kind the set of those that may not follow it
    after: [Kinds; 32],
    // the set of those that may not come any more; `None` once such a one came
    barred: Option<Kinds>,
    of: PhantomData<T>,
}

impl<T: Action> Order<T> {
    /// Forbids lists in which an action of a pair's first kind is followed, with or without gaps, by one of its second;
    /// or refusal 13.
    // Stays: any numbers may be given, and refusal 13 says which name no kind.
    pub fn new(pairs: &[(u8, u8)]) -> Result<Order<T>, Fault>
        ensures { NewOrder T.Action.kind pairs.now result }
    {
        Ok(Order {
            after: tabled(pairs)?,
            barred: Some(Kinds::NONE),
            of: PhantomData,
        })
    }

    fn bars_kind(&self, kind: Kind) -> bool
        ensures { result ≡ barred_kind self.now.barred kind.value }
    {
        match self.barred {
            None => true,
            Some(barred) => barred.has(kind),
        }
    }

    fn note_kind(&mut self, kind: Kind)
        ensures after { self.new.after ≡ self.old.after }
        ensures barred { self.new.barred ≡ barred_after self.old.barred (row self.old.after kind.value) kind.value }
    {
        // Written in every case: where a broken order is left alone, a loop of notes takes more than twice as long.
        self.barred = match self.barred {
            Some(barred) if !barred.has(kind) => Some(barred.or(self.after[kind.value() as usize])),
            _ => None,
        };
    }
}

impl<T: Action> Watch for Order<T> {
    type Act = T;

    ghost forbids = { order_forbids T.Action.kind };

    ghost leaving = { λ w. order_leaves T.Action.kind w };

    fn broken(&self) -> bool {
        self.barred.is_none()
    }

    fn bars(&self, a: &T) -> bool {
        self.bars_kind(a.kind())
    }

    fn note(&mut self, a: &T) {
        self.note_kind(a.kind());
    }
}

// The table of pairs of kinds.
fn tabled(pairs: &[(u8, u8)]) -> Result<[Kinds; 32], Fault>
    ensures { Tabled pairs.now result }
{
    let mut after = [Kinds::NONE; 32];
    for pair in pairs {
        let first = Kind::try_from(pair.0)?;
        let second = Kind::try_from(pair.1)?;
        add(&mut after, first, second);
    }
    Ok(after)
}

// One pair more.
fn add(after: &mut [Kinds; 32], first: Kind, second: Kind)
    ensures { after.new ≡ set_at after.old first.value (with_kind (row after.old first.value) second.value) }
{
    let at = first.value() as usize;
    after[at] = after[at].with(second);
}
