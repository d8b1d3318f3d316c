ghost use Rattle.std.specs.Prelude.{◌≡◌, ◌<◌, ◌≤◌, ◌==◌, [], ◌++◌, length, take, count_by, Some, slice_set};
ghost use Rattle.host.specs.Hosting.{Begins};
ghost use Rattle.host.specs.Spools.{filled, free, Room, counted, Filled};

use crate::host::Host;
use crate::outcome::Outcome;
use action::action::Action;
use action::kind::Kind;
use fault::fault::Fault;

/// A host that fills a list of actions, lent by its owner, from the first place on.
/// What it has filled is its record; it can do any list no longer than its free places.
#[derive(Drop)]
pub struct Spool<'a, T> {
    // Stays: a place that the caller lends, and how far it is filled, since a library takes no memory of its own.
    places: &'a mut [T],
    used: usize,
}

impl<'a, T: Action> Spool<'a, T> {
    /// A spool that has filled nothing.
    pub fn new(places: &'a mut [T]) -> Spool<'a, T>
        ensures begins { Begins (Room result) (counted T.Action.kind result) (Some (filled result)) (λ l. length l ≤ length places.old) (Some []) }
        ensures later { free result ≡ places.old }
        ensures same { result.places.ghost_name ≡ places.entry.ghost_name }
    {
        Spool { places, used: 0 }
    }

    /// Hands the places back: the record first, then what the later places held.
    pub fn into_places(self) -> &'a mut [T]
        ensures held { result.now ≡ filled self.entry ++ free self.entry }
        ensures same { result.ghost_name ≡ self.entry.places.ghost_name }
    {
        let Spool { places, used: _ } = self;
        places
    }
}

// Stays: a rule of the project: a spool hands the places that it was lent to functions.
fn put<T: Action>(places: &mut [T], at: usize, a: T)
    requires { at < length places.old }
    ensures { places.new ≡ slice_set places.old at a }
{
    places[at] = a;
}

// How many of the first places hold an action of a kind.
fn count_in<T: Action>(places: &[T], used: usize, kind: Kind) -> u64
    ensures { result ≡ count_by (λ a. kind.value == T.Action.kind a) (take used places.now) }
{
    places
        .iter()
        .take(used)
        .filter(|a| kind == a.kind())
        .count() as u64
}

impl<'a, T: Action> Host for Spool<'a, T> {
    type Act = T;

    ghost can = { Room };

    ghost counts = { counted T.Action.kind };

    ghost recorded = { λ s. Some (filled s) };

    ghost did = { Filled };

    fn able(&self, _a: &T) -> bool {
        self.used < self.places.len()
    }

    fn perform(&mut self, a: &T) -> Outcome {
        let at = self.used;
        if at >= self.places.len() {
            return Outcome::Declined;
        }
        put(self.places, at, *a);
        self.used = at + 1;
        Outcome::Performed
    }

    #[tactic(auto, using(crate::proofs::Counting::tally_counts))]
    fn count(&self, kind: u8) -> Result<u64, Fault> {
        let kind = Kind::try_from(kind)?;
        Ok(count_in(self.places, self.used, kind))
    }
}
