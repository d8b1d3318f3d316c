//! Sets of what may come next.
ghost use Rattle.std.specs.Prelude.{◌≡◌, ◌<◌, false, ◌&&◌, ◌||◌};
ghost use Rattle.followers.specs.Next.{Next, at, no_next, only_end, only_step, join, after, marked as all_marked};
ghost use Rattle.followers.specs.Words.{holds, nexts};

use sheet::marks::Marks;

/// Steps, as the bits of a word by their fragments' indices, and whether the end is among them.
#[derive(Clone, Copy)]
pub struct Targets {
    pub steps: u64,
    // Stays: one more member of the set, and no flag for the word beside it.
    pub end: bool,
}

impl Targets {
    pub(crate) fn none() -> Targets
        ensures { (t : Next) → holds result t ≡ false }
    {
        Targets {
            steps: 0,
            end: false,
        }
    }

    pub(crate) fn union(self, other: Targets) -> Targets
        ensures { (t : Next) → holds result t ≡ holds self t || holds other t }
    {
        Targets {
            steps: self.steps | other.steps,
            end: self.end | other.end,
        }
    }

    pub(crate) fn only_if(self, on: bool) -> Targets
        ensures { (t : Next) → holds result t ≡ on && holds self t }
    {
        if on { self } else { Targets::none() }
    }

    /// Whether the step at this index is among them.
    pub fn has_step(&self, p: usize) -> bool
        ensures { result ≡ holds self.now (at p) }
    {
        p < 64 && (self.steps >> p) % 2 == 1
    }
}

/// What may come next, unmarked and marked.
// Stays: a pair generic with `Marks` would share two operations alone: `after` takes `Marks`, of another type.
#[derive(Clone, Copy)]
pub struct NextSet {
    pub plain: Targets,
    pub marked: Targets,
}

impl NextSet {
    pub fn none() -> NextSet
        ensures { nexts result ≡ no_next }
    {
        let none = Targets::none();
        NextSet {
            plain: none,
            marked: none,
        }
    }

    pub(crate) fn only_end() -> NextSet
        ensures { nexts result ≡ only_end }
    {
        NextSet {
            plain: Targets {
                steps: 0,
                end: true,
            },
            marked: Targets::none(),
        }
    }

    pub(crate) fn only_step(i: usize) -> NextSet
        requires { i < 64 }
        ensures { nexts result ≡ only_step i }
    {
        NextSet {
            plain: Targets {
                steps: 1 << i,
                end: false,
            },
            marked: Targets::none(),
        }
    }

    pub(crate) fn union(self, other: NextSet) -> NextSet
        ensures { nexts result ≡ join (nexts self) (nexts other) }
    {
        NextSet {
            plain: self.plain.union(other.plain),
            marked: self.marked.union(other.marked),
        }
    }

    // After an empty run that has one of these marks.
    pub(crate) fn after(self, empty: Marks) -> NextSet
        ensures { nexts result ≡ after empty (nexts self) }
    {
        let any = self.plain.union(self.marked);
        NextSet {
            plain: self.plain.only_if(empty.plain),
            marked: any
                .only_if(empty.marked)
                .union(self.marked.only_if(empty.plain)),
        }
    }

    pub(crate) fn marked(self) -> NextSet
        ensures { nexts result ≡ all_marked (nexts self) }
    {
        NextSet {
            plain: Targets::none(),
            marked: self.plain.union(self.marked),
        }
    }
}
