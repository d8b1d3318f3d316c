//! Which marks runs can have.
ghost use Rattle.std.specs.Prelude.{◌≡◌};
ghost use Rattle.sheet.specs.Empties.{nothing, only_plain, both, either, must, any};

/// Whether some run is unmarked, and whether some run is marked.
#[derive(Clone, Copy)]
pub struct Marks {
    // Stays: two facts, of which neither says whether the other is there.
    pub plain: bool,
    pub marked: bool,
}

impl Marks {
    // No run.
    // Stays: `Marks::default()` would not say that there is none.
    pub(crate) fn nothing() -> Marks
        ensures { result ≡ nothing }
    {
        Marks {
            plain: false,
            marked: false,
        }
    }

    pub(crate) fn only_plain() -> Marks
        ensures { result ≡ only_plain }
    {
        Marks {
            plain: true,
            marked: false,
        }
    }

    // One run and then another.
    pub(crate) fn and_then(self, next: Marks) -> Marks
        ensures { result ≡ both self next }
    {
        Marks {
            plain: self.plain && next.plain,
            marked: (self.marked && (next.plain || next.marked)) || (self.plain && next.marked),
        }
    }

    // One run or another.
    pub(crate) fn or(self, other: Marks) -> Marks
        ensures { result ≡ either self other }
    {
        Marks {
            plain: self.plain || other.plain,
            marked: self.marked || other.marked,
        }
    }

    // A run, marked.
    pub(crate) fn negated(self) -> Marks
        ensures { result ≡ must self }
    {
        Marks {
            plain: false,
            marked: self.plain || self.marked,
        }
    }

    // Any number of runs, none included.
    pub(crate) fn repeated(self) -> Marks
        ensures { result ≡ any self }
    {
        Marks {
            plain: true,
            marked: self.marked,
        }
    }
}
