//! How far a list of deeds would get.
ghost use Rattle.std.specs.Prelude.{◌≡◌, ℕ, ◌+◌, ◌<◌, ◌≤◌, length, take};
ghost use Rattle.sheet_watch.specs.Watching.{Forbidden};

use crate::watching::SheetWatch;
use action::deed::Deed;

// The marks of a watch while it rehearses; they are put back however the rehearsal ends.
struct Rehearsal<'a> {
    marks: &'a mut [u8; 16384],
    saved: [u8; 16384],
}

impl Drop for Rehearsal<'_> {
    fn drop(self)
        ensures { self.exit.0.now ≡ self.entry.saved }
    {
        *self.marks = self.saved;
        let Rehearsal { marks: _, saved: _ } = self;
    }
}

/// How many deeds precede the first that the watch would bar, or the length of the list. The watch is as it was.
pub fn rehearse(watch: &mut SheetWatch, deeds: &[Deed]) -> usize
    ensures same { watch.new ≡ watch.old }
    ensures most { result ≤ length deeds.now }
    ensures pass { (k : ℕ) → k < result → Forbidden watch.old (take (k + 1) deeds.now) → ⊥ }
    ensures barred { result < length deeds.now → Forbidden watch.old (take (result + 1) deeds.now) }
{
    let chart = watch.chart;
    let Some(marks) = &mut watch.marks else {
        return 0;
    };
    let saved = *marks;
    let guard = Rehearsal { marks, saved };
    // Stays: no `position`, since each deed changes the marks by which the next is judged.
    for (i, d) in deeds.iter().enumerate() {
        let old = *guard.marks;
        if chart.advance(&old, *d, guard.marks) {
            return i;
        }
    }
    deeds.len()
}
