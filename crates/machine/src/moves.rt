// What follows a step, spread over all steps.
ghost use Rattle.std.specs.Prelude.{◌≡◌, ℕ, Bool, T, ◌⊎◌, ◌↔◌};
ghost use Rattle.sheet.specs.Empties.{has, both};
ghost use Rattle.followers.specs.Next.{at, end};
ghost use Rattle.followers.specs.Words.{nexts};
ghost use Rattle.machine.specs.Pairs.{seen, may};

use crate::bytes::spread;
use followers::sets::NextSet;
use sheet::diagram::Variables;
use sheet::marks::Marks;

// With which marks the end may come next.
pub(crate) fn end_marks(next: NextSet) -> Marks
    ensures { result ≡ nexts next end }
{
    Marks {
        plain: next.plain.end,
        marked: next.marked.end,
    }
}

// With which marks the step q may come next.
fn step_marks(next: NextSet, q: usize) -> Marks
    ensures { result ≡ nexts next (at q) }
{
    Marks {
        plain: next.plain.has_step(q),
        marked: next.marked.has_step(q),
    }
}

// Adds what is reached to the marks of each step that follows.
pub(crate) fn spread_all(reached: &[u8; 256], next: NextSet, marks: &mut [u8; 16384])
    ensures { (j : ℕ) (u : Variables) (m : Bool) → T (has (may marks.new j u) m) ↔ (T (has (may marks.old j u) m) ⊎ T (has (both (seen reached.now u) (nexts next (at j))) m)) }
{
    // Stays: chunks of a `&mut` slice say nothing of what the slice holds once they are done with.
    for q in 0..64usize {
        let there = step_marks(next, q);
        spread(reached, q, there, marks);
    }
}
