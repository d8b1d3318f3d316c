// The mark bytes of one step.
ghost use Rattle.std.specs.Prelude.{◌≡◌, ℕ, ◌<◌, Bool, true, ◌&&◌, T, ◌⊎◌, ◌↔◌, Decides};
ghost use Rattle.sheet.specs.Empties.{has, both, must};
ghost use Rattle.sheet.specs.Meaning.{Takes};
ghost use Rattle.followers.specs.Words.{bit};
ghost use Rattle.machine.specs.Pairs.{marks_of, place, seen, may, Reached};

use crate::fire::Firing;
use sheet::diagram::Variables;
use sheet::marks::Marks;

// The place of a pair among 256.
pub(crate) fn place(v: Variables) -> usize
    ensures { result ≡ place v }
{
    v.x as usize * 16 + v.y as usize
}

fn when(on: bool, b: u8) -> u8
    ensures { (p : ℕ) → bit result p ≡ on && bit b p }
{
    if on { b } else { 0 }
}

fn only_marked(b: u8) -> u8
    ensures { marks_of result ≡ must (marks_of b) }
{
    if b % 4 != 0 { 2 } else { 0 }
}

// The marks of b carried on to what follows with the marks `next`.
fn carry(b: u8, next: Marks) -> u8
    ensures { marks_of result ≡ both (marks_of b) next }
{
    when(next.plain, b) | when(next.marked, only_marked(b))
}

impl Firing {
    // Adds the marks b where the step takes the deed from v.
    fn land(self, v: Variables, b: u8, reached: &mut [u8; 256])
        requires { (v.x < 16) × (v.y < 16) }
        ensures { (w : Variables) (m : Bool) → T (has (seen reached.new w) m) ↔ (T (has (seen reached.old w) m) ⊎ (T (has (marks_of b) m) × Takes self.step v self.deed w)) }
    {
        if b == 0 {
            return;
        }
        if let Some(u) = self.fire(v) {
            reached[place(u)] |= b;
        }
    }

    // The pairs that the step, of the fragment p, reaches on the deed from those at which it may be taken, with their marks.
    pub(crate) fn reached(self, marks: &[u8; 16384], p: usize) -> [u8; 256]
        requires { p < 64 }
        ensures { (u : Variables) (m : Bool) → T (has (seen result u) m) ↔ Reached (may marks.now p) self.step self.deed u m }
    {
        let mut reached = [0; 256];
        for (i, b) in marks[p * 256..p * 256 + 256].iter().enumerate() {
            let v = Variables {
                x: (i / 16) as u8,
                y: (i % 16) as u8,
            };
            self.land(v, *b, &mut reached);
        }
        reached
    }
}

// Adds what is reached to the marks of the step q, which follows with the marks `next`.
pub(crate) fn spread(reached: &[u8; 256], q: usize, next: Marks, marks: &mut [u8; 16384])
    requires { q < 64 }
    ensures { (j : ℕ) (u : Variables) (m : Bool) → T (has (may marks.new j u) m) ↔ (T (has (may marks.old j u) m) ⊎ ((j ≡ q) × T (has (both (seen reached.now u) next) m))) }
{
    if !next.plain && !next.marked {
        return;
    }
    for (i, b) in reached.iter().enumerate() {
        // Stays: written by its number, as where `iter_mut` is zipped nothing is known of the slice afterwards.
        marks[q * 256 + i] |= carry(*b, next);
    }
}

// Whether some pair is reached from which the end follows, marked, the end following with the marks `next`.
pub(crate) fn ends_at(reached: &[u8; 256], next: Marks) -> bool
    ensures { Decides result ((u : Variables) × T (has (both (seen reached.now u) next) true)) }
{
    if !next.plain && !next.marked {
        return false;
    }
    // Stays: no `any`, which is slower over these bytes.
    for b in reached {
        if carry(*b, next) / 2 % 2 == 1 {
            return true;
        }
    }
    false
}
