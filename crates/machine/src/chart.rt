//! A sheet made ready to go through deeds.
ghost use Rattle.std.specs.Prelude.{◌≡◌, ℕ, Bool, T, ◌↔◌, Decides};
ghost use Rattle.sheet.specs.Empties.{has};
ghost use Rattle.sheet.specs.Forbid.{fragment};
ghost use Rattle.followers.specs.Next.{at};
ghost use Rattle.followers.specs.Followers.{begin_of, next_after};
ghost use Rattle.machine.specs.Pairs.{may};
ghost use Rattle.machine.specs.Charts.{kinds_of, follows_of};
ghost use Rattle.machine.specs.Going.{Ends, Adds};

use crate::bytes::{ends_at, place};
use crate::fire::Firing;
use crate::moves::{end_marks, spread_all};
use action::deed::Deed;
use followers::follow::{after_fragment, begin};
use followers::sets::NextSet;
use sheet::diagram::{Fragment, Variables};
use sheet::sheet::Sheet;
use std::array;

/// The fragments of a sheet, and what may come after each.
#[derive(Clone, Copy)]
pub struct Chart {
    // Stays: two arrays, since the search for a step that suits, over one array of pairs, reads more memory and takes longer.
    fragments: [Fragment; 64],
    follow: [NextSet; 64],
}

impl Chart {
    pub fn new(sheet: &Sheet) -> Chart
        ensures kinds { kinds_of result ≡ fragment sheet.now.diagram }
        ensures follows { (p : ℕ) → follows_of result p ≡ next_after (fragment sheet.now.diagram) sheet.now.diagram.count p }
    {
        let follow = array::from_fn(|p| after_fragment(sheet, p));
        Chart {
            fragments: sheet.diagram.fragments,
            follow,
        }
    }

    /// Whether the deed leads from the marks to a marked end.
    pub fn ends(&self, marks: &[u8; 16384], d: Deed) -> bool
        ensures { Decides result (Ends (kinds_of self.now) (follows_of self.now) (may marks.now) d) }
    {
        for (p, (f, next)) in self.fragments.iter().zip(&self.follow).enumerate() {
            if let Some(firing) = Firing::of(*f, d) {
                let there = end_marks(*next);
                let reached = firing.reached(marks, p);
                if ends_at(&reached, there) {
                    return true;
                }
            }
        }
        false
    }

    /// Adds to the marks what the deed leads to from the old ones, and answers whether it leads to a marked end.
    pub fn advance(&self, old: &[u8; 16384], d: Deed, marks: &mut [u8; 16384]) -> bool
        ensures ended { Decides result (Ends (kinds_of self.now) (follows_of self.now) (may old.now) d) }
        ensures marks { Adds (kinds_of self.now) (follows_of self.now) (may old.now) d (may marks.old) (may marks.new) }
    {
        let mut ended = false;
        for (p, (f, next)) in self.fragments.iter().zip(&self.follow).enumerate() {
            if let Some(firing) = Firing::of(*f, d) {
                let there = end_marks(*next);
                let reached = firing.reached(old, p);
                ended |= ends_at(&reached, there);
                spread_all(&reached, *next, marks);
            }
        }
        ended
    }
}

/// The marks before any deed: the steps that may come first, at the starts of x and y.
pub fn first_marks(sheet: &Sheet) -> [u8; 16384]
    ensures { (p : ℕ) (u : Variables) (m : Bool) → T (has (may result p u) m) ↔ ((u ≡ sheet.now.diagram.start) × T (has (begin_of (fragment sheet.now.diagram) sheet.now.diagram.count (at p)) m)) }
{
    let next = begin(sheet);
    let start = sheet.diagram.start;
    let mut here = [0; 256];
    here[place(start)] = 1;
    let mut marks = [0; 16384];
    spread_all(&here, next, &mut marks);
    marks
}
