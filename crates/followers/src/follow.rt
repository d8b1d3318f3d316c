//! First steps and followers, by recursions over the fragment's index.
ghost use Rattle.std.specs.Prelude.{◌≡◌, ◌-◌, ◌<◌, ◌≤◌};
ghost use Rattle.sheet.specs.Empties.{empty_at};
ghost use Rattle.sheet.specs.Forbid.{fragment};
ghost use Rattle.sheet.specs.Laws.{Earlier};
ghost use Rattle.followers.specs.Next.{no_next};
ghost use Rattle.followers.specs.Words.{nexts};
ghost use Rattle.followers.specs.Followers.{first_at, enter_at, again_at, follow_at, begin_of, next_after};

use crate::sets::NextSet;
use sheet::diagram::Fragment;
use sheet::marks::Marks;
use sheet::sheet::Sheet;

// A fragment of a sheet.
#[derive(Clone, Copy)]
struct Place<'a> {
    sheet: &'a Sheet,
    index: usize,
    ghost here: { index < sheet.now.diagram.count },
}

impl<'a> Place<'a> {
    fn whole(sheet: &'a Sheet) -> Place<'a>
        ensures sheet { result.sheet.now ≡ sheet.now }
        ensures index { result.index ≡ sheet.now.diagram.count - 1 }
    {
        Place {
            sheet,
            index: sheet.diagram.count - 1,
        }
    }

    fn part(self, index: usize) -> Place<'a>
        requires { index < self.index }
        ensures sheet { result.sheet.now ≡ self.entry.sheet.now }
        ensures index { result.index ≡ index }
    {
        Place {
            sheet: self.sheet,
            index,
        }
    }

    // Its parts stand earlier.
    fn kind(self) -> Fragment
        ensures is { result ≡ fragment self.entry.sheet.now.diagram self.entry.index }
        ensures earlier { Earlier result self.entry.index }
    {
        self.sheet.diagram.fragments[self.index]
    }

    fn empty_runs(self) -> Marks
        ensures { result ≡ empty_at (fragment self.entry.sheet.now.diagram) self.entry.index }
    {
        self.sheet.empty_runs(self.index)
    }

    // The steps that can come first in a run of it.
    fn first(self) -> NextSet
        ensures { nexts result ≡ first_at (fragment self.entry.sheet.now.diagram) self.entry.index }
    {
        match self.kind() {
            Fragment::Skip => NextSet::none(),
            Fragment::Step(_) => NextSet::only_step(self.index),
            Fragment::Seq(l, r) => {
                let left = self.part(l);
                let right = self.part(r);
                left.first().union(right.first().after(left.empty_runs()))
            }
            Fragment::Alt(l, r) => self.part(l).first().union(self.part(r).first()),
            Fragment::Loop(b) => self.part(b).first().after(self.empty_runs()),
            Fragment::Neg(b) => self.part(b).first(),
        }
    }

    // What comes next where it begins, `next` being what comes after it.
    fn enter(self, next: NextSet) -> NextSet
        ensures { nexts result ≡ enter_at (fragment self.entry.sheet.now.diagram) self.entry.index (nexts next) }
    {
        self.first().union(next.after(self.empty_runs()))
    }

    // What comes after a round of this loop over b.
    fn again(self, b: usize, next: NextSet) -> NextSet
        requires { b < self.index }
        ensures { nexts result ≡ again_at (fragment self.entry.sheet.now.diagram) self.entry.index b (nexts next) }
    {
        let round = next.union(self.part(b).first());
        round.after(self.empty_runs())
    }

    // What may come after the part p of it, `next` being what comes after it.
    fn followers(self, p: usize, next: NextSet) -> NextSet
        ensures { nexts result ≡ follow_at (fragment self.entry.sheet.now.diagram) p self.entry.index (nexts next) }
    {
        if p == self.index {
            return next;
        }
        match self.kind() {
            Fragment::Skip | Fragment::Step(_) => NextSet::none(),
            Fragment::Seq(l, r) => {
                let left = self.part(l);
                let right = self.part(r);
                left.followers(p, right.enter(next))
                    .union(right.followers(p, next))
            }
            Fragment::Alt(l, r) => {
                let left = self.part(l);
                let right = self.part(r);
                left.followers(p, next).union(right.followers(p, next))
            }
            Fragment::Loop(b) => self.part(b).followers(p, self.again(b, next)),
            Fragment::Neg(b) => self.part(b).followers(p, next.marked()),
        }
    }
}

/// What may come first in a run of the sheet.
pub fn begin(sheet: &Sheet) -> NextSet
    ensures { nexts result ≡ begin_of (fragment sheet.now.diagram) sheet.now.diagram.count }
{
    let end = NextSet::only_end();
    Place::whole(sheet).enter(end)
}

/// What may come after the fragment p in a run of the sheet; nothing, where there is no such fragment.
pub fn after_fragment(sheet: &Sheet, p: usize) -> NextSet
    ensures is { nexts result ≡ next_after (fragment sheet.now.diagram) sheet.now.diagram.count p }
    ensures none { sheet.now.diagram.count ≤ p → nexts result ≡ no_next }
{
    let end = NextSet::only_end();
    Place::whole(sheet).followers(p, end)
}
