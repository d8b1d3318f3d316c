// The rules of a diagram, each over all of it.
ghost use Rattle.std.specs.Prelude.{◌≡◌, ℕ, ◌+◌, ◌<◌, ◌≤◌, not, ◌&&◌, ◌||◌, ◌==◌, length, position, count_by, sum_by};
ghost use Rattle.std.specs.List.{enumerate_from};
ghost use Rattle.sheet.specs.Forbid.{fragment};
ghost use Rattle.sheet.specs.Laws.{Earlier};
ghost use Rattle.sheet.specs.Rules.{
  header_check,
  term_fits,
  guard_fits,
  change_fits,
  step_fits,
  fits as fragment_fits,
  ranges_check,
  names_late,
  names,
  tree_check,
  is_step as step_there,
  steps_check,
  empty_check,
};

use crate::diagram::{Diagram, Fragment};
use crate::headed::Headed;
use crate::judge::header_fits;
use crate::step::{Change, Guard, Step, Term};
use action::deed::{HIGHEST_ADDRESS, HIGHEST_ARGUMENT};
use action::kind::HIGHEST_KIND;
use fault::fault::Fault;

pub(crate) fn check_header(d: &Diagram) -> Result<(), Fault>
    ensures { result ≡ header_check d.now }
{
    if header_fits(d.count, d.steps, d.start) {
        Ok(())
    } else {
        Err(Fault::SheetHeader)
    }
}

fn term_in_range(t: Term) -> bool
    ensures { result ≡ term_fits t }
{
    match t {
        Term::Number(n) => n <= HIGHEST_ARGUMENT,
        _ => true,
    }
}

fn guard_in_range(guard: Option<Guard>) -> bool
    ensures { result ≡ guard_fits guard }
{
    guard.is_none_or(|g| term_in_range(g.left) && term_in_range(g.right))
}

fn change_in_range(change: Option<Change>) -> bool
    ensures { result ≡ change_fits change }
{
    change.is_none_or(|c| term_in_range(c.source) && c.add <= HIGHEST_ARGUMENT)
}

fn step_in_range(s: Step) -> bool
    ensures { result ≡ step_fits s }
{
    s.address <= HIGHEST_ADDRESS
        && s.signal <= HIGHEST_KIND
        && guard_in_range(s.guard)
        && change_in_range(s.change)
}

fn in_range(f: Fragment) -> bool
    ensures { result ≡ fragment_fits f }
{
    match f {
        Fragment::Step(s) => step_in_range(s),
        _ => true,
    }
}

fn names_later(f: Fragment, i: usize) -> bool
    ensures { result ≡ names_late f i }
{
    match f {
        Fragment::Skip | Fragment::Step(_) => false,
        Fragment::Seq(l, r) | Fragment::Alt(l, r) => i <= l || i <= r,
        Fragment::Loop(b) | Fragment::Neg(b) => i <= b,
    }
}

fn times_in(f: Fragment, part: usize) -> usize
    ensures is { result ≡ names f part }
    ensures most { result ≤ 2 }
{
    match f {
        Fragment::Skip | Fragment::Step(_) => 0,
        Fragment::Seq(l, r) | Fragment::Alt(l, r) => usize::from(part == l)
            + usize::from(part == r),
        Fragment::Loop(b) | Fragment::Neg(b) => usize::from(part == b),
    }
}

fn is_step(f: Fragment) -> bool
    ensures { result ≡ step_there f }
{
    matches!(f, Fragment::Step(_))
}

fn first_outside(fragments: &[Fragment]) -> Option<usize>
    ensures { result ≡ position (λ f. not (fragment_fits f)) fragments.now }
{
    fragments.iter().position(|f| !in_range(*f))
}

fn times_named(fragments: &[Fragment], part: usize) -> usize
    ensures { result ≡ sum_by (λ f. names f part) fragments.now }
{
    fragments.iter().map(|f| times_in(*f, part)).sum()
}

// The first that names a part not earlier than itself, or is not the last and is not named exactly once.
fn first_misplaced(fragments: &[Fragment]) -> Option<usize>
    ensures { result ≡ position
        (λ q. names_late q.1 q.0 || (not (q.0 + 1 == length fragments.now) && not (sum_by (λ f. names f q.0) fragments.now == 1)))
        (enumerate_from 0 fragments.now) }
{
    fragments.iter().enumerate().position(|(i, f)| names_later(*f, i)
        || (i + 1 != fragments.len() && times_named(fragments, i) != 1))
}

fn count_steps(fragments: &[Fragment]) -> usize
    ensures { result ≡ count_by step_there fragments.now }
{
    fragments.iter().filter(|f| is_step(**f)).count()
}

impl Headed<'_> {
    // Stays: a `match` shows both outcomes; `.map(Fault::FragmentRow).map_or(Ok(()), Err)` hides which is which.
    pub(crate) fn check_ranges(&self) -> Result<(), Fault>
        ensures { result ≡ ranges_check self.now.diagram.now }
    {
        match first_outside(self.fragments()) {
            Some(i) => Err(Fault::FragmentRow(i)),
            None => Ok(()),
        }
    }

    pub(crate) fn check_tree(&self) -> Result<(), Fault>
        ensures { result ≡ tree_check self.now.diagram.now }
    {
        match first_misplaced(self.fragments()) {
            Some(i) => Err(Fault::FragmentTree(i)),
            None => Ok(()),
        }
    }

    pub(crate) fn check_steps(&self) -> Result<(), Fault>
        ensures { result ≡ steps_check self.now.diagram.now }
    {
        if count_steps(self.fragments()) == self.diagram.steps {
            Ok(())
        } else {
            Err(Fault::StepCount)
        }
    }

    pub(crate) fn check_empty(&self) -> Result<(), Fault>
        requires { (j : ℕ) → j < self.now.diagram.now.count → Earlier (fragment self.now.diagram.now j) j }
        ensures { result ≡ empty_check self.now.diagram.now }
    {
        let whole = self.emptiness(self.diagram.count - 1);
        if whole.marked {
            Err(Fault::EmptyNegative)
        } else {
            Ok(())
        }
    }
}
