// One step, one deed, one pair of x and y.
ghost use Rattle.std.specs.Prelude.{◌≡◌, Decides};
ghost use Rattle.sheet.specs.Meaning.{value, Holds, Passes, Puts, Changes, Takes};
ghost use Rattle.machine.specs.Firing.{Finds, Suits};

use action::deed::Deed;
use sheet::diagram::{Fragment, Variables};
use sheet::step::{Comparison, Step, Term, Variable};

fn holds(comparison: Comparison, a: u8, b: u8) -> bool
    ensures { Decides result (Holds comparison a b) }
{
    match comparison {
        Comparison::Equal => a == b,
        Comparison::Unequal => a != b,
        Comparison::Less => a < b,
        Comparison::AtMost => a <= b,
        Comparison::Greater => a > b,
        Comparison::AtLeast => a >= b,
    }
}

fn put(target: Variable, n: u16, v: Variables) -> Option<Variables>
    ensures { Finds (λ u. Puts target n v u) result }
{
    if n > 15 {
        return None;
    }
    match target {
        Variable::X => Some(Variables { x: n as u8, y: v.y }),
        Variable::Y => Some(Variables { x: v.x, y: n as u8 }),
    }
}

// A step and a deed that it suits.
#[derive(Clone, Copy)]
pub(crate) struct Firing {
    pub(crate) step: Step,
    pub(crate) deed: Deed,
    ghost suits: { Suits step deed },
}

impl Firing {
    ghost use Rattle.machine.specs.Suited.{Suited};

    // The fragment as a step, where it suits the deed.
    pub(crate) fn of(f: Fragment, d: Deed) -> Option<Firing>
        ensures { Suited f d result }
    {
        match f {
            Fragment::Step(step) if d.address() == step.address && d.signal() == step.signal => {
                Some(Firing { step, deed: d })
            }
            _ => None,
        }
    }

    // What a term says at v.
    fn value_of(self, t: Term, v: Variables) -> u8
        ensures { result ≡ value t v self.deed }
    {
        // Read before the branches: where each of them reads it, the loop over pairs is slower.
        let deed = self.deed;
        match t {
            Term::Number(n) => n,
            Term::X => v.x,
            Term::Y => v.y,
            Term::First => deed.first(),
            Term::Second => deed.second(),
        }
    }

    // Whether the step's guard passes at v.
    fn passes(self, v: Variables) -> bool
        ensures { Decides result (Passes self.step.guard v self.deed) }
    {
        match self.step.guard {
            Some(g) => holds(
                g.comparison,
                self.value_of(g.left, v),
                self.value_of(g.right, v),
            ),
            None => true,
        }
    }

    // What the step's change leads to from v.
    fn changed(self, v: Variables) -> Option<Variables>
        ensures { Finds (λ u. Changes self.step.change v self.deed u) result }
    {
        match self.step.change {
            Some(c) => put(
                c.target,
                self.value_of(c.source, v) as u16 + c.add as u16,
                v,
            ),
            None => Some(v),
        }
    }

    // The variables after the deed, where the step takes it.
    pub(crate) fn fire(self, v: Variables) -> Option<Variables>
        ensures { Finds (λ u. Takes self.step v self.deed u) result }
    {
        if self.passes(v) {
            self.changed(v)
        } else {
            None
        }
    }
}
