//! What a diagram forbids, decided by trying everything, straight from the rules.
ghost use Rattle.std.specs.Prelude.{◌<◌, ◌≤◌};

use crate::ends::{Ends, Pairs};
use action::deed::Deed;
use sheet::diagram::{Diagram, Fragment, Variables};
use sheet::step::{Comparison, Step, Term, Variable};
use std::alloc::{AllocError, Global};

// Over six deeds more rounds of a loop add nothing: a round takes a deed or at most marks, and marking once is enough.
const MOST_ROUNDS: usize = 8;

// Stays: as in the machine, since a program that is set beside it shares none of its code.
fn is_true(comparison: Comparison, left: u8, right: u8) -> bool {
    match comparison {
        Comparison::Equal => left == right,
        Comparison::Unequal => left != right,
        Comparison::Less => left < right,
        Comparison::AtMost => left <= right,
        Comparison::Greater => left > right,
        Comparison::AtLeast => left >= right,
    }
}

// A step that meets a deed.
#[derive(Clone, Copy)]
struct Meeting {
    step: Step,
    deed: Deed,
}

impl Meeting {
    fn value(self, t: Term, v: Variables) -> u8 {
        match t {
            Term::Number(n) => n,
            Term::X => v.x,
            Term::Y => v.y,
            Term::First => self.deed.first(),
            Term::Second => self.deed.second(),
        }
    }

    // Whether the step asks for the deed.
    fn asked(self, v: Variables) -> bool {
        let compared = self.step.guard.is_none_or(|g| {
            is_true(g.comparison, self.value(g.left, v), self.value(g.right, v))
        });
        compared
            && self.deed.address() == self.step.address
            && self.deed.signal() == self.step.signal
    }

    // The variables after the change; none where the sum exceeds 15.
    fn changed(self, v: Variables) -> Option<Variables> {
        let Some(change) = self.step.change else {
            return Some(v);
        };
        let sum = self.value(change.source, v).saturating_add(change.add);
        if sum > 15 {
            return None;
        }
        match change.target {
            Variable::X => Some(Variables { x: sum, y: v.y }),
            Variable::Y => Some(Variables { x: v.x, y: sum }),
        }
    }

    // Where the step leads from any of the pairs.
    fn stepped(self, from: &Pairs) -> Pairs {
        let mut ends = Pairs::none();
        // Stays: one number for both variables, so that one loop goes over the pairs.
        for i in 0..=255u8 {
            let v = Variables {
                x: i / 16,
                y: i % 16,
            };
            if from.has(v) && self.asked(v) {
                if let Some(u) = self.changed(v) {
                    ends.add(u);
                }
            }
        }
        ends
    }
}

// Runs of a diagram's fragments that begin at any of `from` and go over exactly these deeds.
#[derive(Clone, Copy)]
struct Runs<'a> {
    diagram: &'a Diagram,
    from: &'a Ends,
    deeds: &'a [Deed],
}

impl<'a> Runs<'a> {
    // The same begun at other ends.
    fn begun_at(self, from: &'a Ends) -> Runs<'a> {
        Runs { from, ..self }
    }

    // The same over other deeds.
    fn over(self, deeds: &'a [Deed]) -> Runs<'a> {
        Runs { deeds, ..self }
    }

    // The ends of a step.
    fn step(self, step: Step) -> Ends {
        let [deed] = self.deeds else {
            return Ends::none();
        };
        let meeting = Meeting { step, deed: *deed };
        Ends {
            plain: meeting.stepped(&self.from.plain),
            marked: meeting.stepped(&self.from.marked),
        }
    }

    // The ends of a skip: it takes no deed.
    fn skip(self) -> Ends {
        if self.deeds.is_empty() {
            *self.from
        } else {
            Ends::none()
        }
    }

    // The ends of the runs of one part and then another, over every way to split the deeds.
    #[cycle(running)]
    fn seq(self, l: usize, r: usize) -> Ends {
        let mut ends = Ends::none();
        // Stays: no method of a slice gives each way to split it, so the lengths of its front parts are counted: `split_at(k)`.
        for k in 0..=self.deeds.len() {
            let (first, later) = self.deeds.split_at(k);
            let middle = self.over(first).fragment(l);
            ends.join(&self.begun_at(&middle).over(later).fragment(r));
        }
        ends
    }

    #[cycle(running)]
    fn alt(self, l: usize, r: usize) -> Ends {
        let mut ends = self.fragment(l);
        ends.join(&self.fragment(r));
        ends
    }

    // The ends of at most so many rounds of a body, over every way to split the deeds; a round without deeds only if it adds ends.
    #[cycle(running)]
    fn rounds(self, b: usize, most: usize) -> Ends
        requires { most ≤ 8 }
    {
        let mut ends = self.skip();
        if most == 0 {
            return ends;
        }
        // Stays: as in `seq`, the lengths of the front parts are counted.
        for k in 0..=self.deeds.len() {
            let (first, later) = self.deeds.split_at(k);
            let round = self.over(first).fragment(b);
            let news = !round.is_empty() && (k > 0 || !round.within(self.from));
            if news {
                ends.join(&self.begun_at(&round).over(later).rounds(b, most - 1));
            }
        }
        ends
    }

    // The ends of the runs of a fragment. A part has to stand earlier.
    #[cycle(running)]
    fn fragment(self, i: usize) -> Ends {
        if i >= 64 || self.from.is_empty() {
            return Ends::none();
        }
        match self.diagram.fragments[i] {
            Fragment::Skip => self.skip(),
            Fragment::Step(step) => self.step(step),
            Fragment::Seq(l, r) if l < i && r < i => self.seq(l, r),
            Fragment::Alt(l, r) if l < i && r < i => self.alt(l, r),
            Fragment::Loop(b) if b < i => self.rounds(b, MOST_ROUNDS),
            Fragment::Neg(b) if b < i => self.fragment(b).negated(),
            _ => Ends::none(),
        }
    }
}

/// Whether the deeds are a negative trace: those of a marked run of the whole from the starts.
pub fn negative(d: &Diagram, deeds: &[Deed]) -> bool {
    if d.count == 0 {
        return false;
    }
    let whole = Runs {
        diagram: d,
        from: &Ends::start(d.start),
        deeds,
    };
    let ends = whole.fragment(d.count - 1);
    !ends.marked.within(&Pairs::none())
}

// Whether the kept deeds, followed by some of the others, are a negative trace.
fn some_negative(d: &Diagram, kept: &mut Vec<Deed>, others: &[Deed]) -> Result<bool, AllocError> {
    let [first, later @ ..] = others else {
        return Ok(negative(d, kept.as_slice()));
    };
    if some_negative(d, kept, later)? {
        return Ok(true);
    }
    kept.push(*first)?;
    let answer = some_negative(d, kept, later)?;
    let _ = kept.pop();
    Ok(answer)
}

/// Whether some sub-trace of the deeds is a negative trace.
pub fn forbidden(heap: Global, d: &Diagram, deeds: &[Deed]) -> Result<bool, AllocError> {
    let mut kept = Vec::new(heap);
    some_negative(d, &mut kept, deeds)
}
