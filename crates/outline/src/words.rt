//! The words of a fragment.
ghost use Rattle.std.specs.Prelude.{Some};
ghost use Rattle.outline.specs.Words.{term, comparison, guard, variable, change, step, fragment};

use sheet::diagram::Fragment;
use sheet::step::{Change, Comparison, Guard, Step, Term, Variable};
use std::fmt;

/// A piece of a sheet, to be shown in words.
#[derive(Clone, Copy)]
pub struct InWords<T>(pub T);

impl fmt::Display for InWords<Term> {
    ghost output = { λ w. Some (term w.0) };

    fn fmt<W: fmt::Write>(&self, f: &mut fmt::Formatter<W>) -> fmt::Result {
        match self.0 {
            Term::Number(n) => write!(f, "{n}"),
            Term::X => write!(f, "x"),
            Term::Y => write!(f, "y"),
            Term::First => write!(f, "first argument"),
            Term::Second => write!(f, "second argument"),
        }
    }
}

impl fmt::Display for InWords<Comparison> {
    ghost output = { λ w. Some (comparison w.0) };

    fn fmt<W: fmt::Write>(&self, f: &mut fmt::Formatter<W>) -> fmt::Result {
        match self.0 {
            Comparison::Equal => write!(f, "equal to"),
            Comparison::Unequal => write!(f, "unequal to"),
            Comparison::Less => write!(f, "less than"),
            Comparison::AtMost => write!(f, "at most"),
            Comparison::Greater => write!(f, "greater than"),
            Comparison::AtLeast => write!(f, "at least"),
        }
    }
}

impl fmt::Display for InWords<Guard> {
    ghost output = { λ w. Some (guard w.0) };

    fn fmt<W: fmt::Write>(&self, f: &mut fmt::Formatter<W>) -> fmt::Result {
        let left = InWords(self.0.left);
        let comparison = InWords(self.0.comparison);
        let right = InWords(self.0.right);
        write!(f, "if {left} {comparison} {right}")
    }
}

impl fmt::Display for InWords<Variable> {
    ghost output = { λ w. Some (variable w.0) };

    fn fmt<W: fmt::Write>(&self, f: &mut fmt::Formatter<W>) -> fmt::Result {
        match self.0 {
            Variable::X => write!(f, "x"),
            Variable::Y => write!(f, "y"),
        }
    }
}

impl fmt::Display for InWords<Change> {
    ghost output = { λ w. Some (change w.0) };

    fn fmt<W: fmt::Write>(&self, f: &mut fmt::Formatter<W>) -> fmt::Result {
        let target = InWords(self.0.target);
        let source = InWords(self.0.source);
        let add = self.0.add;
        if add == 0 {
            write!(f, "{target} becomes {source}")
        } else {
            write!(f, "{target} becomes {source} + {add}")
        }
    }
}

impl fmt::Display for InWords<Step> {
    ghost output = { λ w. Some (step w.0) };

    fn fmt<W: fmt::Write>(&self, f: &mut fmt::Formatter<W>) -> fmt::Result {
        let address = self.0.address;
        let signal = self.0.signal;
        match (self.0.guard, self.0.change) {
            (None, None) => write!(f, "step to partner {address}, signal {signal}"),
            (Some(g), None) => {
                let guard = InWords(g);
                write!(f, "step to partner {address}, signal {signal}, {guard}")
            }
            (None, Some(c)) => {
                let change = InWords(c);
                write!(f, "step to partner {address}, signal {signal}, {change}")
            }
            (Some(g), Some(c)) => {
                let guard = InWords(g);
                let change = InWords(c);
                write!(
                    f,
                    "step to partner {address}, signal {signal}, {guard}, {change}"
                )
            }
        }
    }
}

impl fmt::Display for InWords<Fragment> {
    ghost output = { λ w. Some (fragment w.0) };

    fn fmt<W: fmt::Write>(&self, f: &mut fmt::Formatter<W>) -> fmt::Result {
        match self.0 {
            Fragment::Skip => write!(f, "skip"),
            Fragment::Step(s) => {
                let step = InWords(s);
                write!(f, "{step}")
            }
            Fragment::Seq(_, _) => write!(f, "seq"),
            Fragment::Alt(_, _) => write!(f, "alt"),
            Fragment::Loop(_) => write!(f, "loop"),
            Fragment::Neg(_) => write!(f, "neg"),
        }
    }
}
