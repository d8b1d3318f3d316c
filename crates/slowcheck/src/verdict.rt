//! Which sheets are refused and why, straight from the format.
use crate::slow::negative;
use fault::fault::Fault;
use sheet::diagram::{Diagram, Fragment, Variables};
use sheet::step::{Change, Comparison, Guard, Step, Term, Variable};

/// A byte; 0 past the end.
pub fn byte(bytes: &[u8], at: usize) -> u8 {
    bytes.get(at).copied().unwrap_or(0)
}

// How many fragments.
fn count(bytes: &[u8]) -> u8 {
    byte(bytes, 0)
}

// Whether the header is out of its ranges.
fn header_bad(bytes: &[u8]) -> bool {
    let n = count(bytes);
    n == 0 || n > 64 || byte(bytes, 1) > 31 || byte(bytes, 2) > 15 || byte(bytes, 3) > 15
}

// How many parts a fragment of this kind names.
// Stays: kinds and codes are bytes of the file, read here once more without the loader.
fn parts(kind: u8) -> u8 {
    match kind {
        0 | 1 => 0,
        2 | 3 => 2,
        _ => 1,
    }
}

fn term(code: u8) -> Term {
    match code {
        16 => Term::X,
        17 => Term::Y,
        18 => Term::First,
        19 => Term::Second,
        n => Term::Number(n),
    }
}

fn comparison(code: u8) -> Option<Comparison> {
    match code {
        1 => Some(Comparison::Equal),
        2 => Some(Comparison::Unequal),
        3 => Some(Comparison::Less),
        4 => Some(Comparison::AtMost),
        5 => Some(Comparison::Greater),
        6 => Some(Comparison::AtLeast),
        _ => None,
    }
}

// The kind and the row of a fragment of a sheet.
#[derive(Clone, Copy)]
struct Row<'a> {
    bytes: &'a [u8],
    index: u8,
}

impl Row<'_> {
    fn kind(self) -> u8 {
        byte(self.bytes, 4 + self.index as usize)
    }

    // Its byte j.
    fn cell(self, j: u8) -> u8 {
        let before = 4 + count(self.bytes) as usize;
        byte(self.bytes, before + 8 * self.index as usize + j as usize)
    }

    // Whether it holds anything from the byte j on.
    fn holds_from(self, j: u8) -> bool {
        (j..8).any(|at| self.cell(at) != 0)
    }

    fn guard_bad(self) -> bool {
        let highest = if self.cell(3) == 0 { 0 } else { 19 };
        self.cell(2) > highest || self.cell(3) > 6 || self.cell(4) > highest
    }

    fn change_bad(self) -> bool {
        match self.cell(5) {
            0 => self.holds_from(6),
            1 | 2 => self.cell(6) > 19 || self.cell(7) > 15,
            _ => true,
        }
    }

    fn step_bad(self) -> bool {
        self.cell(0) > 7 || self.cell(1) > 31 || self.guard_bad() || self.change_bad()
    }

    // Whether it breaks the rules of its kind.
    fn bad(self) -> bool {
        match self.kind() {
            0 => self.holds_from(0),
            1 => self.step_bad(),
            2 | 3 => self.holds_from(2),
            _ => self.holds_from(1),
        }
    }

    fn names_later(self) -> bool {
        (0..parts(self.kind())).any(|j| self.cell(j) >= self.index)
    }

    // How often it names this part.
    fn times_naming(self, part: u8) -> usize {
        (0..parts(self.kind()))
            .filter(|j| self.cell(*j) == part)
            .count()
    }

    // Whether the fragment breaks the rules of a tree: its parts stand earlier, and each but the last is named once.
    fn tree_bad(self) -> bool {
        let last = self.index.saturating_add(1) == count(self.bytes);
        self.names_later() || (!last && times_named(self.bytes, self.index) != 1)
    }

    fn guard(self) -> Option<Guard> {
        let comparison = comparison(self.cell(3))?;
        Some(Guard {
            left: term(self.cell(2)),
            comparison,
            right: term(self.cell(4)),
        })
    }

    fn change(self) -> Option<Change> {
        let target = match self.cell(5) {
            1 => Variable::X,
            2 => Variable::Y,
            _ => return None,
        };
        Some(Change {
            target,
            source: term(self.cell(6)),
            add: self.cell(7),
        })
    }

    fn step(self) -> Step {
        Step {
            address: self.cell(0),
            signal: self.cell(1),
            guard: self.guard(),
            change: self.change(),
        }
    }

    fn fragment(self) -> Fragment {
        let left = self.cell(0) as usize;
        let right = self.cell(1) as usize;
        match self.kind() {
            0 => Fragment::Skip,
            1 => Fragment::Step(self.step()),
            2 => Fragment::Seq(left, right),
            3 => Fragment::Alt(left, right),
            4 => Fragment::Loop(left),
            _ => Fragment::Neg(left),
        }
    }
}

fn times_named(bytes: &[u8], part: u8) -> usize {
    (0..count(bytes)).fold(0usize, |n, index| {
        n.saturating_add(Row { bytes, index }.times_naming(part))
    })
}

// The lowest fragment that breaks a rule.
fn lowest<'a, F: Fn(Row<'a>) -> bool>(bytes: &'a [u8], breaks: F) -> Option<usize>
    requires { F.IsAlwaysCallable breaks }
{
    (0..count(bytes))
        .map(|index| Row { bytes, index })
        .position(breaks)
}

fn steps(bytes: &[u8]) -> usize {
    (0..count(bytes))
        .map(|index| Row { bytes, index })
        .filter(|row| row.kind() == 1)
        .count()
}

/// The diagram of a sheet's bytes.
pub fn decoded(bytes: &[u8]) -> Diagram {
    let count = count(bytes).min(64);
    let mut fragments = [Fragment::Skip; 64];
    for (place, index) in fragments.iter_mut().zip(0..count) {
        *place = Row { bytes, index }.fragment();
    }
    Diagram {
        count: count as usize,
        steps: byte(bytes, 1) as usize,
        start: Variables {
            x: byte(bytes, 2),
            y: byte(bytes, 3),
        },
        fragments,
    }
}

// The rules 4 to 8.
fn fragments_verdict(bytes: &[u8]) -> Result<(), Fault> {
    if let Some(i) = lowest(bytes, |row| row.kind() > 5) {
        Err(Fault::FragmentKind(i))
    } else if let Some(i) = lowest(bytes, Row::bad) {
        Err(Fault::FragmentRow(i))
    } else if let Some(i) = lowest(bytes, Row::tree_bad) {
        Err(Fault::FragmentTree(i))
    } else if steps(bytes) != byte(bytes, 1) as usize {
        Err(Fault::StepCount)
    } else if negative(&decoded(bytes), &[]) {
        Err(Fault::EmptyNegative)
    } else {
        Ok(())
    }
}

/// The first rule that refuses the bytes, if one does.
pub fn verdict(bytes: &[u8]) -> Result<(), Fault> {
    if bytes.len() < 4 {
        Err(Fault::SheetShort)
    } else if header_bad(bytes) {
        Err(Fault::SheetHeader)
    } else if bytes.len() != 4 + 9 * count(bytes) as usize {
        Err(Fault::SheetLength)
    } else {
        fragments_verdict(bytes)
    }
}
