//! Diagrams, lists of deeds and damage, drawn at random.
ghost use Rattle.std.specs.Prelude.{◌≤◌};

use crate::random::Random;
use action::deed::Deed;
use sheet::diagram::{Diagram, Fragment, Variables};
use sheet::step::{Change, Comparison, Guard, Step, Term, Variable};
use std::alloc::{AllocError, Global};

/// The most deeds of a list that is drawn.
pub const MOST_DRAWN: usize = 6;

// From 0 to 15, most often small.
fn number(random: &mut Random) -> u8 {
    random.byte_below_either(15, 16, 4)
}

fn term(random: &mut Random) -> Term {
    match random.below(6) {
        0 => Term::X,
        1 => Term::Y,
        2 => Term::First,
        3 => Term::Second,
        _ => Term::Number(number(random)),
    }
}

fn comparison(random: &mut Random) -> Comparison {
    match random.below(6) {
        0 => Comparison::Equal,
        1 => Comparison::Unequal,
        2 => Comparison::Less,
        3 => Comparison::AtMost,
        4 => Comparison::Greater,
        _ => Comparison::AtLeast,
    }
}

fn guard(random: &mut Random) -> Option<Guard> {
    if random.chance(55) {
        return None;
    }
    Some(Guard {
        left: term(random),
        comparison: comparison(random),
        right: term(random),
    })
}

fn change(random: &mut Random) -> Option<Change> {
    if random.chance(45) {
        return None;
    }
    let target = if random.chance(60) {
        Variable::X
    } else {
        Variable::Y
    };
    Some(Change {
        target,
        source: term(random),
        add: number(random),
    })
}

fn partner(random: &mut Random) -> u8 {
    random.zero_or_below(85, 8)
}

fn signal(random: &mut Random) -> u8 {
    random.byte_below_either(90, 3, 32)
}

fn step(random: &mut Random) -> Step {
    Step {
        address: partner(random),
        signal: signal(random),
        guard: guard(random),
        change: change(random),
    }
}

fn leaf(random: &mut Random) -> Fragment {
    if random.chance(12) {
        Fragment::Skip
    } else {
        Fragment::Step(step(random))
    }
}

// A diagram that is being drawn.
#[derive(Drop)]
struct Drawing<'a> {
    random: &'a mut Random,
    // The fragments that none names yet.
    open: Vec<usize>,
}

impl Drawing<'_> {
    // Takes out any of the open ones.
    fn take(&mut self) -> usize {
        let n = self.open.len();
        if n == 0 {
            return 0;
        }
        let at = self.random.below(n);
        self.open.remove(at)
    }

    fn over_one(&mut self) -> Fragment {
        let body = self.take();
        if self.random.chance(55) {
            Fragment::Neg(body)
        } else {
            Fragment::Loop(body)
        }
    }

    fn over_two(&mut self) -> Fragment {
        let left = self.take();
        let right = self.take();
        if self.random.chance(60) {
            Fragment::Seq(left, right)
        } else {
            Fragment::Alt(left, right)
        }
    }

    // The next fragment, where this and so many more are to come; in the end one is open.
    fn fragment(&mut self, more: usize) -> Fragment {
        let choice = self.random.below(10);
        let n = self.open.len();
        if n >= 2 && (n - 1 > more || choice < 4) {
            self.over_two()
        } else if n >= 1 && (n > more || choice < 7) {
            self.over_one()
        } else {
            leaf(self.random)
        }
    }
}

fn start(random: &mut Random) -> u8 {
    random.zero_or_below(70, 16)
}

/// A diagram of any kind and shape, of at most so many fragments: parts stand earlier, each fragment but the last is named once.
pub fn diagram(heap: Global, random: &mut Random, most: usize) -> Result<Diagram, AllocError>
    requires { (1 ≤ most) × (most ≤ 64) }
{
    let count = 1 + random.below(most);
    let mut fragments = [Fragment::Skip; 64];
    let mut drawing = Drawing {
        random,
        open: Vec::new(heap),
    };
    for (i, (place, more)) in fragments.iter_mut().zip((0..count).rev()).enumerate() {
        *place = drawing.fragment(more);
        drawing.open.push(i)?;
    }
    Ok(Diagram {
        count,
        steps: steps(&fragments),
        start: Variables {
            x: start(drawing.random),
            y: start(drawing.random),
        },
        fragments,
    })
}

fn steps(fragments: &[Fragment; 64]) -> usize {
    fragments
        .iter()
        .filter(|f| matches!(f, Fragment::Step(_)))
        .count()
}

// A deed that some step of the diagram may suit.
fn deed(random: &mut Random, d: &Diagram) -> Deed {
    let first = number(random);
    let second = number(random);
    if d.count > 0 && random.chance(85) {
        let at = random.below(d.count);
        if let Some(Fragment::Step(s)) = d.fragments.get(at) {
            return Deed::reading(s.address, s.signal, first, second);
        }
    }
    Deed::reading(partner(random), signal(random), first, second)
}

/// Lists of at most so many deeds.
#[derive(Clone, Copy)]
pub struct Lists {
    pub most: usize,
    ghost few: { most ≤ 6 },
}

impl Lists {
    /// One of the lists, for a diagram.
    pub fn draw(
        &self,
        heap: Global,
        random: &mut Random,
        d: &Diagram,
    ) -> Result<Vec<Deed>, AllocError> {
        let count = random.below(self.most + 1);
        let mut list = Vec::new(heap);
        for _ in 0..count {
            list.push(deed(random, d))?;
        }
        Ok(list)
    }
}

// Another byte than this, most often a near one.
fn damaged(random: &mut Random, byte: u8) -> u8 {
    match random.below(4) {
        0 => byte.wrapping_add(1),
        1 => byte.wrapping_sub(1),
        2 => random.byte_below(21),
        _ => random.byte(),
    }
}

// Changes a byte.
fn change_byte(random: &mut Random, bytes: &mut Vec<u8>) {
    let n = bytes.len();
    if n == 0 {
        return;
    }
    let at = random.below(n);
    let byte = bytes[at];
    bytes[at] = damaged(random, byte);
}

// Cuts off some of the bytes.
fn cut(random: &mut Random, bytes: &mut Vec<u8>) {
    let n = bytes.len();
    if n > 0 {
        bytes.truncate(random.below(n));
    }
}

/// Changes a byte or two; now and then some are cut off, or there is one too many.
pub fn damage(random: &mut Random, bytes: &mut Vec<u8>) -> Result<(), AllocError> {
    change_byte(random, bytes);
    if random.chance(20) {
        change_byte(random, bytes);
    }
    if random.chance(4) {
        cut(random, bytes);
    }
    if random.chance(3) {
        bytes.push(0)?;
    }
    Ok(())
}
