//! The bytes of a diagram, and of a list of deeds.
use action::deed::Deed;
use sheet::diagram::{Diagram, Fragment};
use sheet::step::{Comparison, Step, Term, Variable};
use std::alloc::{AllocError, Global};

fn low_byte(n: usize) -> u8 {
    (n % 256) as u8
}

// Stays: functions, since a type of another crate gets no `From` for numbers here.
fn kind(f: &Fragment) -> u8 {
    match f {
        Fragment::Skip => 0,
        Fragment::Step(_) => 1,
        Fragment::Seq(_, _) => 2,
        Fragment::Alt(_, _) => 3,
        Fragment::Loop(_) => 4,
        Fragment::Neg(_) => 5,
    }
}

fn term(t: Term) -> u8 {
    match t {
        Term::Number(n) => n,
        Term::X => 16,
        Term::Y => 17,
        Term::First => 18,
        Term::Second => 19,
    }
}

fn comparison(c: Comparison) -> u8 {
    match c {
        Comparison::Equal => 1,
        Comparison::Unequal => 2,
        Comparison::Less => 3,
        Comparison::AtMost => 4,
        Comparison::Greater => 5,
        Comparison::AtLeast => 6,
    }
}

fn step_row(s: Step) -> [u8; 8] {
    let mut row = [s.address, s.signal, 0, 0, 0, 0, 0, 0];
    if let Some(g) = s.guard {
        row[2] = term(g.left);
        row[3] = comparison(g.comparison);
        row[4] = term(g.right);
    }
    if let Some(c) = s.change {
        row[5] = match c.target {
            Variable::X => 1,
            Variable::Y => 2,
        };
        row[6] = term(c.source);
        row[7] = c.add;
    }
    row
}

fn row(f: &Fragment) -> [u8; 8] {
    match f {
        Fragment::Skip => [0; 8],
        Fragment::Step(s) => step_row(*s),
        Fragment::Seq(l, r) | Fragment::Alt(l, r) => {
            [low_byte(*l), low_byte(*r), 0, 0, 0, 0, 0, 0]
        }
        Fragment::Loop(b) | Fragment::Neg(b) => [low_byte(*b), 0, 0, 0, 0, 0, 0, 0],
    }
}

fn add_rows(bytes: &mut Vec<u8>, fragments: &[Fragment], count: usize) -> Result<(), AllocError> {
    for f in fragments.iter().take(count) {
        bytes.extend_from_slice(&row(f))?;
    }
    Ok(())
}

/// The sheet of a diagram, as bytes.
pub fn encode(heap: Global, d: &Diagram) -> Result<Vec<u8>, AllocError> {
    let header = [low_byte(d.count), low_byte(d.steps), d.start.x, d.start.y];
    let mut bytes = Vec::new(heap);
    bytes.extend_from_slice(&header)?;
    bytes.extend(d.fragments.iter().take(d.count).map(kind))?;
    add_rows(&mut bytes, &d.fragments, d.count)?;
    Ok(bytes)
}

fn add_arguments(bytes: &mut Vec<u8>, deeds: &[Deed]) -> Result<(), AllocError> {
    for deed in deeds {
        let first = deed.first() % 16;
        let second = deed.second() % 16;
        bytes.push(16 * first + second)?;
    }
    Ok(())
}

/// The run file of a short list of deeds.
pub fn encode_run(heap: Global, deeds: &[Deed]) -> Result<Vec<u8>, AllocError> {
    let mut bytes = Vec::new(heap);
    bytes.extend_from_slice(&[low_byte(deeds.len()), 0])?;
    for deed in deeds {
        bytes.extend_from_slice(&[deed.address(), deed.signal()])?;
    }
    add_arguments(&mut bytes, deeds)?;
    Ok(bytes)
}
