//! A sheet as it is drawn, accepted or not.
use crate::step::Step;

/// A piece of a diagram. Its parts are named by their indices.
// Stays: libraries take no memory, so parts are indices into the array of a diagram, and no boxes.
#[derive(Clone, Copy)]
pub enum Fragment {
    Skip,
    Step(Step),
    Seq(usize, usize),
    Alt(usize, usize),
    Loop(usize),
    Neg(usize),
}

/// The two variables of a run.
#[derive(Clone, Copy)]
pub struct Variables {
    pub x: u8,
    pub y: u8,
}

/// The first `count` fragments, of which the last is the whole and `steps` are steps, and the starts of x and y.
// Stays: libraries take no memory, and a sheet is lent, copied and filled in place, so it is an array with its count.
#[derive(Clone, Copy)]
pub struct Diagram {
    pub count: usize,
    pub steps: usize,
    pub start: Variables,
    pub fragments: [Fragment; 64],
}
