//! The cases at the edges.
ghost use Rattle.std.specs.Prelude.{◌≤◌};

use action::deed::Deed;
use anyhow::anyhow;
use fault::fault::Fault;
use gate::answer::Answer;
use gate::gate::Gate;
use host::board::Board;
use host::host::Host;
use host::spool::Spool;
use sheet::sheet::Sheet;
use sheet_watch::watching::SheetWatch;
use std::alloc::{AllocError, Global};

/// A tall sheet: steps of the signals 0, 1, ..; alts that join them; a neg; and loops, each of the fragment before it.
#[derive(Clone, Copy)]
pub struct Tall {
    pub steps: u8,
    pub count: u8,
    ghost some: { (1 ≤ steps) × (steps ≤ 32) },
}

impl Tall {
    // Stays: bytes, since a sheet of 65 fragments fits no `Diagram`.
    fn kind(&self, i: u8) -> u8 {
        if i < self.steps {
            1
        } else if i < 2 * self.steps - 1 {
            3
        } else if i < 2 * self.steps {
            5
        } else {
            4
        }
    }

    fn row(&self, i: u8) -> [u8; 8] {
        if i < self.steps {
            [0, i, 0, 0, 0, 0, 0, 0]
        } else if i < 2 * self.steps - 1 {
            let left = if i == self.steps { 0 } else { i - 1 };
            [left, i - self.steps + 1, 0, 0, 0, 0, 0, 0]
        } else {
            [i - 1, 0, 0, 0, 0, 0, 0, 0]
        }
    }

    /// Its bytes.
    pub fn bytes(&self, heap: Global) -> Result<Vec<u8>, AllocError> {
        let mut bytes = Vec::new(heap);
        bytes.extend_from_slice(&[self.count, self.steps, 0, 0])?;
        bytes.extend((0..self.count).map(|i| self.kind(i)))?;
        for row in (0..self.count).map(|i| self.row(i)) {
            bytes.extend_from_slice(&row)?;
        }
        Ok(bytes)
    }
}

/// Fails with these words unless it holds.
pub fn expect(holds: bool, what: &str) -> anyhow::Result<()> {
    if holds {
        Ok(())
    } else {
        Err(anyhow!("{what}"))
    }
}

/// The arguments of a deed reach from 0 to 15.
pub fn arguments() -> anyhow::Result<()> {
    expect(Deed::from_bytes(&[7, 31, 15, 15]).is_ok(), "argument 15")?;
    expect(
        Deed::from_bytes(&[7, 31, 16, 15]) == Err(Fault::ActionBytes(2)),
        "first argument 16",
    )?;
    expect(
        Deed::from_bytes(&[7, 31, 15, 16]) == Err(Fault::ActionBytes(3)),
        "second argument 16",
    )
}

/// Over a spool of no places a deed is declined, but a barred one is barred.
pub fn no_places() -> anyhow::Result<()> {
    let barred = Deed::reading(0, 0, 0, 0);
    let other = Deed::reading(0, 4, 0, 0);
    let mut gate = Gate::open(SheetWatch::new(&Sheet::blank()), Spool::new(&mut []));
    expect(gate.submit(&other) == Answer::Declined, "no place")?;
    expect(gate.submit(&other) == Answer::Declined, "still no place")?;
    expect(gate.submit(&barred) == Answer::Barred, "barred, no place")?;
    expect(gate.submit(&other) == Answer::Stopped, "stopped, no place")
}

/// A board does 999 deeds of a kind, and of each other kind as many.
pub fn full_board() -> anyhow::Result<()> {
    let often = Deed::reading(0, 5, 0, 0);
    let other = Deed::reading(0, 6, 0, 0);
    let barred = Deed::reading(0, 0, 0, 0);
    let mut gate = Gate::open(SheetWatch::new(&Sheet::blank()), Board::new());
    for _ in 0..999 {
        expect(
            gate.submit(&often) == Answer::Done,
            "a board of fewer than 999",
        )?;
    }
    expect(gate.submit(&often) == Answer::Declined, "the 1,000th")?;
    expect(
        gate.submit(&other) == Answer::Done,
        "the first of another kind",
    )?;
    expect(gate.count(5) == Ok(999), "the count of 999")?;
    expect(
        gate.submit(&barred) == Answer::Barred,
        "barred at a full board",
    )?;
    expect(
        gate.submit(&other) == Answer::Stopped,
        "stopped at a full board",
    )
}
