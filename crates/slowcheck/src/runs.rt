//! Run files beside the loader, damaged ones too.
use crate::draw::damage;
use crate::random::Random;
use crate::tally::Count;
use crate::verdict::byte;
use action::deed::Deed;
use fault::fault::Fault;
use run_file::{MOST_DEEDS, load_run};
use std::alloc::{AllocError, Global};
use std::io;

/// What the runs came to.
#[derive(Default, Drop)]
pub struct RunTally {
    accepted: Count,
    byte: Count,
    shape: Count,
}

impl RunTally {
    /// A run that was accepted or refused.
    pub(crate) fn run(&mut self, verdict: Result<(), Fault>) {
        match verdict {
            Ok(()) => self.accepted.add(),
            Err(Fault::ActionBytes(_)) => self.byte.add(),
            Err(_) => self.shape.add(),
        }
    }

    pub(crate) fn print(&self, rt: &HostRuntime) -> io::Result<()> {
        eprintln!(rt; "  accepted: {}", self.accepted)?;
        eprintln!(rt; "  refused 12: {}", self.byte)?;
        eprintln!(rt; "  refused 14: {}", self.shape)
    }
}

// A run of less than twenty deeds.
fn good(heap: Global, random: &mut Random) -> Result<Vec<u8>, AllocError> {
    let n = random.byte_below(20);
    let mut bytes = Vec::new(heap);
    bytes.extend_from_slice(&[n, 0])?;
    for _ in 0..n {
        bytes.extend_from_slice(&[random.byte_below(8), random.byte_below(32)])?;
    }
    for _ in 0..n {
        bytes.push(random.byte())?;
    }
    Ok(bytes)
}

/// A run file, most often damaged.
pub(crate) fn run(heap: Global, random: &mut Random) -> Result<Vec<u8>, AllocError> {
    let mut bytes = good(heap, random)?;
    if random.chance(80) {
        damage(random, &mut bytes)?;
    }
    Ok(bytes)
}

// How many deeds the file says that it has.
fn count(bytes: &[u8]) -> usize {
    byte(bytes, 0) as usize + 256 * byte(bytes, 1) as usize
}

// Whether the two bytes, an address and a signal, are out of their ranges.
fn out_of_range(bytes: &[u8]) -> bool {
    byte(bytes, 0) > 7 || byte(bytes, 1) > 31
}

/// What the rules ask for: the run is accepted, or refused for this reason.
pub(crate) fn run_verdict(bytes: &[u8]) -> Result<(), Fault> {
    let n = count(bytes);
    if bytes.len() < 2 || n > 8000 || bytes.len() != 2 + 3 * n {
        return Err(Fault::RunShape);
    }
    match bytes[2..2 + 2 * n].chunks_exact(2).position(out_of_range) {
        Some(i) => Err(Fault::ActionBytes(i)),
        None => Ok(()),
    }
}

fn deed_agrees(bytes: &[u8], n: usize, i: usize, deed: &Deed) -> bool {
    let at = i.min(8000);
    let arguments = byte(bytes, n.min(8000) * 2 + 2 + at);
    deed.address() == byte(bytes, 2 + 2 * at)
        && deed.signal() == byte(bytes, 3 + 2 * at)
        && deed.first() == arguments / 16
        && deed.second() == arguments % 16
}

/// What the loader made of a run.
#[derive(Drop)]
pub(crate) struct Loaded {
    /// Whether it accepts the run or refuses it.
    pub(crate) verdict: Result<(), Fault>,
    /// Whether the lent list holds the deeds, and after them what it held.
    pub(crate) filled: bool,
}

pub(crate) fn load(bytes: &[u8]) -> Loaded {
    let held = Deed::reading(7, 31, 15, 15);
    let mut deeds = [held; MOST_DEEDS];
    let loaded = load_run(bytes, &mut deeds);
    let n = loaded.unwrap_or(0);
    let filled = (n == 0 || n == count(bytes))
        && deeds.iter().enumerate().all(|(i, deed)| {
            if i < n {
                deed_agrees(bytes, n, i, deed)
            } else {
                *deed == held
            }
        });
    Loaded {
        verdict: loaded.map(|_| ()),
        filled,
    }
}
