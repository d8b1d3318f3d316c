//! The byte format of a run: a list of deeds.
#![tactic(auto)]

ghost use Rattle.std.specs.Prelude.{◌≡◌, ℕ, ◌<◌, ◌≤◌, ◌++◌, not, map, zip, position, length, drop, Ok, Err, IfOk, MatchResult};
ghost use Rattle.fault.specs.declared.fault.Fault.TheVariants.{ActionBytes};
ghost use Rattle.fault.specs.Checks.{or_fault, filled, refuse_at};
ghost use Rattle.run_file.specs.Runs.{count_of, shape_check, heads_of, arguments_of, head_fits, deed_in, run_verdict, run_deeds};

use action::deed::{Deed, HIGHEST_ADDRESS};
use action::kind::HIGHEST_KIND;
use fault::fault::Fault;

/// The most deeds of a run.
pub const MOST_DEEDS: usize = 8000;

/// Loads a run into the front of a list that the caller lends, and answers how many deeds it has; or refusal 14, or 12 at the
/// lowest deed with a byte outside its range. The later places keep what they held, and after a refusal all do.
// Stays: a place that the caller lends, and how far it is filled, since a library takes no memory of its own.
pub fn load_run(bytes: &[u8], place: &mut [Deed; MOST_DEEDS]) -> Result<usize, Fault>
    ensures verdict { result ≡ or_fault (run_verdict bytes.now) (count_of bytes.now) }
    ensures few { IfOk result (λ n. n ≤ 8000) }
    ensures place { place.new ≡ filled (run_verdict bytes.now) (run_deeds bytes.now ++ drop (count_of bytes.now) place.old) place.old }
{
    let run = Run::of(bytes)?;
    run.check()?;
    run.fill(place);
    Ok(run.arguments.len())
}

// The deeds of a run as its bytes hold them: partner and signal of each, and its two arguments in one byte.
#[derive(Drop)]
struct Run<'a> {
    heads: &'a [[u8; 2]],
    arguments: &'a [u8],
    ghost many: { length heads.now ≡ length arguments.now },
}

impl<'a> Run<'a> {
    // The deeds that the bytes hold, or refusal 14.
    fn of(bytes: &'a [u8]) -> Result<Run<'a>, Fault>
        ensures { MatchResult result (λ r. (Ok tt ≡ shape_check bytes.now) × (r.heads.now ≡ heads_of bytes.now) × (r.arguments.now ≡ arguments_of bytes.now)) (λ f. Err f ≡ shape_check bytes.now) }
    {
        let [low, high, rest @ ..] = bytes else {
            return Err(Fault::RunShape);
        };
        let count = u16::from_le_bytes([*low, *high]) as usize;
        if count > MOST_DEEDS || rest.len() != 3 * count {
            return Err(Fault::RunShape);
        }
        let (heads, arguments) = rest.split_at(2 * count);
        let (heads, _) = heads.as_chunks();
        Ok(Run { heads, arguments })
    }

    // Refusal 12, at the lowest deed with a byte outside its range.
    fn check(&self) -> Result<(), Fault>
        ensures { result ≡ refuse_at (λ i. ActionBytes i) (position (λ h. not (head_fits h)) self.now.heads.now) }
    {
        match first_outside(self.heads) {
            Some(i) => Err(Fault::ActionBytes(i)),
            None => Ok(()),
        }
    }

    fn fill(&self, out: &mut [Deed])
        requires { length self.now.arguments.now ≤ length out.old }
        ensures { out.new ≡ map deed_in (zip self.now.heads.now self.now.arguments.now) ++ drop (length self.now.arguments.now) out.old }
    {
        for (i, (head, arguments)) in self.heads.iter().zip(self.arguments).enumerate() {
            // Stays: written by its number: where `iter_mut` is zipped with what is read, nothing is known of the slice afterwards.
            out[i] = read_deed(head, *arguments);
        }
    }
}

// The first deed whose partner or signal is outside its range; its arguments share a byte, and never are.
fn first_outside(heads: &[[u8; 2]]) -> Option<usize>
    ensures { result ≡ position (λ h. not (head_fits h)) heads.now }
{
    heads.iter().position(|[address, signal]| *address > HIGHEST_ADDRESS || *signal > HIGHEST_KIND)
}

fn read_deed(head: &[u8; 2], arguments: u8) -> Deed
    ensures { result ≡ deed_in (head.now, arguments) }
{
    let [address, signal] = head;
    Deed::reading(*address, *signal, arguments / 16, arguments % 16)
}
