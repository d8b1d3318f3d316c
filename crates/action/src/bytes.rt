ghost use Rattle.std.specs.Prelude.{◌≡◌, zip, position, nat_lt};
ghost use Rattle.action.specs.Bytes.{action_check};

use fault::fault::Fault;

// The first byte above the highest one there.
fn first_above(bytes: &[u8], highest: &[u8]) -> Option<usize>
    ensures { result ≡ position (λ q. nat_lt q.1 q.0) (zip bytes.now highest.now) }
{
    bytes.iter().zip(highest).position(|(b, h)| *b > *h)
}

// Refusal 12, unless there are as many bytes as `highest` has, each at most the one there.
pub(crate) fn check_bytes(bytes: &[u8], highest: &[u8]) -> Result<(), Fault>
    ensures { result ≡ action_check highest.now bytes.now }
{
    if bytes.len() != highest.len() {
        return Err(Fault::ActionBytes(0));
    }
    match first_above(bytes, highest) {
        Some(i) => Err(Fault::ActionBytes(i)),
        None => Ok(()),
    }
}
