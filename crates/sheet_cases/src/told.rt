use fault::fault::Fault;

// The number and place of a refusal, or 0 and 0.
// Stays: numbers, which are what is promised of a refusal.
pub(crate) fn told<T: Drop>(outcome: Result<T, Fault>) -> (u8, usize) {
    match outcome {
        Ok(_) => (0, 0),
        Err(fault) => (fault.number(), fault.place()),
    }
}
