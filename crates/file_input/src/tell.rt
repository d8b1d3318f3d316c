//! What every program prints alike.
use fault::fault::Fault;
use std::io;

/// Names the folder that is worked in, unless it is the current one.
pub fn tell_folder(rt: &impl Print, folder: &str) -> io::Result<()> {
    if folder.is_empty() {
        return Ok(());
    }
    println!(rt; "{folder}")
}

/// Tells why a file is refused: `what` names it.
pub fn tell_refusal(rt: &impl Print, what: &str, fault: Fault) -> io::Result<()> {
    println!(rt; "{what} refused {fault}")
}
