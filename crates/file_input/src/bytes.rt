// Reads a file into a buffer that the caller lends.
ghost use Rattle.std.specs.Prelude.{◌≤◌, length, IfOk};

use std::io::Read;
use std::rt::Files;
use std::{fs, io};

// Reads until the end or until the buffer is full.
fn fill<F: Read>(file: &mut F, buffer: &mut [u8]) -> io::Result<usize>
    ensures { IfOk result (λ n. n ≤ length buffer.old) }
{
    let mut filled = 0;
    // Stays: a file gives a piece at a time, and asks nothing of the heap this way.
    while filled < buffer.len() {
        let n = file.read(&mut buffer[filled..])?;
        if n == 0 {
            break;
        }
        filled += n;
    }
    Ok(filled)
}

// Reads the front of a file, as much as the buffer holds, and answers how many bytes that is.
// A file that cannot be opened or read counts as empty.
// Stays: a buffer that is lent, since to ask the heap for these bytes may fail.
pub(crate) fn read_file<R: Files>(rt: &R, path: &str, buffer: &mut [u8]) -> usize
    ensures { result ≤ length buffer.old }
{
    let Ok(mut file) = fs::open(rt, path) else {
        return 0;
    };
    fill(&mut file, buffer).unwrap_or(0)
}
