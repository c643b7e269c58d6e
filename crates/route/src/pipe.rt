// Standard input and standard output, for a program at either end of a pipe: reads and writes that move only a part go on, and
// those that a signal interrupts are tried again.
ghost use Rattle.std.specs.Prelude.{IfOk, ◌≤◌, length};

use std::io;
use std::io::{Error, ErrorKind, Print, Read, Stdin};

// A program ends, so it makes only so many calls: far more than one for each byte.
const MOST_CALLS: usize = 100_000;

// The system's number for a call that a signal interrupted.
const EINTR: i32 = 4;

// Whether a call failed for good, and was not only interrupted.
fn failed(error: &Error) -> bool {
    error.kind() != ErrorKind::Interrupted
}

// Reads standard input to the start of a buffer, until it is full or the input ends. Answers how many bytes were read, or tells
// why that did not go well.
pub(crate) fn fetch(mut stdin: Stdin, buffer: &mut [u8]) -> io::Result<usize>
    ensures { IfOk result (λ count. count ≤ length buffer.new) }
{
    let mut count = 0;
    for _ in 0..MOST_CALLS {
        if count == buffer.len() {
            return Ok(count);
        }
        match stdin.read(&mut buffer[count..]) {
            Ok(0) => return Ok(count),
            Ok(moved) => count += moved,
            Err(error) if failed(&error) => return Err(error),
            Err(_) => {}
        }
    }
    // The calls are used up: told as interrupted.
    Err(Error::from_raw_os_error(EINTR))
}

// Writes all of a text to standard output, or tells why that did not go well.
pub(crate) fn send(stdout: &impl Print, text: &[u8]) -> io::Result<()> {
    let mut count = 0;
    for _ in 0..MOST_CALLS {
        if count == text.len() {
            return Ok(());
        }
        match stdout.write_some(&text[count..]) {
            Ok(0) => return Err(Error::from(ErrorKind::WriteZero)),
            Ok(moved) => count += moved,
            Err(error) if failed(&error) => return Err(error),
            Err(_) => {}
        }
    }
    // The calls are used up: told as interrupted.
    Err(Error::from_raw_os_error(EINTR))
}
