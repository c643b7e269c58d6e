// The route program: standard input to standard output. What is read and written no contract can say; the report itself is the
// proved function `routes::route`.
#![tactic(auto)]

mod pipe;

ghost use Rattle.route.specs.Cited.{Status};

use std::fmt::InlineText;
use std::io::{Eprint, Error, Stderr, Stdin, Stdout};

// The exit statuses: the route was answered, was refused, or could not be read or written.
const ANSWERED: i32 = 0;

const REFUSED: i32 = 1;

const FAILED: i32 = 2;

// The bytes of an input that decide its report, whatever follows (theorem `first_decide`), and those of the longest report.
const INPUT_BYTES: usize = 675;

const TEXT_BYTES: usize = 1145;

// The words of an error's text, without the number that may follow them.
fn words(text: &str) -> &str {
    match text.split_once(" (os error ") {
        Some((words, _)) => words,
        None => text,
    }
}

// Writes a line to standard error: what failed, a colon and the error's words.
fn complain(stderr: &impl Eprint, what: &str, error: Error) {
    let text = InlineText::<128>::of(&error);
    let words = words(text.as_str());
    let _ = eprintln!(stderr; "{what}: {words}");
}

// Reports the route on standard input. Answers the program's exit status.
#[unsafe(no_mangle)]
pub extern "C" fn duchrelin_route_program(stdin: Stdin, stdout: Stdout, stderr: Stderr) -> i32
    ensures { Status result }
{
    let mut input = [0u8; INPUT_BYTES];
    let count = match pipe::fetch(stdin, &mut input) {
        Ok(count) => count,
        Err(error) => {
            complain(&stderr, "route: standard input", error);
            return FAILED;
        }
    };
    let mut text = [0u8; TEXT_BYTES];
    let bytes = routes::route(&input[..count], &mut text).unwrap_or(0);
    if let Err(error) = pipe::send(&stdout, &text[..bytes]) {
        complain(&stderr, "route: standard output", error);
        return FAILED;
    }
    // A report begins with the line of a hop, and a refusal with its own word.
    if text[0] == b'r' {
        return REFUSED;
    }
    ANSWERED
}
