// The route program's work: from its whole input to its whole text, in a lent buffer.
#![tactic(auto)]

mod reading;
mod text;
mod walk;

ghost use Rattle.std.specs.Prelude.{◌≡◌, []};
ghost use Rattle.meaning.specs.Route.{Route, RouteOutcome};
ghost use Rattle.checks.specs.Table.{code_of, told};

use checks::{Refusal, limits};
use text::Text;

// The numbers of a list with room for each curve.
const CURVE_NUMBERS: usize = limits::BUCKETS * limits::BUCKET_NUMBERS;

// Puts the report of an input into an empty text.
fn report(input: &[u8], text: &mut Text)
    requires { text.old ≡ [] }
    ensures { Route input.now text.new }
{
    let mut first = [0u64; CURVE_NUMBERS];
    let numbers = match reading::read_curve(input, &mut first) {
        Ok(numbers) => numbers,
        Err(refusal) => return text.refuse(refusal, 1),
    };
    let start = profiles::bytes_taken(input);
    let curve = first;
    walk::walk(input, &first[..numbers], start, curve, text);
}

// The text of a route, from the curve and the servers that the input holds: a line for each hop and the line of the route, or the
// one line of a refusal, at the start of a lent buffer. Answers how many bytes it has; it is ROOM where the buffer is too short.
pub fn route(input: &[u8], text: &mut [u8]) -> Result<usize, Refusal>
    ensures { RouteOutcome input.now text.old text.new (code_of result) (told result) }
{
    let mut held = Text::new();
    report(input, &mut held);
    profiles::hand_over(held.as_bytes(), text)
}
