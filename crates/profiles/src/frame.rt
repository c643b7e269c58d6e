// What a file must have before its profile is looked at: edition and kind, the byte count that they require, and zero bits up to
// the byte's end.
ghost use Rattle.std.specs.Prelude.{◌≡◌};
ghost use Rattle.meaning.specs.Profile.{spelt, padding};
ghost use Rattle.checks.specs.Cited.{Tells};
ghost use Rattle.checks.specs.Table.{code_of};
ghost use Rattle.meaning.proofs.Profile.RoundTrip.{RightHeader};
ghost use Rattle.profiles.specs.Cited.{Whole, Framed, Tested};

use crate::bits;
use checks::Refusal;

// Tests edition and kind.
#[tactic(auto, using(crate::proofs::Framing::heads))]
fn header(file: &[u8]) -> Result<(), Refusal>
    ensures { Tested file.now (RightHeader file.now) (code_of result) }
{
    if file.is_empty() {
        return Err(Refusal::Header);
    }
    if !crate::has_kind(crate::edition_in(file), crate::kind_in(file)) {
        return Err(Refusal::Header);
    }
    Ok(())
}

// Whether the byte count is what kind and count require.
fn is_whole(file: &[u8]) -> bool
    ensures { Tells (Whole file.now) result }
{
    file.len() == crate::bytes_taken(file)
}

// The number that the padding bits spell.
#[tactic(auto, using(crate::proofs::Framing::pads))]
fn padding_in(file: &[u8]) -> u64
    requires { Whole file.now }
    ensures { result ≡ spelt (padding file.now) }
{
    let end = crate::bits_taken(file);
    bits::take_field(file, end, 8 * file.len() - end)
}

// Tests header, byte count and padding.
#[tactic(auto, using(crate::proofs::Framing::frames))]
pub(crate) fn refusal(file: &[u8]) -> Result<(), Refusal>
    ensures { Tested file.now (Framed file.now) (code_of result) }
{
    header(file)?;
    if !is_whole(file) {
        return Err(Refusal::Length);
    }
    if padding_in(file) != 0 {
        return Err(Refusal::Pad);
    }
    Ok(())
}
