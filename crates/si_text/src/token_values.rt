//! Texts and numbers, taken from the tokens of a line.
//!
//! A function here that gives no answer may have taken a token.

ghost use Rattle.std.specs.Prelude.{◌≡◌, ◌∷◌, IfSome, Some};
ghost use Rattle.json.specs.Token.{string};
ghost use Rattle.serde_json.specs.Data.{unsigned};
ghost use Rattle.serde_json.specs.Read.{number_of};
ghost use Rattle.si_text.specs.TokenOperations.{TakesNumeral};

use fast_float::Numeral;
use json::{Reader, Token};

/// The text that comes next.
#[inline(always)]
pub(crate) fn take_text<'a>(reader: &mut Reader<'a>) -> Option<&'a str>
    ensures { IfSome result (λ text. reader.old ≡ string text.now ∷ reader.new) }
{
    match reader.next() {
        Some(Token::String(text)) => Some(text),
        _ => None,
    }
}

/// The number that comes next.
#[inline(always)]
pub(crate) fn take_number(reader: &mut Reader<'_>) -> Option<u64>
    ensures { IfSome result (λ number. TakesNumeral number reader.old reader.new) }
{
    match reader.next() {
        Some(Token::Number(text)) => plain_number(text),
        _ => None,
    }
}

/// The number that a text is, where it has neither sign nor fraction nor exponent and fits 64 bits.
#[tactic(auto, using(crate::proofs::ScannedNumbers::number_scanned))]
pub(crate) fn plain_number(text: &str) -> Option<u64>
    ensures { IfSome result (λ number. number_of text.now ≡ Some (unsigned number)) }
{
    let bytes = text.as_bytes();
    if bytes.is_empty() || bytes[0] == b'-' {
        return None;
    }
    Numeral::scan(bytes).to_u64()
}
