// A number or a key in front of a text, read from bytes: each reader hands on the rest of the text. No entry: the crates above call it.
#![tactic(auto)]

ghost use Rattle.std.specs.Prelude.{◌≡◌, ◌≤◌};
ghost use Rattle.text_tokens.specs.Tokens.{digits_after, numeral, after};
ghost use Rattle.text_tokens.specs.Told.{DigitTaken, numeral_told, rest_told};

// The digit in front, and the rest.
#[tactic(auto, using(crate::proofs::Places::no_digit))]
fn split_digit(text: &[u8]) -> Option<(u64, &[u8])>
    ensures { DigitTaken text.now result }
{
    match text {
        [byte @ b'0'..=b'9', rest @ ..] => Some(((byte - b'0') as u64, rest)),
        _ => None,
    }
}

// The number that begins with `first`, whose further digits stand in front.
#[tactic(auto, using(crate::proofs::Places::further_digits))]
fn read_digits(text: &[u8], first: u64) -> Option<(u32, &[u8])>
    requires { first ≤ 9 }
    ensures { digits_after first text.now ≡ numeral_told result }
{
    let mut value = first;
    let mut rest = text;
    while let Some((digit, tail)) = split_digit(rest) {
        value = value * 10 + digit;
        if value > 4294967295 {
            return None;
        }
        rest = tail;
    }
    Some((value as u32, rest))
}

// The number in front.
#[tactic(auto, using(crate::proofs::Places::number))]
pub fn read_numeral(text: &[u8]) -> Option<(u32, &[u8])>
    ensures { numeral text.now ≡ numeral_told result }
{
    match split_digit(text)? {
        (0, rest) => Some((0, rest)),
        (first, rest) => read_digits(rest, first),
    }
}

// The text after a key.
pub fn skip_key<'t>(text: &'t [u8], key: &[u8]) -> Option<&'t [u8]>
    ensures { after key.now text.now ≡ rest_told result }
{
    text.strip_prefix(key)
}
