// The round of a text, read with no place for its stops: it may have more of them than any problem that is taken. No entry: crate text_question calls it.
#![tactic(auto)]

ghost use Rattle.std.specs.Prelude.{◌≡◌};
ghost use Rattle.text_decimal.specs.Text.{ascii};
ghost use Rattle.text_lines.specs.Reading.{entries, line_of};
ghost use Rattle.text_round.specs.Round.{counted, round_told};

use text_tokens::{read_numeral, skip_key};

// How many stops a round has, and the highest of them, or 0 where there is none.
#[derive(Clone, Copy, Debug, PartialEq, Eq)]
pub struct Stops {
    pub count: usize,
    pub highest: u32,
}

// Numbers with commas between, up to the line's end.
fn scan_entries(text: &[u8]) -> Option<(Stops, &[u8])>
    ensures { counted 0 0 (entries 30000 text.now) ≡ round_told result }
{
    let mut rest = text;
    let mut highest = 0u32;
    for count in 0..30000 {
        let (stop, end) = read_numeral(rest)?;
        highest = highest.max(stop);
        match end {
            [b'\n', next @ ..] => {
                return Some((
                    Stops {
                        count: count + 1,
                        highest,
                    },
                    next,
                ));
            }
            [b',', next @ ..] => rest = next,
            _ => return None,
        }
    }
    None
}

// The line of the round.
pub fn scan_round(text: &[u8]) -> Option<(Stops, &[u8])>
    ensures { counted 0 0 (line_of (ascii "round=") 30000 text.now) ≡ round_told result }
{
    let list = skip_key(text, b"round=")?;
    if let [b'\n', rest @ ..] = list {
        let none = Stops {
            count: 0,
            highest: 0,
        };
        return Some((none, rest));
    }
    scan_entries(list)
}
