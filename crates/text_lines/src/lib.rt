// Lines of numbers in front of a text, read from bytes. No entry: the crates above call it.
#![tactic(auto)]

ghost use Rattle.std.specs.Prelude.{◌≡◌, length};
ghost use Rattle.text_tokens.specs.Told.{numeral_told};
ghost use Rattle.text_lines.specs.Reading.{entries, entries_or_none, line_of, row, value};
ghost use Rattle.text_lines.specs.Told.{row_told, Listed};

use text_tokens::{read_numeral, skip_key};

// Numbers with commas between, up to the line's end, into out.
fn read_entries<'t>(text: &'t [u8], out: &mut [u32]) -> Option<(usize, &'t [u8])>
    ensures { Listed (entries (length out.old) text.now) out.new result }
{
    let mut rest = text;
    for count in 0..out.len() {
        let (value, end) = read_numeral(rest)?;
        out[count] = value;
        match end {
            [b'\n', next @ ..] => return Some((count + 1, next)),
            [b',', next @ ..] => rest = next,
            _ => return None,
        }
    }
    None
}

// The same, or no number.
fn read_list<'t>(text: &'t [u8], out: &mut [u32]) -> Option<(usize, &'t [u8])>
    ensures { Listed (entries_or_none (length out.old) text.now) out.new result }
{
    if let [b'\n', rest @ ..] = text {
        return Some((0, rest));
    }
    read_entries(text, out)
}

// A line of numbers into out.
pub fn read_line<'t>(text: &'t [u8], key: &[u8], out: &mut [u32]) -> Option<(usize, &'t [u8])>
    ensures { Listed (line_of key.now (length out.old) text.now) out.new result }
{
    let list = skip_key(text, key)?;
    read_list(list, out)
}

// A line of as many numbers as out has places.
pub fn read_row<'t>(text: &'t [u8], key: &[u8], out: &mut [u32]) -> Option<&'t [u8]>
    ensures { row key.now (length out.old) text.now ≡ row_told out.new result }
{
    let (count, rest) = read_line(text, key, out)?;
    if count != out.len() {
        return None;
    }
    Some(rest)
}

// A line of one number.
pub fn read_value<'t>(text: &'t [u8], key: &[u8]) -> Option<(u32, &'t [u8])>
    ensures { value key.now text.now ≡ numeral_told result }
{
    let mut one = [0u32; 1];
    let rest = read_row(text, key, &mut one)?;
    Some((one[0], rest))
}
