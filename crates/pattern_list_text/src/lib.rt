// A list of patterns, read from bytes: its numbers, how many rows it has, and the row in front of a text. No entry: crate pattern_list_loading calls it.
#![tactic(auto)]

ghost use Rattle.std.specs.Prelude.{◌≡◌, ◌≤◌, length};
ghost use Rattle.pattern_list_text.specs.Reading.{rows_of};
ghost use Rattle.pattern_list_text.specs.Told.{DigitsSplit, RowRead, count_of, count_told, Answered};

use text_lines::read_value;
use text_tokens::{read_numeral, skip_key};

// The digits of a row's order, and its mask.
#[derive(Clone, Copy, Debug, PartialEq, Eq)]
pub struct Row<'t> {
    pub digits: &'t [u8],
    pub mask: u32,
}

// The numbers of a list, how many rows it has, and the text from the first of them on.
#[derive(Clone, Copy, Debug, PartialEq, Eq)]
pub struct List<'t> {
    pub k: u32,
    pub announced: u32,
    pub count: usize,
    pub rows: &'t [u8],
}

// The digits in front, and the rest.
fn split_digits(text: &[u8]) -> (&[u8], &[u8])
    ensures { DigitsSplit text.now result.0.now result.1.now }
{
    for count in 0..text.len() {
        if !text[count].is_ascii_digit() {
            return text.split_at(count);
        }
    }
    (text, &[])
}

// The row whose line is in front, and the rest.
pub fn read_row(text: &[u8]) -> Option<(Row<'_>, &[u8])>
    ensures { RowRead text.now result }
{
    let order = skip_key(text, b"pattern=")?;
    let (digits, comma) = split_digits(order);
    let number = skip_key(comma, b",")?;
    let (mask, end) = read_numeral(number)?;
    let rest = skip_key(end, b"\n")?;
    Some((Row { digits, mask }, rest))
}

// The rows up to the end of the text, counted.
fn count_rows(text: &[u8]) -> Option<usize>
    requires { length text.now ≤ 60000 }
    ensures { count_of (rows_of 60000 text.now) ≡ count_told result }
{
    let mut rest = text;
    let mut count = 0;
    while rest.len() > 0 {
        let (_row, next) = read_row(rest)?;
        rest = next;
        count += 1;
    }
    Some(count)
}

// The whole text.
pub fn read_list(text: &[u8]) -> Option<List<'_>>
    ensures { Answered text.now result }
{
    if text.len() > 60000 {
        return None;
    }
    let (k, after_k) = read_value(text, b"k=")?;
    let (announced, rows) = read_value(after_k, b"patterns=")?;
    let count = count_rows(rows)?;
    Some(List {
        k,
        announced,
        count,
        rows,
    })
}
