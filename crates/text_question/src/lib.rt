// The text program's question, read from bytes. No entry: the program above calls it.
#![tactic(auto)]

ghost use Rattle.std.specs.Prelude.{◌≡◌};
ghost use Rattle.theory.specs.Tables.{tables};
ghost use Rattle.text_question.specs.Reading.{header};
ghost use Rattle.text_question.specs.Told.{header_told, Places, Answered};

use text_lines::read_value;
use text_round::{Stops, scan_round};
use text_tables::read_tables;

// The numbers of a question: the values of its first five lines.
#[derive(Clone, Copy, Debug, PartialEq, Eq)]
pub struct Header {
    pub k: u32,
    pub allowance: u32,
    pub locations: usize,
    pub depot: u32,
    pub end: u32,
}

// A question whose tables are in lent places, and whose stops stand in the text, from the line of the round on.
#[derive(Clone, Copy, Debug, PartialEq, Eq)]
pub struct Question<'t> {
    pub header: Header,
    pub stops: Stops,
    pub round: &'t [u8],
}

// The lines before the legs.
fn read_header(text: &[u8]) -> Option<(Header, &[u8])>
    ensures { header text.now ≡ header_told result }
{
    let (k, after_k) = read_value(text, b"k=")?;
    let (allowance, after_allowance) = read_value(after_k, b"allowance=")?;
    let (locations, after_locations) = read_value(after_allowance, b"locations=")?;
    let (depot, after_depot) = read_value(after_locations, b"depot=")?;
    let (end, rest) = read_value(after_depot, b"end=")?;
    if locations < 1 || 96 < locations {
        return None;
    }
    let header = Header {
        k,
        allowance,
        locations: locations as usize,
        depot,
        end,
    };
    Some((header, rest))
}

// The whole text: its tables into the lent places, its numbers and what is told of its round as the answer.
pub fn read_question<'t>(
    text: &'t [u8],
    legs: &mut [u32],
    latest: &mut [u32],
    service: &mut [u32],
) -> Option<Question<'t>>
    requires { Places (tables 96 legs.old latest.old service.old) }
    ensures { Answered text.now (tables 96 legs.new latest.new service.new) result }
{
    if text.len() > 60000 {
        return None;
    }
    let (header, rest) = read_header(text)?;
    let locations = header.locations;
    let cells = locations * locations;
    let round = read_tables(
        rest,
        locations,
        &mut legs[..cells],
        &mut latest[..locations],
        &mut service[..locations],
    )?;
    let (stops, end) = scan_round(round)?;
    if !end.is_empty() {
        return None;
    }
    Some(Question {
        header,
        stops,
        round,
    })
}
