// A problem's text, written into lent bytes. No entry: crate problem_calls calls it.
#![tactic(auto)]

ghost use Rattle.theory.specs.Tables.{tables};
ghost use Rattle.theory.specs.Question.{question};
ghost use Rattle.text_decimal.specs.Text.{Room, Put};
ghost use Rattle.text_question.specs.Question.{legs_lines, text_of};
ghost use Rattle.text_sizes.specs.Parts.{header_text, tables_text};
ghost use Rattle.text_writing.specs.Writing.{RowsFit, TablesFit, TextFits};

use text_putting::{put_line, put_value};

// The lines of the legs, row after row.
fn put_rows(locations: usize, legs: &[u32], out: &mut [u8], at: usize) -> usize
    requires { RowsFit locations legs.now out.old at }
    ensures { Put (legs_lines locations locations legs.now) out.old at out.new result }
{
    let mut at = at;
    let mut row = 0;
    while row < locations {
        let start = row * locations;
        let end = start + locations;
        at = put_line(b"legs=", &legs[start..end], out, at);
        row += 1;
    }
    at
}

// The lines before the legs.
fn put_header(k: u64, allowance: u64, locations: u64, depot: u64, end: u64, out: &mut [u8]) -> usize
    requires { Room (header_text k allowance locations depot end) out.old 0 }
    ensures { Put (header_text k allowance locations depot end) out.old 0 out.new result }
{
    let mut at = put_value(b"k=", k, out, 0);
    at = put_value(b"allowance=", allowance, out, at);
    at = put_value(b"locations=", locations, out, at);
    at = put_value(b"depot=", depot, out, at);
    put_value(b"end=", end, out, at)
}

// The legs, the deadlines and the service times.
fn put_tables(
    locations: usize,
    legs: &[u32],
    latest: &[u32],
    service: &[u32],
    out: &mut [u8],
    at: usize,
) -> usize
    requires { TablesFit (tables locations legs.now latest.now service.now) out.old at }
    ensures { Put (tables_text (tables locations legs.now latest.now service.now)) out.old at out.new result }
{
    let mut at = put_rows(locations, legs, out, at);
    at = put_line(b"latest=", latest, out, at);
    put_line(b"service=", service, out, at)
}

// The whole text into the first places; how many bytes it has.
pub fn write_question(
    k: usize,
    allowance: u64,
    locations: usize,
    legs: &[u32],
    latest: &[u32],
    service: &[u32],
    depot: u32,
    end: u32,
    route: &[u32],
    out: &mut [u8],
) -> usize
    requires { TextFits (question k allowance locations legs.now latest.now service.now depot end route.now) out.old }
    ensures { Put (text_of (question k allowance locations legs.now latest.now service.now depot end route.now)) out.old 0 out.new result }
{
    let mut at = put_header(
        k as u64,
        allowance,
        locations as u64,
        depot as u64,
        end as u64,
        out,
    );
    at = put_tables(locations, legs, latest, service, out, at);
    put_line(b"round=", route, out, at)
}
