// The legs, the deadlines and the service times of a question, read from bytes into lent places. No entry: crate text_question calls it.
#![tactic(auto)]

ghost use Rattle.std.specs.Prelude.{◌≡◌};
ghost use Rattle.theory.specs.Tables.{tables};
ghost use Rattle.text_lines.specs.Told.{row_told};
ghost use Rattle.text_tables.specs.Tables.{rows, tables_of, tables_told, Square, Sized};

use text_lines::read_row;

// The lines of the legs, row after row.
fn read_rows<'t>(text: &'t [u8], locations: usize, legs: &mut [u32]) -> Option<&'t [u8]>
    requires { Square locations legs.old }
    ensures { rows locations locations text.now ≡ row_told legs.new result }
{
    let mut rest = text;
    for row in 0..locations {
        let start = row * locations;
        let end = start + locations;
        rest = read_row(rest, b"legs=", &mut legs[start..end])?;
    }
    Some(rest)
}

// The legs, the deadlines and the service times.
pub fn read_tables<'t>(
    text: &'t [u8],
    locations: usize,
    legs: &mut [u32],
    latest: &mut [u32],
    service: &mut [u32],
) -> Option<&'t [u8]>
    requires { Sized (tables locations legs.old latest.old service.old) }
    ensures { tables_of locations text.now ≡ tables_told (tables locations legs.new latest.new service.new) result }
{
    let after_legs = read_rows(text, locations, legs)?;
    let after_latest = read_row(after_legs, b"latest=", latest)?;
    read_row(after_latest, b"service=", service)
}
