// The text program's function from bytes to bytes: a question is read, judged and polished in crate text_polishing, and the answer printed.
#![tactic(auto)]

ghost use Rattle.std.specs.Prelude.{◌≡◌, take};
ghost use Rattle.theory.specs.Tables.{tables};
ghost use Rattle.text_printing.specs.Answer.{Printed};
ghost use Rattle.text.specs.Program.{program, counts_text, polished_text, Printable, Work};

use lent_bytes::{Filled, Program};
use theory::{Counts, Polished};

// Any answer has room.
fn print_counts(finished: bool, counts: Counts, route: &[u32], out: &mut [u8]) -> usize
    requires { Printable route.now out.old }
    ensures { Printed (counts_text finished counts route.now) out.old out.new result }
{
    text_printing::print_answer(
        finished,
        counts.examined,
        counts.accepted,
        counts.before,
        counts.after,
        counts.late,
        route,
        out,
    )
}

fn print_polished(answer: Polished, route: &[u32], out: &mut [u8]) -> usize
    requires { Printable route.now out.old }
    ensures { Printed (polished_text answer route.now) out.old out.new result }
{
    match answer {
        Polished::Finished(counts) => print_counts(true, counts, route, out),
        Polished::Spent(counts) => print_counts(false, counts, route, out),
    }
}

// The answer to a text, in lent places.
fn answer_text(
    text: &[u8],
    legs: &mut [u32],
    latest: &mut [u32],
    service: &mut [u32],
    stops: &mut [u32],
    out: &mut [u8],
) -> usize
    requires { Work (tables 96 legs.old latest.old service.old) stops.old out.old }
    ensures { Printed (program text.now) out.old out.new result }
{
    match text_polishing::polish_in_places(text, legs, latest, service, stops) {
        Err(refusal) => text_printing::print_refusal(refusal.number(), out),
        Ok(answer) => print_polished(answer.polished, &stops[..answer.count], out),
    }
}

// The program, from bytes to bytes.
pub fn polish_text(text: &[u8]) -> Filled<6500>
    ensures { take result.length result.bytes ≡ program text.now }
{
    let mut legs = [0u32; 9216];
    let mut latest = [0u32; 96];
    let mut service = [0u32; 96];
    let mut stops = [0u32; 512];
    let mut bytes = [0u8; 6500];
    let length = answer_text(
        text,
        &mut legs,
        &mut latest,
        &mut service,
        &mut stops,
        &mut bytes,
    );
    Filled::new(bytes, length)
}

// The program as one that answers an input.
pub struct PolishText;

impl Program<6500> for PolishText {
    ghost answer = { program };

    fn run(text: &[u8]) -> Filled<6500> {
        polish_text(text)
    }
}
