// The answer of the text program, written into lent bytes. No entry: the program above calls it.
#![tactic(auto)]

ghost use Rattle.text_decimal.specs.Text.{Room, Put};
ghost use Rattle.text_printing.specs.Answer.{outcome, late_line, answer_text, refusal_text, Fits, Printed};

use text_decimal::put_text;
use text_putting::{put_line, put_value};

// The line that says how the polishing ended.
fn put_outcome(finished: bool, out: &mut [u8], at: usize) -> usize
    requires { Room (outcome finished) out.old at }
    ensures { Put (outcome finished) out.old at out.new result }
{
    if finished {
        return put_text(b"answer=finished\n", out, at);
    }
    put_text(b"answer=spent\n", out, at)
}

// The line of the lowest late position, for which the number of stops stands for none: `none_exactly` speaks of that number.
fn put_late(late: u64, route: &[u32], out: &mut [u8], at: usize) -> usize
    requires { Room (late_line late route.now) out.old at }
    ensures { Put (late_line late route.now) out.old at out.new result }
{
    if late == route.len() as u64 {
        return put_text(b"late=none\n", out, at);
    }
    put_value(b"late=", late, out, at)
}

// The answer to a polished route; how many bytes it has.
pub fn print_answer(
    finished: bool,
    examined: u64,
    accepted: u64,
    before: u64,
    after: u64,
    late: u64,
    route: &[u32],
    out: &mut [u8],
) -> usize
    requires { Fits (answer_text finished examined accepted before after late route.now) out.old }
    ensures { Printed (answer_text finished examined accepted before after late route.now) out.old out.new result }
{
    let mut at = put_outcome(finished, out, 0);
    at = put_value(b"examined=", examined, out, at);
    at = put_value(b"accepted=", accepted, out, at);
    at = put_value(b"before=", before, out, at);
    at = put_value(b"after=", after, out, at);
    at = put_line(b"round=", route, out, at);
    put_late(late, route, out, at)
}

// The answer to a text that is refused; how many bytes it has. The number is no `Refusal`, since the season report has one of its own.
pub fn print_refusal(number: u32, out: &mut [u8]) -> usize
    requires { Fits (refusal_text number) out.old }
    ensures { Printed (refusal_text number) out.old out.new result }
{
    put_value(b"refused=", number as u64, out, 0)
}
