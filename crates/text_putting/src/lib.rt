// Lines of numbers, written into lent bytes: those of the program's answer, and those of a problem. No entry: the crates above call it.
#![tactic(auto)]

ghost use Rattle.std.specs.Prelude.{[], ◌∷◌};
ghost use Rattle.text_decimal.specs.Text.{further, listed, line, Room, Put};

use text_decimal::{put_number, put_text};

// Each number after a comma.
fn put_further(values: &[u32], out: &mut [u8], at: usize) -> usize
    requires { Room (further values.now) out.old at }
    ensures { Put (further values.now) out.old at out.new result }
{
    let mut at = at;
    for &value in values {
        let number = put_text(b",", out, at);
        at = put_number(u64::from(value), out, number);
    }
    at
}

// Numbers with commas between.
fn put_list(values: &[u32], out: &mut [u8], at: usize) -> usize
    requires { Room (listed values.now) out.old at }
    ensures { Put (listed values.now) out.old at out.new result }
{
    let [first, others @ ..] = values else {
        return at;
    };
    let rest = put_number(u64::from(*first), out, at);
    put_further(others, out, rest)
}

// A line of one number.
pub fn put_value(key: &[u8], value: u64, out: &mut [u8], at: usize) -> usize
    requires { Room (line key.now (value ∷ [])) out.old at }
    ensures { Put (line key.now (value ∷ [])) out.old at out.new result }
{
    let number = put_text(key, out, at);
    let end = put_number(value, out, number);
    put_text(b"\n", out, end)
}

// A line of numbers.
pub fn put_line(key: &[u8], values: &[u32], out: &mut [u8], at: usize) -> usize
    requires { Room (line key.now values.now) out.old at }
    ensures { Put (line key.now values.now) out.old at out.new result }
{
    let list = put_text(key, out, at);
    let line_end = put_list(values, out, list);
    put_text(b"\n", out, line_end)
}
