// The season report as text, put into lent bytes. No entry: crate season_report calls it.
#![tactic(auto)]

ghost use Rattle.text_decimal.specs.Text.{Room, Put};
ghost use Rattle.text_printing.specs.Answer.{Printed};
ghost use Rattle.season_printing.specs.Lines.{value_or_none, sums_text, Printable};

use season_numbers::Sums;
use text_decimal::put_text;
use text_putting::put_value;

// A line of one number, or of none where no round was accepted.
fn put_value_or_none(key: &[u8], rounds: usize, value: u64, out: &mut [u8], at: usize) -> usize
    requires { Room (value_or_none key.now rounds value) out.old at }
    ensures { Put (value_or_none key.now rounds value) out.old at out.new result }
{
    if rounds == 0 {
        let none = put_text(key, out, at);
        return put_text(b"none\n", out, none);
    }
    put_value(key, value, out, at)
}

// The report; how many bytes it has.
pub fn print_season(sums: Sums, middle: u64, out: &mut [u8]) -> usize
    requires { Printable sums out.old }
    ensures { Printed (sums_text sums middle) out.old out.new result }
{
    let rounds = sums.rounds;
    let mut at = put_value(b"rounds=", rounds as u64, out, 0);
    at = put_value(b"refused=", sums.refused, out, at);
    at = put_value(b"before=", sums.before, out, at);
    at = put_value(b"after=", sums.after, out, at);
    let saved = sums.before - sums.after;
    at = put_value(b"saved=", saved, out, at);
    at = put_value_or_none(b"longest=", rounds, sums.longest, out, at);
    put_value_or_none(b"middle=", rounds, middle, out, at)
}
