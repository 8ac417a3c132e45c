// Polishes the round on standard input and writes the answer.
#![tactic(auto)]

ghost use Rattle.std.specs.Prelude.{IfSome, OnErr, OnOk, take};
ghost use Rattle.std.specs.Io.KnownBytes.{Appends};
ghost use Rattle.lent_bytes.specs.Lent.{WritesPart};
ghost use Rattle.text.specs.Program.{program};

use std::io::{self, Read, Write};
use text::PolishText;

// Reads a text and writes its answer. One byte more than a text may have is read, so that a longer one is known. Where it returns an error, what was written is a first part of the
// answer, maybe none.
fn answer_text<R: Read, W: Write>(reader: &mut R, writer: &mut W) -> io::Result<()>
    ensures answered { OnOk result (IfSome (R.remaining reader.old) (λ text. Appends (W.contents writer.old) (W.contents writer.new) (program (take 60001 text)))) }
    ensures part { OnErr result (IfSome (R.remaining reader.old) (λ text. WritesPart (W.contents writer.old) (W.contents writer.new) (program (take 60001 text)))) }
{
    let mut input = [0u8; 60001];
    lent_bytes::answer_input::<6500, PolishText, R, W>(&mut input, reader, writer)
}

fn main(rt: HostRuntime) -> io::Result<()> {
    answer_text(&mut rt.stdin(), &mut rt.stdout())
}
