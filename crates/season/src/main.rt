// Reports on the blocks on standard input.
#![tactic(auto)]

ghost use Rattle.std.specs.Prelude.{IfSome, OnErr, OnOk, take};
ghost use Rattle.std.specs.Io.KnownBytes.{Appends};
ghost use Rattle.lent_bytes.specs.Lent.{WritesPart};
ghost use Rattle.season_report.specs.Report.{report};

use season_report::ReportSeason;
use std::io::{self, Read, Write};

// Reads blocks and writes the report on them. One byte more than a report's input may have is read, so that a longer one is known. Where it returns an error, what was written is a first part of the
// report, maybe none.
fn report_blocks<R: Read, W: Write>(reader: &mut R, writer: &mut W) -> io::Result<()>
    ensures reported { OnOk result (IfSome (R.remaining reader.old) (λ text. Appends (W.contents writer.old) (W.contents writer.new) (report (take 60001 text)))) }
    ensures part { OnErr result (IfSome (R.remaining reader.old) (λ text. WritesPart (W.contents writer.old) (W.contents writer.new) (report (take 60001 text)))) }
{
    let mut input = [0u8; 60001];
    lent_bytes::answer_input::<256, ReportSeason, R, W>(&mut input, reader, writer)
}

fn main(rt: HostRuntime) -> io::Result<()> {
    report_blocks(&mut rt.stdin(), &mut rt.stdout())
}
