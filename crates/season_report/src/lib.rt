// The season report's function from bytes to bytes: each block is polished as the text program does, and the numbers of all are printed.
#![tactic(auto)]

ghost use Rattle.std.specs.Prelude.{◌≡◌, map, take};
ghost use Rattle.theory.specs.Tables.{tables};
ghost use Rattle.theory.specs.Answers.{counts_of};
ghost use Rattle.text_problem.specs.Judged.{ProblemPlaces};
ghost use Rattle.text_polishing.specs.Outcome.{lengths};
ghost use Rattle.text_printing.specs.Answer.{Printed};
ghost use Rattle.season_blocks.specs.Blocks.{parts};
ghost use Rattle.season_numbers.specs.Adding.{lengths_told, Summed};
ghost use Rattle.season_printing.specs.Lines.{season_text};
ghost use Rattle.season_report.specs.Report.{report, Work, Parts, Room};

use lent_bytes::{Filled, Program};
use season_numbers::{BlockLengths, Sums};
use theory::Polished;

// "A finished or spent one is accepted."
fn accepted_lengths(answer: Polished) -> BlockLengths
    ensures before { result.before ≡ (counts_of answer).before }
    ensures after { result.after ≡ (counts_of answer).after }
{
    match answer {
        Polished::Finished(counts) | Polished::Spent(counts) => BlockLengths {
            before: counts.before,
            after: counts.after,
        },
    }
}

// The lengths of a block, polished in lent places; none where it is refused.
fn block_lengths(
    text: &[u8],
    legs: &mut [u32],
    latest: &mut [u32],
    service: &mut [u32],
    stops: &mut [u32],
) -> Option<BlockLengths>
    requires { ProblemPlaces (tables 96 legs.old latest.old service.old) stops.old }
    ensures { lengths_told result ≡ lengths text.now }
{
    match text_polishing::polish_in_places(text, legs, latest, service, stops) {
        Ok(answer) => Some(accepted_lengths(answer.polished)),
        Err(_) => None,
    }
}

// The blocks that end at these places, one after the other.
fn add_blocks(
    text: &[u8],
    ends: &[usize],
    legs: &mut [u32],
    latest: &mut [u32],
    service: &mut [u32],
    stops: &mut [u32],
    afters: &mut [u64],
) -> Sums
    requires { Work text.now ends.now (tables 96 legs.old latest.old service.old) stops.old afters.old }
    ensures { Summed (map lengths (parts text.now 0 ends.now)) result afters.new }
{
    let mut sums = Sums {
        rounds: 0,
        refused: 0,
        before: 0,
        after: 0,
        longest: 0,
    };
    let mut from = 0;
    for &end in ends {
        let block = block_lengths(&text[from..end], legs, latest, service, stops);
        sums = season_numbers::add_block(sums, block, afters);
        from = end + 5;
    }
    sums
}

// The report on the blocks that end at these places; how many bytes it has.
fn report_blocks(text: &[u8], ends: &[usize], out: &mut [u8]) -> usize
    requires { Parts text.now ends.now out.old }
    ensures { Printed (season_text (map lengths (parts text.now 0 ends.now))) out.old out.new result }
{
    let mut legs = [0u32; 9216];
    let mut latest = [0u32; 96];
    let mut service = [0u32; 96];
    let mut stops = [0u32; 512];
    let mut afters = [0u64; 64];
    let sums = add_blocks(
        text,
        ends,
        &mut legs,
        &mut latest,
        &mut service,
        &mut stops,
        &mut afters,
    );
    let middle = season_numbers::middle(&afters, sums.rounds);
    season_printing::print_season(sums, middle, out)
}

// The report, or the refusal of an input that is too long or has too many blocks, which are counted before any is read.
fn report_text(text: &[u8], out: &mut [u8]) -> usize
    requires { Room out.old }
    ensures { Printed (report text.now) out.old out.new result }
{
    // 30 is the report's own refusal; the enum has those of the calls.
    if text.len() > 60000 {
        return text_printing::print_refusal(30, out);
    }
    let mut ends = [0usize; 64];
    let Some(count) = season_blocks::part_blocks(text, &mut ends) else {
        return text_printing::print_refusal(30, out);
    };
    report_blocks(text, &ends[..count], out)
}

// The program, from bytes to bytes.
pub fn report_season(text: &[u8]) -> Filled<256>
    ensures { take result.length result.bytes ≡ report text.now }
{
    let mut bytes = [0u8; 256];
    let length = report_text(text, &mut bytes);
    Filled::new(bytes, length)
}

// The program as one that answers an input.
pub struct ReportSeason;

impl Program<256> for ReportSeason {
    ghost answer = { report };

    fn run(text: &[u8]) -> Filled<256> {
        report_season(text)
    }
}
