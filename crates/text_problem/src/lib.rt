// A text read and judged: the problem that polishing takes, in lent places, or why the text is refused. No entry: the crates above call it.
#![tactic(auto)]

ghost use Rattle.std.specs.Prelude.{◌≡◌};
ghost use Rattle.theory.specs.Numbers.{judged};
ghost use Rattle.theory.specs.Tables.{tables};
ghost use Rattle.text_problem.specs.Judged.{ProblemPlaces, Judges, Lies, first_refusal};

use text_question::Header;
use text_round::Stops;
use theory::Refusal;

// A problem and how many stops it has; its tables and stops are in lent places.
#[derive(Clone, Copy, Debug, PartialEq, Eq)]
pub struct ProblemRead {
    pub header: Header,
    pub count: usize,
}

// The first refusal of a problem with so many stops, judged by the highest of them: where it is known, all are.
#[tactic(auto, using(theory::proofs::Checks::judging))]
fn judge(
    header: Header,
    stops: Stops,
    legs: &[u32],
    latest: &[u32],
    service: &[u32],
) -> Result<(), Refusal>
    requires { Lies header (tables 96 legs.now latest.now service.now) }
    ensures { judged result ≡ first_refusal header (tables 96 legs.now latest.now service.now) stops.count stops.highest }
{
    let locations = header.locations;
    let cells = locations * locations;
    let highest = [stops.highest; 1];
    refusal_rules::question_refusal(
        header.k as usize,
        locations,
        &legs[..cells],
        &latest[..locations],
        &service[..locations],
        header.depot,
        header.end,
        &highest,
    )?;
    refusals::check_stop_count(stops.count)
}

// The stops are read once they are judged, so that no more of them need a place than a problem has.
pub fn read_problem(
    text: &[u8],
    legs: &mut [u32],
    latest: &mut [u32],
    service: &mut [u32],
    stops: &mut [u32],
) -> Result<ProblemRead, Refusal>
    requires { ProblemPlaces (tables 96 legs.old latest.old service.old) stops.old }
    ensures { Judges text.now (tables 96 legs.new latest.new service.new) stops.new result }
{
    let question = text_question::read_question(text, legs, latest, service).ok_or(
        Refusal::TextForm,
    )?;
    let header = question.header;
    judge(header, question.stops, legs, latest, service)?;
    let (count, _) = text_lines::read_line(question.round, b"round=", stops).ok_or(
        Refusal::RoundSize,
    )?;
    Ok(ProblemRead { header, count })
}
