// A text read, judged and polished in lent places: what the text program and the season report stand on. No entry: crates text and season_report call it.
#![tactic(auto)]

ghost use Rattle.theory.specs.Tables.{tables};
ghost use Rattle.text_problem.specs.Judged.{ProblemPlaces};
ghost use Rattle.text_polishing.specs.Outcome.{Asked, PolishedIn, Tells};

use text_problem::ProblemRead;
use theory::{Polished, Refusal};

// What came of a question that was polished, and the number of its stops, which are in lent places.
#[derive(Clone, Copy, Debug, PartialEq, Eq)]
pub struct TextAnswer {
    pub polished: Polished,
    pub count: usize,
}

// The problem that was read, polished in its place. A text holds no pairs.
fn polish_problem(
    problem: ProblemRead,
    legs: &[u32],
    latest: &[u32],
    service: &[u32],
    stops: &mut [u32],
) -> Polished
    requires { Asked problem.header problem.count (tables 96 legs.now latest.now service.now) stops.old }
    ensures { PolishedIn problem.header problem.count (tables 96 legs.now latest.now service.now) stops.old result stops.new }
{
    let ProblemRead { header, count } = problem;
    let k = header.k as usize;
    let allowance = header.allowance as u64;
    let locations = header.locations;
    let cells = locations * locations;
    let none = [0u64; 1];
    polishing::polish_route(
        k,
        allowance,
        locations,
        &legs[..cells],
        &latest[..locations],
        &service[..locations],
        header.depot,
        header.end,
        &legs[..0],
        &none[..0],
        &mut stops[..count],
    )
}

pub fn polish_in_places(
    text: &[u8],
    legs: &mut [u32],
    latest: &mut [u32],
    service: &mut [u32],
    stops: &mut [u32],
) -> Result<TextAnswer, Refusal>
    requires { ProblemPlaces (tables 96 legs.old latest.old service.old) stops.old }
    ensures { Tells text.now stops.new result }
{
    let problem = text_problem::read_problem(text, legs, latest, service, stops)?;
    let polished = polish_problem(problem, legs, latest, service, stops);
    Ok(TextAnswer {
        polished,
        count: problem.count,
    })
}
