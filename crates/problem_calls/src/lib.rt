// A problem written as text, judged as polishing judges it; and what writing and reading promise. No entry: crate mittenschist hands it on.
#![tactic(auto)]

ghost use Rattle.theory.specs.Numbers.{judged};
ghost use Rattle.theory.specs.Question.{question};
ghost use Rattle.problem_calls.specs.Problems.{WriteReply, Accepted, SizeTold};

use theory::Refusal;

// How many bytes a problem's text has; none of a problem that is beyond the text's bounds. They are asked in the order in which they can be: the size only where its sums are small.
fn bounded_size(
    k: usize,
    allowance: u64,
    locations: usize,
    legs: &[u32],
    latest: &[u32],
    service: &[u32],
    depot: u32,
    end: u32,
    route: &[u32],
) -> Option<usize>
    requires { Accepted (question k allowance locations legs.now latest.now service.now depot end route.now) }
    ensures { SizeTold (question k allowance locations legs.now latest.now service.now depot end route.now) result }
{
    if locations > 96 {
        return None;
    }
    if allowance > 4294967295 {
        return None;
    }
    let size = text_sizes::question_size(
        k, allowance, locations, legs, latest, service, depot, end, route,
    );
    if size > 60000 {
        return None;
    }
    Some(size)
}

// A problem's text into the first places of the lent text, and its number of bytes as the result. Refuses 1, 2, 3, 23, 4, 24, 5, 31, 21.
pub fn write_problem(
    k: usize,
    allowance: u64,
    locations: usize,
    legs: &[u32],
    latest: &[u32],
    service: &[u32],
    depot: u32,
    end: u32,
    route: &[u32],
    text: &mut [u8],
    res: &mut [u64],
) -> Result<(), Refusal>
    ensures { WriteReply (question k allowance locations legs.now latest.now service.now depot end route.now) text.old res.old (judged result) text.new res.new }
{
    refusal_rules::question_refusal(k, locations, legs, latest, service, depot, end, route)?;
    let size = bounded_size(
        k, allowance, locations, legs, latest, service, depot, end, route,
    )
    .ok_or(Refusal::TextBounds)?;
    refusals::check_room(size, text.len())?;
    refusals::check_room(1, res.len())?;
    let written = text_writing::write_question(
        k, allowance, locations, legs, latest, service, depot, end, route, text,
    );
    res[0] = written as u64;
    Ok(())
}
