// Lengths, length changes and the deadline check, judged, with their value in a lent result or without. No entry: crate mittenschist hands them on.
#![tactic(auto, using(theory::proofs::Checks::replying, crate::proofs::Fine::fine, crate::proofs::Closed::closed, crate::proofs::FeasibleReply::checked))]

ghost use Rattle.std.specs.Prelude.{[], ◌∷◌};
ghost use Rattle.theory.specs.Route.{tour_length};
ghost use Rattle.theory.specs.Numbers.{judged};
ghost use Rattle.theory.specs.Polish.{move_at};
ghost use Rattle.theory.specs.Moves.{patterns};
ghost use Rattle.theory.specs.Tables.{tables, legs_only};
ghost use Rattle.theory.specs.Refusals.{problem_rules};
ghost use Rattle.moves.specs.Moves.{length_change};
ghost use Rattle.refusal_rules.specs.Rules.{route_length_rules, route_length_to_end_rules, delta_rules, delta_to_end_rules};
ghost use Rattle.entry_results.specs.Written.{Written};
ghost use Rattle.measure_calls.specs.Measures.{RouteLengthReply, RouteLengthToEndReply, DeltaReply, DeltaToEndReply, FeasibleReply, late_values};

use theory::{Deadline, Refusal};

// The length of a route from the depot to an end harbour. Refuses 2 (of locations and legs), 3, 4, 24, 5.
pub fn route_length_to_end(
    locations: usize,
    legs: &[u32],
    depot: u32,
    end: u32,
    route: &[u32],
) -> Result<u64, Refusal>
    ensures { RouteLengthToEndReply locations legs.now depot end route.now result }
{
    refusal_rules::route_length_refusal(locations, legs, depot, end, route)?;
    Ok(costs::route_length(locations, legs, depot, end, route))
}

// The length of a closed tour. Refuses 2 (of locations and legs), 3, 4, 5.
pub fn route_length(
    locations: usize,
    legs: &[u32],
    depot: u32,
    route: &[u32],
) -> Result<u64, Refusal>
    ensures { RouteLengthReply locations legs.now depot route.now result }
{
    route_length_to_end(locations, legs, depot, depot, route)
}

// The length after a move minus the length before, to an end harbour. Refuses 1, 2 (of locations and legs), 3, 4, 24, 5, 6, 7.
pub fn delta_to_end(
    k: usize,
    pattern: usize,
    cuts: &[usize],
    locations: usize,
    legs: &[u32],
    depot: u32,
    end: u32,
    route: &[u32],
) -> Result<i64, Refusal>
    ensures { DeltaToEndReply k pattern cuts.now locations legs.now depot end route.now result }
{
    refusal_rules::delta_refusal(k, pattern, cuts, locations, legs, depot, end, route)?;
    Ok(moves::delta_pattern(k, pattern, cuts, locations, legs, depot, end, route))
}

// The same of closed tours. Refuses 1, 2 (of locations and legs), 3 to 7.
pub fn delta(
    k: usize,
    pattern: usize,
    cuts: &[usize],
    locations: usize,
    legs: &[u32],
    depot: u32,
    route: &[u32],
) -> Result<i64, Refusal>
    ensures { DeltaReply k pattern cuts.now locations legs.now depot route.now result }
{
    delta_to_end(k, pattern, cuts, locations, legs, depot, depot, route)
}

// The deadline check. Refuses 2, 3, 23, 4, 5.
pub fn route_feasible(
    locations: usize,
    legs: &[u32],
    latest: &[u32],
    service: &[u32],
    depot: u32,
    route: &[u32],
) -> Result<Deadline, Refusal>
    ensures { FeasibleReply (tables locations legs.now latest.now service.now) depot route.now result }
{
    refusals::check_problem(locations, legs, latest, service, depot, route)?;
    let answer = deadlines::check_deadlines(locations, legs, latest, service, depot, route);
    Ok(answer)
}

// Refuses 2, 3, 4, 24, 5, 21.
pub fn write_route_length_to_end(
    locations: usize,
    legs: &[u32],
    depot: u32,
    end: u32,
    route: &[u32],
    res: &mut [u64],
) -> Result<(), Refusal>
    ensures { Written (route_length_to_end_rules locations legs.now depot end route.now) 1 (tour_length (legs_only locations legs.now depot end) route.now ∷ []) res.old (judged result) res.new }
{
    entry_results::put_value(route_length_to_end(locations, legs, depot, end, route), res)
}

// Refuses 2, 3, 4, 5, 21.
pub fn write_route_length(
    locations: usize,
    legs: &[u32],
    depot: u32,
    route: &[u32],
    res: &mut [u64],
) -> Result<(), Refusal>
    ensures { Written (route_length_rules locations legs.now depot route.now) 1 (tour_length (legs_only locations legs.now depot depot) route.now ∷ []) res.old (judged result) res.new }
{
    entry_results::put_value(route_length(locations, legs, depot, route), res)
}

// Refuses 1 to 4, 24, 5 to 7, 21.
pub fn write_delta_to_end(
    k: usize,
    pattern: usize,
    cuts: &[usize],
    locations: usize,
    legs: &[u32],
    depot: u32,
    end: u32,
    route: &[u32],
    res: &mut [i64],
) -> Result<(), Refusal>
    ensures { Written (delta_to_end_rules k pattern cuts.now locations legs.now depot end route.now) 1 (length_change (legs_only locations legs.now depot end) (move_at (patterns k) cuts.now pattern) route.now ∷ []) res.old (judged result) res.new }
{
    entry_results::put_value(
        delta_to_end(k, pattern, cuts, locations, legs, depot, end, route),
        res,
    )
}

// Refuses 1 to 7, 21.
pub fn write_delta(
    k: usize,
    pattern: usize,
    cuts: &[usize],
    locations: usize,
    legs: &[u32],
    depot: u32,
    route: &[u32],
    res: &mut [i64],
) -> Result<(), Refusal>
    ensures { Written (delta_rules k pattern cuts.now locations legs.now depot route.now) 1 (length_change (legs_only locations legs.now depot depot) (move_at (patterns k) cuts.now pattern) route.now ∷ []) res.old (judged result) res.new }
{
    entry_results::put_value(delta(k, pattern, cuts, locations, legs, depot, route), res)
}

// The lowest late position, or the number of stops where every deadline is kept. Refuses 2, 3, 23, 4, 5, 21.
pub fn write_route_feasible(
    locations: usize,
    legs: &[u32],
    latest: &[u32],
    service: &[u32],
    depot: u32,
    route: &[u32],
    res: &mut [u64],
) -> Result<(), Refusal>
    ensures { Written (problem_rules (tables locations legs.now latest.now service.now) depot route.now) 1 (late_values (tables locations legs.now latest.now service.now) depot route.now) res.old (judged result) res.new }
{
    let answer = route_feasible(locations, legs, latest, service, depot, route)?;
    entry_results::put(&[entry_results::position_of(answer, route.len())], res)
}
