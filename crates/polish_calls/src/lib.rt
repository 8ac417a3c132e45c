// Polishing with every pattern and the pair loop, judged, with their six numbers in a lent result. No entry: crate mittenschist hands them on.
#![tactic(auto)]

ghost use Rattle.theory.specs.Numbers.{judged};
ghost use Rattle.theory.specs.Tables.{tables};
ghost use Rattle.theory.specs.Question.{question, question_with_pairs};
ghost use Rattle.polish_calls.specs.Polishing.{PolishReply, PolishToEndReply, PolishWithPairsReply, PairLoopReply};

use polishing::{polish_route, polish_with_pairs};
use theory::Refusal;

// Polishes a route from the depot to an end harbour. Refuses 1, 2, 3, 23, 4, 24, 5, 21. The result receives 0 finished or 1 spent, examined, accepted, length
// before, length after, and the lowest late position of the route handed back, or the number of its stops for none.
pub fn polish_route_to_end(
    k: usize,
    allowance: u64,
    locations: usize,
    legs: &[u32],
    latest: &[u32],
    service: &[u32],
    depot: u32,
    end: u32,
    route: &mut [u32],
    res: &mut [u64],
) -> Result<(), Refusal>
    ensures { PolishToEndReply (question k allowance locations legs.now latest.now service.now depot end route.old) res.old (judged result) route.new res.new }
{
    refusal_rules::polish_refusal(
        k,
        locations,
        legs,
        latest,
        service,
        depot,
        end,
        &route[..],
        res.len(),
    )?;
    let none = [0u64; 1];
    let answer = polish_route(
        k,
        allowance,
        locations,
        legs,
        latest,
        service,
        depot,
        end,
        &legs[..0],
        &none[..0],
        route,
    );
    polish_numbers::put_polished(answer, res);
    Ok(())
}

// Polishes a closed tour. Refuses 1, 2, 3, 23, 4, 5, 21.
pub fn polish_closed_tour(
    k: usize,
    allowance: u64,
    locations: usize,
    legs: &[u32],
    latest: &[u32],
    service: &[u32],
    depot: u32,
    route: &mut [u32],
    res: &mut [u64],
) -> Result<(), Refusal>
    ensures { PolishReply (question k allowance locations legs.now latest.now service.now depot depot route.old) res.old (judged result) route.new res.new }
{
    polish_route_to_end(
        k, allowance, locations, legs, latest, service, depot, depot, route, res,
    )
}

// With the words of the pairs, which are made here and filled.
fn polish_by_words(
    k: usize,
    allowance: u64,
    locations: usize,
    legs: &[u32],
    latest: &[u32],
    service: &[u32],
    depot: u32,
    end: u32,
    pairs: &[u32],
    route: &mut [u32],
    res: &mut [u64],
) -> Result<(), Refusal>
    ensures { PolishWithPairsReply (question_with_pairs k allowance locations legs.now latest.now service.now depot end pairs.now route.old) res.old (judged result) route.new res.new }
{
    refusal_rules::polish_paired_refusal(
        k,
        locations,
        legs,
        latest,
        service,
        depot,
        end,
        pairs,
        &route[..],
        res.len(),
    )?;
    let answer = polish_with_pairs(
        k, allowance, locations, legs, latest, service, depot, end, pairs, route,
    );
    polish_numbers::put_polished(answer, res);
    Ok(())
}

// Polishes a route that keeps pairs of locations, the first before the second: their members end to end. Refuses 1, 2, 3, 23, 4, 24, 29, 5, 21. With an empty list no word is made.
pub fn polish_route_with_pairs(
    k: usize,
    allowance: u64,
    locations: usize,
    legs: &[u32],
    latest: &[u32],
    service: &[u32],
    depot: u32,
    end: u32,
    pairs: &[u32],
    route: &mut [u32],
    res: &mut [u64],
) -> Result<(), Refusal>
    ensures { PolishWithPairsReply (question_with_pairs k allowance locations legs.now latest.now service.now depot end pairs.now route.old) res.old (judged result) route.new res.new }
{
    if pairs.len() == 0 {
        return polish_route_to_end(
            k, allowance, locations, legs, latest, service, depot, end, route, res,
        );
    }
    polish_by_words(
        k, allowance, locations, legs, latest, service, depot, end, pairs, route, res,
    )
}

// The pair loop over a route. Refuses 2, 3, 23, 4, 5, 21. The result receives the six numbers of polishing; the length after may be above the length before.
pub fn try_pair_loop(
    allowance: u64,
    locations: usize,
    legs: &[u32],
    latest: &[u32],
    service: &[u32],
    depot: u32,
    route: &mut [u32],
    res: &mut [u64],
) -> Result<(), Refusal>
    ensures { PairLoopReply allowance (tables locations legs.now latest.now service.now) depot route.old res.old (judged result) route.new res.new }
{
    refusal_rules::pair_loop_refusal(
        locations,
        legs,
        latest,
        service,
        depot,
        &route[..],
        res.len(),
    )?;
    let answer = pair_loop::pair_loop(allowance, locations, legs, latest, service, depot, route);
    polish_numbers::put_polished(answer, res);
    Ok(())
}
