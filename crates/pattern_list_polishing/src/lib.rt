// Polishing with a list of patterns that the caller lends, judged; with pairs, or without. No entry: crate mittenschist hands it on.
#![tactic(auto)]

ghost use Rattle.std.specs.Prelude.{◌≡◌, [], ◌++◌};
ghost use Rattle.theory.specs.Numbers.{judged};
ghost use Rattle.theory.specs.Answers.{Polishes};
ghost use Rattle.theory.specs.Tables.{problem, pattern_rows, trip};
ghost use Rattle.theory.specs.Question.{question, question_with_pairs};
ghost use Rattle.theory.specs.Refusals.{refusal, trip_rules, paired_rules};
ghost use Rattle.refusal_rules.specs.Rules.{with_room};
ghost use Rattle.pattern_lists.specs.Lists.{list_rules};
ghost use Rattle.pattern_list_polishing.specs.Polishing.{PolishWithPatternsReply, PolishWithPatternsAndPairsReply, RowsWithPairs};

use precedence::MEMBERS;
use theory::{Polished, Refusal};

// What polishing with a list is handed, judged by 1, 26, 27, 28, 2, 3, 23, 4, 24, 5, 21.
fn polish_refusal(
    k: usize,
    orders: &[u8],
    masks: &[u8],
    locations: usize,
    legs: &[u32],
    latest: &[u32],
    service: &[u32],
    depot: u32,
    end: u32,
    route: &[u32],
    lent: usize,
) -> Result<(), Refusal>
    ensures { judged result ≡ refusal (with_room (list_rules k orders.now masks.now ++ trip_rules (trip locations legs.now latest.now service.now depot end []) route.now) 6 lent) }
{
    pattern_lists::list_refusal(k, orders, masks)?;
    refusals::check_trip(locations, legs, latest, service, depot, end, route)?;
    refusals::check_room(6, lent)
}

// Polishes a route with the rows of a list, in their order; the six numbers of polishing into the first places of the result.
pub fn polish_with_patterns(
    k: usize,
    orders: &[u8],
    masks: &[u8],
    allowance: u64,
    locations: usize,
    legs: &[u32],
    latest: &[u32],
    service: &[u32],
    depot: u32,
    end: u32,
    route: &mut [u32],
    res: &mut [u64],
) -> Result<(), Refusal>
    ensures { PolishWithPatternsReply (question k allowance locations legs.now latest.now service.now depot end route.old) orders.now masks.now res.old (judged result) route.new res.new }
{
    polish_refusal(
        k,
        orders,
        masks,
        locations,
        legs,
        latest,
        service,
        depot,
        end,
        &route[..],
        res.len(),
    )?;
    let none = [0u64; 1];
    let answer = polishing::polish_rows(
        k,
        allowance,
        locations,
        legs,
        latest,
        service,
        depot,
        end,
        &legs[..0],
        &none[..0],
        orders,
        masks,
        route,
    );
    polish_numbers::put_polished(answer, res);
    Ok(())
}

// ---- with pairs

// The same judged, with 29 behind 24.
fn polish_paired_refusal(
    k: usize,
    orders: &[u8],
    masks: &[u8],
    locations: usize,
    legs: &[u32],
    latest: &[u32],
    service: &[u32],
    depot: u32,
    end: u32,
    pairs: &[u32],
    route: &[u32],
    lent: usize,
) -> Result<(), Refusal>
    ensures { judged result ≡ refusal (with_room (list_rules k orders.now masks.now ++ paired_rules (trip locations legs.now latest.now service.now depot end pairs.now) route.now) 6 lent) }
{
    pattern_lists::list_refusal(k, orders, masks)?;
    refusal_rules::paired_refusal(locations, legs, latest, service, depot, end, pairs, route)?;
    refusals::check_room(6, lent)
}

// Polishing with the words of the pairs, which stand here alone.
fn polish_rows_with_pairs(
    k: usize,
    allowance: u64,
    locations: usize,
    legs: &[u32],
    latest: &[u32],
    service: &[u32],
    depot: u32,
    end: u32,
    pairs: &[u32],
    orders: &[u8],
    masks: &[u8],
    route: &mut [u32],
) -> Polished
    requires { RowsWithPairs k (trip locations legs.now latest.now service.now depot end pairs.now) orders.now masks.now route.old }
    ensures { Polishes (problem (trip locations legs.now latest.now service.now depot end pairs.now)) (pattern_rows k orders.now masks.now) k allowance route.old result route.new }
{
    let mut members = [0u64; MEMBERS];
    precedence::fill_members(pairs, &mut members);
    polishing::polish_rows(
        k,
        allowance,
        locations,
        legs,
        latest,
        service,
        depot,
        end,
        pairs,
        &members[..],
        orders,
        masks,
        route,
    )
}

// With the words of the pairs, which are made and filled.
fn polish_list_by_words(
    k: usize,
    orders: &[u8],
    masks: &[u8],
    allowance: u64,
    locations: usize,
    legs: &[u32],
    latest: &[u32],
    service: &[u32],
    depot: u32,
    end: u32,
    pairs: &[u32],
    route: &mut [u32],
    res: &mut [u64],
) -> Result<(), Refusal>
    ensures { PolishWithPatternsAndPairsReply (question_with_pairs k allowance locations legs.now latest.now service.now depot end pairs.now route.old) orders.now masks.now res.old (judged result) route.new res.new }
{
    polish_paired_refusal(
        k,
        orders,
        masks,
        locations,
        legs,
        latest,
        service,
        depot,
        end,
        pairs,
        &route[..],
        res.len(),
    )?;
    let answer = polish_rows_with_pairs(
        k, allowance, locations, legs, latest, service, depot, end, pairs, orders, masks, route,
    );
    polish_numbers::put_polished(answer, res);
    Ok(())
}

// Polishes a route that keeps the pairs, with the rows of a list. With an empty list no word is made.
pub fn polish_with_patterns_and_pairs(
    k: usize,
    orders: &[u8],
    masks: &[u8],
    allowance: u64,
    locations: usize,
    legs: &[u32],
    latest: &[u32],
    service: &[u32],
    depot: u32,
    end: u32,
    pairs: &[u32],
    route: &mut [u32],
    res: &mut [u64],
) -> Result<(), Refusal>
    ensures { PolishWithPatternsAndPairsReply (question_with_pairs k allowance locations legs.now latest.now service.now depot end pairs.now route.old) orders.now masks.now res.old (judged result) route.new res.new }
{
    if pairs.len() == 0 {
        return polish_with_patterns(
            k, orders, masks, allowance, locations, legs, latest, service, depot, end, route, res,
        );
    }
    polish_list_by_words(
        k, orders, masks, allowance, locations, legs, latest, service, depot, end, pairs, route,
        res,
    )
}
