// The C functions: each calls the entry of its name, and promises what that promises.
#![tactic(auto)]

ghost use Rattle.std.specs.Prelude.{[], ◌∷◌, ◌+◌};
ghost use Rattle.theory.specs.Route.{tour_length};
ghost use Rattle.theory.specs.Polish.{move_at};
ghost use Rattle.theory.specs.Moves.{patterns};
ghost use Rattle.theory.specs.Tables.{tables, trip, fleet, legs_only};
ghost use Rattle.theory.specs.Question.{question, question_with_pairs};
ghost use Rattle.theory.specs.Refusals.{problem_rules};
ghost use Rattle.entry_results.specs.Written.{Written};
ghost use Rattle.listing_calls.specs.Listings.{NearbyWritten, EveryWritten};
ghost use Rattle.move_calls.specs.Entries.{DoMoveReply, UndoReply, doable_rules, doable_values};
ghost use Rattle.moves.specs.Moves.{length_change, pattern_values};
ghost use Rattle.pattern_list_loading.specs.Loading.{LoadReply};
ghost use Rattle.pattern_list_polishing.specs.Polishing.{PolishWithPatternsReply, PolishWithPatternsAndPairsReply};
ghost use Rattle.refusal_rules.specs.Rules.{route_length_rules, route_length_to_end_rules, pattern_rules, delta_rules, delta_to_end_rules};
ghost use Rattle.measure_calls.specs.Measures.{late_values};
ghost use Rattle.cut_calls.specs.Cuts.{NextCutSetWritten, ReconnectReply, FindMoveWritten};
ghost use Rattle.problem_calls.specs.Problems.{WriteReply, ReadReply};
ghost use Rattle.desks.specs.Desks.{WhichDesk};
ghost use Rattle.polish_calls.specs.Polishing.{PolishReply, PolishToEndReply, PolishWithPairsReply, PairLoopReply};
ghost use Rattle.slice_calls.specs.Slicing.{PolishSliceReply};
ghost use Rattle.run_calls.specs.Runs.{RunReply, RunToEndsReply, RunWithPairsReply, SharesReply};
ghost use Rattle.way_back.specs.WayBack.{WayBackReply};

#[unsafe(no_mangle)]
pub extern "C" fn mittenschist_polish_route_to_end(
    k: usize,
    allowance: u64,
    locations: usize,
    legs: &[u32],
    latest: &[u32],
    service: &[u32],
    depot: u32,
    end: u32,
    route: &mut [u32],
    res: &mut [u64],
) -> u32
    ensures { PolishToEndReply (question k allowance locations legs.now latest.now service.now depot end route.old) res.old result route.new res.new }
{
    mittenschist::mittenschist_polish_route_to_end(
        k, allowance, locations, legs, latest, service, depot, end, route, res,
    )
}

#[unsafe(no_mangle)]
pub extern "C" fn mittenschist_polish_route(
    k: usize,
    allowance: u64,
    locations: usize,
    legs: &[u32],
    latest: &[u32],
    service: &[u32],
    depot: u32,
    route: &mut [u32],
    res: &mut [u64],
) -> u32
    ensures { PolishReply (question k allowance locations legs.now latest.now service.now depot depot route.old) res.old result route.new res.new }
{
    mittenschist::mittenschist_polish_route(
        k, allowance, locations, legs, latest, service, depot, route, res,
    )
}

#[unsafe(no_mangle)]
pub extern "C" fn mittenschist_polish_route_with_pairs(
    k: usize,
    allowance: u64,
    locations: usize,
    legs: &[u32],
    latest: &[u32],
    service: &[u32],
    depot: u32,
    end: u32,
    pairs: &[u32],
    route: &mut [u32],
    res: &mut [u64],
) -> u32
    ensures { PolishWithPairsReply (question_with_pairs k allowance locations legs.now latest.now service.now depot end pairs.now route.old) res.old result route.new res.new }
{
    mittenschist::mittenschist_polish_route_with_pairs(
        k, allowance, locations, legs, latest, service, depot, end, pairs, route, res,
    )
}

#[unsafe(no_mangle)]
pub extern "C" fn mittenschist_polish_slice(
    k: usize,
    allowance: u64,
    locations: usize,
    legs: &[u32],
    latest: &[u32],
    service: &[u32],
    depot: u32,
    end: u32,
    pairs: &[u32],
    route: &mut [u32],
    place: &mut [u64],
    res: &mut [u64],
) -> u32
    ensures { PolishSliceReply (question_with_pairs k allowance locations legs.now latest.now service.now depot end pairs.now route.old) place.old res.old result route.new place.new res.new }
{
    mittenschist::mittenschist_polish_slice(
        k, allowance, locations, legs, latest, service, depot, end, pairs, route, place, res,
    )
}

#[unsafe(no_mangle)]
pub extern "C" fn mittenschist_pair_loop(
    allowance: u64,
    locations: usize,
    legs: &[u32],
    latest: &[u32],
    service: &[u32],
    depot: u32,
    route: &mut [u32],
    res: &mut [u64],
) -> u32
    ensures { PairLoopReply allowance (tables locations legs.now latest.now service.now) depot route.old res.old result route.new res.new }
{
    mittenschist::mittenschist_pair_loop(
        allowance, locations, legs, latest, service, depot, route, res,
    )
}

#[unsafe(no_mangle)]
pub extern "C" fn mittenschist_reconnection_at(k: usize, pattern: usize, res: &mut [u64]) -> u32
    ensures { Written (pattern_rules k pattern) (k + 2) (pattern_values k pattern) res.old result res.new }
{
    mittenschist::mittenschist_reconnection_at(k, pattern, res)
}

#[unsafe(no_mangle)]
pub extern "C" fn mittenschist_next_cut_set(
    k: usize,
    n: usize,
    cuts: &mut [usize],
    res: &mut [u64],
) -> u32
    ensures { NextCutSetWritten k n cuts.old res.old result cuts.new res.new }
{
    mittenschist::mittenschist_next_cut_set(k, n, cuts, res)
}

#[unsafe(no_mangle)]
pub extern "C" fn mittenschist_reconnect(
    k: usize,
    pattern: usize,
    cuts: &[usize],
    route: &[u32],
    out: &mut [u32],
) -> u32
    ensures { ReconnectReply k pattern cuts.now route.now out.old result out.new }
{
    mittenschist::mittenschist_reconnect(k, pattern, cuts, route, out)
}

#[unsafe(no_mangle)]
pub extern "C" fn mittenschist_route_length_to_end(
    locations: usize,
    legs: &[u32],
    depot: u32,
    end: u32,
    route: &[u32],
    res: &mut [u64],
) -> u32
    ensures { Written (route_length_to_end_rules locations legs.now depot end route.now) 1 (tour_length (legs_only locations legs.now depot end) route.now ∷ []) res.old result res.new }
{
    mittenschist::mittenschist_route_length_to_end(locations, legs, depot, end, route, res)
}

#[unsafe(no_mangle)]
pub extern "C" fn mittenschist_route_length(
    locations: usize,
    legs: &[u32],
    depot: u32,
    route: &[u32],
    res: &mut [u64],
) -> u32
    ensures { Written (route_length_rules locations legs.now depot route.now) 1 (tour_length (legs_only locations legs.now depot depot) route.now ∷ []) res.old result res.new }
{
    mittenschist::mittenschist_route_length(locations, legs, depot, route, res)
}

#[unsafe(no_mangle)]
pub extern "C" fn mittenschist_delta_to_end(
    k: usize,
    pattern: usize,
    cuts: &[usize],
    locations: usize,
    legs: &[u32],
    depot: u32,
    end: u32,
    route: &[u32],
    res: &mut [i64],
) -> u32
    ensures { Written (delta_to_end_rules k pattern cuts.now locations legs.now depot end route.now) 1 (length_change (legs_only locations legs.now depot end) (move_at (patterns k) cuts.now pattern) route.now ∷ []) res.old result res.new }
{
    mittenschist::mittenschist_delta_to_end(
        k, pattern, cuts, locations, legs, depot, end, route, res,
    )
}

#[unsafe(no_mangle)]
pub extern "C" fn mittenschist_delta(
    k: usize,
    pattern: usize,
    cuts: &[usize],
    locations: usize,
    legs: &[u32],
    depot: u32,
    route: &[u32],
    res: &mut [i64],
) -> u32
    ensures { Written (delta_rules k pattern cuts.now locations legs.now depot route.now) 1 (length_change (legs_only locations legs.now depot depot) (move_at (patterns k) cuts.now pattern) route.now ∷ []) res.old result res.new }
{
    mittenschist::mittenschist_delta(k, pattern, cuts, locations, legs, depot, route, res)
}

#[unsafe(no_mangle)]
pub extern "C" fn mittenschist_route_feasible(
    locations: usize,
    legs: &[u32],
    latest: &[u32],
    service: &[u32],
    depot: u32,
    route: &[u32],
    res: &mut [u64],
) -> u32
    ensures { Written (problem_rules (tables locations legs.now latest.now service.now) depot route.now) 1 (late_values (tables locations legs.now latest.now service.now) depot route.now) res.old result res.new }
{
    mittenschist::mittenschist_route_feasible(locations, legs, latest, service, depot, route, res)
}

#[unsafe(no_mangle)]
pub extern "C" fn mittenschist_k_opt_do_move(
    k: usize,
    pattern: usize,
    round: usize,
    cut_rounds: &[usize],
    cut_positions: &[usize],
    route: &mut [u32],
    journal: &mut [u32],
) -> u32
    ensures { DoMoveReply k pattern round cut_rounds.now cut_positions.now route.old journal.old result route.new journal.new }
{
    mittenschist::mittenschist_k_opt_do_move(
        k,
        pattern,
        round,
        cut_rounds,
        cut_positions,
        route,
        journal,
    )
}

#[unsafe(no_mangle)]
pub extern "C" fn mittenschist_k_opt_undo_move(route: &mut [u32], journal: &[u32]) -> u32
    ensures { UndoReply route.old journal.now result route.new }
{
    mittenschist::mittenschist_k_opt_undo_move(route, journal)
}

#[unsafe(no_mangle)]
pub extern "C" fn mittenschist_k_opt_is_doable(
    k: usize,
    pattern: usize,
    round: usize,
    n: usize,
    cut_rounds: &[usize],
    cut_positions: &[usize],
    res: &mut [u64],
) -> u32
    ensures { Written (doable_rules k pattern n) 1 (doable_values k round n cut_rounds.now cut_positions.now) res.old result res.new }
{
    mittenschist::mittenschist_k_opt_is_doable(k, pattern, round, n, cut_rounds, cut_positions, res)
}

#[unsafe(no_mangle)]
pub extern "C" fn mittenschist_run_list_k_opt_to_ends(
    k: usize,
    allowance: u64,
    locations: usize,
    legs: &[u32],
    latest: &[u32],
    service: &[u32],
    stops: &mut [u32],
    lengths: &[usize],
    depots: &[u32],
    ends: &[u32],
    pins: &[u8],
    res: &mut [u64],
) -> u32
    ensures { RunToEndsReply k allowance (tables locations legs.now latest.now service.now) (fleet stops.old lengths.now depots.now ends.now pins.now) res.old result stops.new res.new }
{
    mittenschist::mittenschist_run_list_k_opt_to_ends(
        k, allowance, locations, legs, latest, service, stops, lengths, depots, ends, pins, res,
    )
}

#[unsafe(no_mangle)]
pub extern "C" fn mittenschist_run_list_k_opt(
    k: usize,
    allowance: u64,
    locations: usize,
    legs: &[u32],
    latest: &[u32],
    service: &[u32],
    stops: &mut [u32],
    lengths: &[usize],
    depots: &[u32],
    pins: &[u8],
    res: &mut [u64],
) -> u32
    ensures { RunReply k allowance (tables locations legs.now latest.now service.now) (fleet stops.old lengths.now depots.now depots.now pins.now) res.old result stops.new res.new }
{
    mittenschist::mittenschist_run_list_k_opt(
        k, allowance, locations, legs, latest, service, stops, lengths, depots, pins, res,
    )
}

#[unsafe(no_mangle)]
pub extern "C" fn mittenschist_run_list_k_opt_with_pairs(
    k: usize,
    allowance: u64,
    locations: usize,
    legs: &[u32],
    latest: &[u32],
    service: &[u32],
    stops: &mut [u32],
    lengths: &[usize],
    depots: &[u32],
    ends: &[u32],
    pins: &[u8],
    pairs: &[u32],
    res: &mut [u64],
) -> u32
    ensures { RunWithPairsReply k allowance (tables locations legs.now latest.now service.now) (fleet stops.old lengths.now depots.now ends.now pins.now) pairs.now res.old result stops.new res.new }
{
    mittenschist::mittenschist_run_list_k_opt_with_pairs(
        k, allowance, locations, legs, latest, service, stops, lengths, depots, ends, pins, pairs,
        res,
    )
}

#[unsafe(no_mangle)]
pub extern "C" fn mittenschist_run_in_shares(
    k: usize,
    allowance: u64,
    locations: usize,
    legs: &[u32],
    latest: &[u32],
    service: &[u32],
    stops: &mut [u32],
    lengths: &[usize],
    depots: &[u32],
    ends: &[u32],
    pins: &[u8],
    pairs: &[u32],
    res: &mut [u64],
) -> u32
    ensures { SharesReply k allowance (tables locations legs.now latest.now service.now) (fleet stops.old lengths.now depots.now ends.now pins.now) pairs.now res.old result stops.new res.new }
{
    mittenschist::mittenschist_run_in_shares(
        k, allowance, locations, legs, latest, service, stops, lengths, depots, ends, pins, pairs,
        res,
    )
}

#[unsafe(no_mangle)]
pub extern "C" fn mittenschist_nearby_cuts(
    n: usize,
    distances: &[f64],
    k: usize,
    min_segment_len: usize,
    max_nearby: usize,
    sets: &mut [usize],
    res: &mut [u64],
) -> u32
    ensures { NearbyWritten n distances.now k min_segment_len max_nearby sets.old res.old result sets.new res.new }
{
    mittenschist::mittenschist_nearby_cuts(n, distances, k, min_segment_len, max_nearby, sets, res)
}

#[unsafe(no_mangle)]
pub extern "C" fn mittenschist_every_nearby_cuts(
    n: usize,
    distances: &[f64],
    k: usize,
    min_segment_len: usize,
    max_nearby: usize,
    sets: &mut [usize],
    res: &mut [u64],
) -> u32
    ensures { EveryWritten n distances.now k min_segment_len max_nearby sets.old res.old result sets.new res.new }
{
    mittenschist::mittenschist_every_nearby_cuts(
        n,
        distances,
        k,
        min_segment_len,
        max_nearby,
        sets,
        res,
    )
}

#[unsafe(no_mangle)]
pub extern "C" fn mittenschist_find_move(
    k: usize,
    old: &[u32],
    wanted: &[u32],
    res: &mut [u64],
) -> u32
    ensures { FindMoveWritten k old.now wanted.now res.old result res.new }
{
    mittenschist::mittenschist_find_move(k, old, wanted, res)
}

#[unsafe(no_mangle)]
pub extern "C" fn mittenschist_way_back(
    k: usize,
    pattern: usize,
    n: usize,
    cuts: &[usize],
    res: &mut [u64],
) -> u32
    ensures { WayBackReply k pattern n cuts.now res.old result res.new }
{
    mittenschist::mittenschist_way_back(k, pattern, n, cuts, res)
}

#[unsafe(no_mangle)]
pub extern "C" fn mittenschist_load_patterns(
    text: &[u8],
    orders: &mut [u8],
    masks: &mut [u8],
    res: &mut [u64],
) -> u32
    ensures { LoadReply text.now orders.old masks.old res.old result orders.new masks.new res.new }
{
    mittenschist::mittenschist_load_patterns(text, orders, masks, res)
}

#[unsafe(no_mangle)]
pub extern "C" fn mittenschist_polish_with_patterns(
    k: usize,
    orders: &[u8],
    masks: &[u8],
    allowance: u64,
    locations: usize,
    legs: &[u32],
    latest: &[u32],
    service: &[u32],
    depot: u32,
    end: u32,
    route: &mut [u32],
    res: &mut [u64],
) -> u32
    ensures { PolishWithPatternsReply (question k allowance locations legs.now latest.now service.now depot end route.old) orders.now masks.now res.old result route.new res.new }
{
    mittenschist::mittenschist_polish_with_patterns(
        k, orders, masks, allowance, locations, legs, latest, service, depot, end, route, res,
    )
}

#[unsafe(no_mangle)]
pub extern "C" fn mittenschist_polish_with_patterns_and_pairs(
    k: usize,
    orders: &[u8],
    masks: &[u8],
    allowance: u64,
    locations: usize,
    legs: &[u32],
    latest: &[u32],
    service: &[u32],
    depot: u32,
    end: u32,
    pairs: &[u32],
    route: &mut [u32],
    res: &mut [u64],
) -> u32
    ensures { PolishWithPatternsAndPairsReply (question_with_pairs k allowance locations legs.now latest.now service.now depot end pairs.now route.old) orders.now masks.now res.old result route.new res.new }
{
    mittenschist::mittenschist_polish_with_patterns_and_pairs(
        k, orders, masks, allowance, locations, legs, latest, service, depot, end, pairs, route,
        res,
    )
}

#[unsafe(no_mangle)]
pub extern "C" fn mittenschist_write_problem(
    k: usize,
    allowance: u64,
    locations: usize,
    legs: &[u32],
    latest: &[u32],
    service: &[u32],
    depot: u32,
    end: u32,
    route: &[u32],
    text: &mut [u8],
    res: &mut [u64],
) -> u32
    ensures { WriteReply (question k allowance locations legs.now latest.now service.now depot end route.now) text.old res.old result text.new res.new }
{
    mittenschist::mittenschist_write_problem(
        k, allowance, locations, legs, latest, service, depot, end, route, text, res,
    )
}

#[unsafe(no_mangle)]
pub extern "C" fn mittenschist_read_problem(
    text: &[u8],
    legs: &mut [u32],
    latest: &mut [u32],
    service: &mut [u32],
    route: &mut [u32],
    res: &mut [u64],
) -> u32
    ensures { ReadReply text.now legs.old latest.old service.old route.old res.old result legs.new latest.new service.new route.new res.new }
{
    mittenschist::mittenschist_read_problem(text, legs, latest, service, route, res)
}

#[unsafe(no_mangle)]
pub extern "C" fn mittenschist_which_of_two(
    locations: usize,
    legs: &[u32],
    latest: &[u32],
    service: &[u32],
    depot: u32,
    end: u32,
    pairs: &[u32],
    first: &[u32],
    second: &[u32],
) -> u32
    ensures { WhichDesk (trip locations legs.now latest.now service.now depot end pairs.now) first.now second.now result }
{
    mittenschist::mittenschist_which_of_two(
        locations, legs, latest, service, depot, end, pairs, first, second,
    )
}
