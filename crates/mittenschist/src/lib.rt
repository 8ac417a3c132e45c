// The entries. Each takes whatever it is handed and hands it on to the crate below that judges it, refuses it or does the work. Those that a Rattle program calls are
// the functions of that crate themselves; those that a host calls take numbers and lent lists alone and answer the number of the refusal or 0, and crate mittenschist_c hands them on to C.
#![tactic(auto)]

ghost use Rattle.std.specs.Prelude.{[], ◌∷◌, ◌+◌};
ghost use Rattle.theory.specs.Route.{tour_length};
ghost use Rattle.theory.specs.Polish.{move_at};
ghost use Rattle.theory.specs.Moves.{patterns};
ghost use Rattle.theory.specs.Tables.{tables, trip, fleet, legs_only};
ghost use Rattle.theory.specs.Question.{question, question_with_pairs};
ghost use Rattle.theory.specs.Refusals.{problem_rules};
ghost use Rattle.entry_results.specs.Written.{Written};
ghost use Rattle.listing_calls.specs.Listings.{NearbyWritten, EveryWritten};
ghost use Rattle.move_calls.specs.Entries.{DoMoveReply, UndoReply, doable_rules, doable_values};
ghost use Rattle.moves.specs.Moves.{length_change, pattern_values};
ghost use Rattle.pattern_list_loading.specs.Loading.{LoadReply};
ghost use Rattle.pattern_list_polishing.specs.Polishing.{PolishWithPatternsReply, PolishWithPatternsAndPairsReply};
ghost use Rattle.refusal_rules.specs.Rules.{route_length_rules, route_length_to_end_rules, pattern_rules, delta_rules, delta_to_end_rules};
ghost use Rattle.measure_calls.specs.Measures.{late_values};
ghost use Rattle.cut_calls.specs.Cuts.{NextCutSetWritten, ReconnectReply, FindMoveWritten};
ghost use Rattle.problem_calls.specs.Problems.{WriteReply, ReadReply};
ghost use Rattle.desks.specs.Desks.{WhichDesk};
ghost use Rattle.polish_calls.specs.Polishing.{PolishReply, PolishToEndReply, PolishWithPairsReply, PairLoopReply};
ghost use Rattle.slice_calls.specs.Slicing.{PolishSliceReply};
ghost use Rattle.run_calls.specs.Runs.{RunReply, RunToEndsReply, RunWithPairsReply, SharesReply};
ghost use Rattle.way_back.specs.WayBack.{WayBackReply};

pub use cut_calls::{find_move, next_cut_set, reconnect, reconnection_at};
pub use desks::which_of_two;
pub use listing_calls::{every_nearby_cuts, nearby_cuts};
pub use measure_calls::{delta, delta_to_end, route_feasible, route_length, route_length_to_end};
use move_calls::{do_move_lists, write_is_doable};

// Polishes a route from the depot to an end harbour. Refuses 1, 2, 3, 23, 4, 24, 5, 21. The result receives 0 finished or 1 spent, examined, accepted, length
// before, length after, and the lowest late position of the route handed back, or the number of its stops for none.
pub fn mittenschist_polish_route_to_end(
    k: usize,
    allowance: u64,
    locations: usize,
    legs: &[u32],
    latest: &[u32],
    service: &[u32],
    depot: u32,
    end: u32,
    route: &mut [u32],
    res: &mut [u64],
) -> u32
    ensures { PolishToEndReply (question k allowance locations legs.now latest.now service.now depot end route.old) res.old result route.new res.new }
{
    theory::number_of(polish_calls::polish_route_to_end(
        k, allowance, locations, legs, latest, service, depot, end, route, res,
    ))
}

// Polishes a closed tour. Refuses 1, 2, 3, 23, 4, 5, 21.
pub fn mittenschist_polish_route(
    k: usize,
    allowance: u64,
    locations: usize,
    legs: &[u32],
    latest: &[u32],
    service: &[u32],
    depot: u32,
    route: &mut [u32],
    res: &mut [u64],
) -> u32
    ensures { PolishReply (question k allowance locations legs.now latest.now service.now depot depot route.old) res.old result route.new res.new }
{
    theory::number_of(polish_calls::polish_closed_tour(
        k, allowance, locations, legs, latest, service, depot, route, res,
    ))
}

// Polishes a route that keeps pairs of locations, the first before the second: their members end to end. Refuses 1, 2, 3, 23, 4, 24, 29, 5, 21.
pub fn mittenschist_polish_route_with_pairs(
    k: usize,
    allowance: u64,
    locations: usize,
    legs: &[u32],
    latest: &[u32],
    service: &[u32],
    depot: u32,
    end: u32,
    pairs: &[u32],
    route: &mut [u32],
    res: &mut [u64],
) -> u32
    ensures { PolishWithPairsReply (question_with_pairs k allowance locations legs.now latest.now service.now depot end pairs.now route.old) res.old result route.new res.new }
{
    theory::number_of(polish_calls::polish_route_with_pairs(
        k, allowance, locations, legs, latest, service, depot, end, pairs, route, res,
    ))
}

// A slice of polishing a route that keeps pairs: the scan from a place on, k cuts and the index of a pattern. Refuses 1, 2, 3, 23, 4, 24, 29, 5, 6, 7, 21. The place
// receives that of the next candidate, or the first one where the scan has finished; the result the six numbers of polishing, of this slice.
pub fn mittenschist_polish_slice(
    k: usize,
    allowance: u64,
    locations: usize,
    legs: &[u32],
    latest: &[u32],
    service: &[u32],
    depot: u32,
    end: u32,
    pairs: &[u32],
    route: &mut [u32],
    place: &mut [u64],
    res: &mut [u64],
) -> u32
    ensures { PolishSliceReply (question_with_pairs k allowance locations legs.now latest.now service.now depot end pairs.now route.old) place.old res.old result route.new place.new res.new }
{
    theory::number_of(slice_calls::polish_slice(
        k, allowance, locations, legs, latest, service, depot, end, pairs, route, place, res,
    ))
}

// The pair loop over a route. Refuses 2, 3, 23, 4, 5, 21. The result receives the six numbers of polishing; the length after may be above the length before.
pub fn mittenschist_pair_loop(
    allowance: u64,
    locations: usize,
    legs: &[u32],
    latest: &[u32],
    service: &[u32],
    depot: u32,
    route: &mut [u32],
    res: &mut [u64],
) -> u32
    ensures { PairLoopReply allowance (tables locations legs.now latest.now service.now) depot route.old res.old result route.new res.new }
{
    theory::number_of(polish_calls::try_pair_loop(
        allowance, locations, legs, latest, service, depot, route, res,
    ))
}

// The C functions of the other entries: the same refusals, then 21, and the values into the first places of the lent result.

// k + 1 segment numbers, then the mask. Refuses 1, 6, 21.
pub fn mittenschist_reconnection_at(k: usize, pattern: usize, res: &mut [u64]) -> u32
    ensures { Written (pattern_rules k pattern) (k + 2) (pattern_values k pattern) res.old result res.new }
{
    theory::number_of(cut_calls::write_reconnection(k, pattern, res))
}

// 1 and the next cuts, or 0 and the cuts kept. Refuses 1, 5, 7, 21.
pub fn mittenschist_next_cut_set(k: usize, n: usize, cuts: &mut [usize], res: &mut [u64]) -> u32
    ensures { NextCutSetWritten k n cuts.old res.old result cuts.new res.new }
{
    theory::number_of(cut_calls::write_next_cut_set(k, n, cuts, res))
}

// Refuses 1, 5, 6, 7, 21.
pub fn mittenschist_reconnect(
    k: usize,
    pattern: usize,
    cuts: &[usize],
    route: &[u32],
    out: &mut [u32],
) -> u32
    ensures { ReconnectReply k pattern cuts.now route.now out.old result out.new }
{
    theory::number_of(cut_calls::reconnect(k, pattern, cuts, route, out))
}

// Refuses 2, 3, 4, 24, 5, 21.
pub fn mittenschist_route_length_to_end(
    locations: usize,
    legs: &[u32],
    depot: u32,
    end: u32,
    route: &[u32],
    res: &mut [u64],
) -> u32
    ensures { Written (route_length_to_end_rules locations legs.now depot end route.now) 1 (tour_length (legs_only locations legs.now depot end) route.now ∷ []) res.old result res.new }
{
    theory::number_of(measure_calls::write_route_length_to_end(
        locations, legs, depot, end, route, res,
    ))
}

// Refuses 2, 3, 4, 5, 21.
pub fn mittenschist_route_length(
    locations: usize,
    legs: &[u32],
    depot: u32,
    route: &[u32],
    res: &mut [u64],
) -> u32
    ensures { Written (route_length_rules locations legs.now depot route.now) 1 (tour_length (legs_only locations legs.now depot depot) route.now ∷ []) res.old result res.new }
{
    theory::number_of(measure_calls::write_route_length(locations, legs, depot, route, res))
}

// Refuses 1 to 4, 24, 5 to 7, 21.
pub fn mittenschist_delta_to_end(
    k: usize,
    pattern: usize,
    cuts: &[usize],
    locations: usize,
    legs: &[u32],
    depot: u32,
    end: u32,
    route: &[u32],
    res: &mut [i64],
) -> u32
    ensures { Written (delta_to_end_rules k pattern cuts.now locations legs.now depot end route.now) 1 (length_change (legs_only locations legs.now depot end) (move_at (patterns k) cuts.now pattern) route.now ∷ []) res.old result res.new }
{
    theory::number_of(measure_calls::write_delta_to_end(
        k, pattern, cuts, locations, legs, depot, end, route, res,
    ))
}

// Refuses 1 to 7, 21.
pub fn mittenschist_delta(
    k: usize,
    pattern: usize,
    cuts: &[usize],
    locations: usize,
    legs: &[u32],
    depot: u32,
    route: &[u32],
    res: &mut [i64],
) -> u32
    ensures { Written (delta_rules k pattern cuts.now locations legs.now depot route.now) 1 (length_change (legs_only locations legs.now depot depot) (move_at (patterns k) cuts.now pattern) route.now ∷ []) res.old result res.new }
{
    theory::number_of(measure_calls::write_delta(
        k, pattern, cuts, locations, legs, depot, route, res,
    ))
}

// The lowest late position, or the number of stops where every deadline is kept. Refuses 2, 3, 23, 4, 5, 21.
pub fn mittenschist_route_feasible(
    locations: usize,
    legs: &[u32],
    latest: &[u32],
    service: &[u32],
    depot: u32,
    route: &[u32],
    res: &mut [u64],
) -> u32
    ensures { Written (problem_rules (tables locations legs.now latest.now service.now) depot route.now) 1 (late_values (tables locations legs.now latest.now service.now) depot route.now) res.old result res.new }
{
    theory::number_of(measure_calls::write_route_feasible(
        locations, legs, latest, service, depot, route, res,
    ))
}

// Applies a pattern at the cuts: the old stops go into the first n journal places. Refuses 1, 5, 6, 7, 8, 21.
pub fn mittenschist_k_opt_do_move(
    k: usize,
    pattern: usize,
    round: usize,
    cut_rounds: &[usize],
    cut_positions: &[usize],
    route: &mut [u32],
    journal: &mut [u32],
) -> u32
    ensures { DoMoveReply k pattern round cut_rounds.now cut_positions.now route.old journal.old result route.new journal.new }
{
    let applied = do_move_lists(k, pattern, round, cut_rounds, cut_positions, route, journal);
    theory::number_of(applied)
}

// Puts the stops of the journal back. Refuses 5, 22.
pub fn mittenschist_k_opt_undo_move(route: &mut [u32], journal: &[u32]) -> u32
    ensures { UndoReply route.old journal.now result route.new }
{
    theory::number_of(move_calls::k_opt_undo_move(route, journal))
}

// 1 yes or 0 no. Refuses 1, 5, 6, 21.
pub fn mittenschist_k_opt_is_doable(
    k: usize,
    pattern: usize,
    round: usize,
    n: usize,
    cut_rounds: &[usize],
    cut_positions: &[usize],
    res: &mut [u64],
) -> u32
    ensures { Written (doable_rules k pattern n) 1 (doable_values k round n cut_rounds.now cut_positions.now) res.old result res.new }
{
    let written = write_is_doable(k, pattern, round, n, cut_rounds, cut_positions, res);
    theory::number_of(written)
}

// The run over rounds that lie end to end, each to its end harbour. Refuses 1, 2, 3, 23, 4, 24, 5, 21. The result receives four numbers a round: state, examined, accepted, applied.
pub fn mittenschist_run_list_k_opt_to_ends(
    k: usize,
    allowance: u64,
    locations: usize,
    legs: &[u32],
    latest: &[u32],
    service: &[u32],
    stops: &mut [u32],
    lengths: &[usize],
    depots: &[u32],
    ends: &[u32],
    pins: &[u8],
    res: &mut [u64],
) -> u32
    ensures { RunToEndsReply k allowance (tables locations legs.now latest.now service.now) (fleet stops.old lengths.now depots.now ends.now pins.now) res.old result stops.new res.new }
{
    theory::number_of(run_calls::run_to_ends(
        k, allowance, locations, legs, latest, service, stops, lengths, depots, ends, pins, res,
    ))
}

// The run over closed tours. Refuses 1, 2, 3, 23, 4, 5, 21.
pub fn mittenschist_run_list_k_opt(
    k: usize,
    allowance: u64,
    locations: usize,
    legs: &[u32],
    latest: &[u32],
    service: &[u32],
    stops: &mut [u32],
    lengths: &[usize],
    depots: &[u32],
    pins: &[u8],
    res: &mut [u64],
) -> u32
    ensures { RunReply k allowance (tables locations legs.now latest.now service.now) (fleet stops.old lengths.now depots.now depots.now pins.now) res.old result stops.new res.new }
{
    theory::number_of(run_calls::run_closed_tours(
        k, allowance, locations, legs, latest, service, stops, lengths, depots, pins, res,
    ))
}

// The run with pairs, one list for all rounds. Refuses 1, 2, 3, 23, 4, 24, 29, 5, 21.
pub fn mittenschist_run_list_k_opt_with_pairs(
    k: usize,
    allowance: u64,
    locations: usize,
    legs: &[u32],
    latest: &[u32],
    service: &[u32],
    stops: &mut [u32],
    lengths: &[usize],
    depots: &[u32],
    ends: &[u32],
    pins: &[u8],
    pairs: &[u32],
    res: &mut [u64],
) -> u32
    ensures { RunWithPairsReply k allowance (tables locations legs.now latest.now service.now) (fleet stops.old lengths.now depots.now ends.now pins.now) pairs.now res.old result stops.new res.new }
{
    theory::number_of(run_calls::run_with_pairs(
        k, allowance, locations, legs, latest, service, stops, lengths, depots, ends, pins, pairs,
        res,
    ))
}

// The rounds of a run with shares of the allowance. Refuses 1, 2, 3, 23, 4, 24, 29, 5, 21. The result receives the run's four numbers a round, never state 0.
pub fn mittenschist_run_in_shares(
    k: usize,
    allowance: u64,
    locations: usize,
    legs: &[u32],
    latest: &[u32],
    service: &[u32],
    stops: &mut [u32],
    lengths: &[usize],
    depots: &[u32],
    ends: &[u32],
    pins: &[u8],
    pairs: &[u32],
    res: &mut [u64],
) -> u32
    ensures { SharesReply k allowance (tables locations legs.now latest.now service.now) (fleet stops.old lengths.now depots.now ends.now pins.now) pairs.now res.old result stops.new res.new }
{
    theory::number_of(run_calls::run_in_shares(
        k, allowance, locations, legs, latest, service, stops, lengths, depots, ends, pins, pairs,
        res,
    ))
}

// The same; the result receives the number of sets written, then 0 ended or 1 more. Refuses 1, 5, 9, 21.
pub fn mittenschist_nearby_cuts(
    n: usize,
    distances: &[f64],
    k: usize,
    min_segment_len: usize,
    max_nearby: usize,
    sets: &mut [usize],
    res: &mut [u64],
) -> u32
    ensures { NearbyWritten n distances.now k min_segment_len max_nearby sets.old res.old result sets.new res.new }
{
    theory::number_of(listing_calls::write_nearby_cuts(
        n,
        distances,
        k,
        min_segment_len,
        max_nearby,
        sets,
        res,
    ))
}

// The same; the result receives the number of sets written, then 0 ended or 1 more. Refuses 1, 5, 9, 21.
pub fn mittenschist_every_nearby_cuts(
    n: usize,
    distances: &[f64],
    k: usize,
    min_segment_len: usize,
    max_nearby: usize,
    sets: &mut [usize],
    res: &mut [u64],
) -> u32
    ensures { EveryWritten n distances.now k min_segment_len max_nearby sets.old res.old result sets.new res.new }
{
    theory::number_of(listing_calls::write_every_nearby_cuts(
        n,
        distances,
        k,
        min_segment_len,
        max_nearby,
        sets,
        res,
    ))
}

// The same; the result receives 1, the index and the k cuts, or 0 in its first place. Refuses 1, 5, 25, 21.
pub fn mittenschist_find_move(k: usize, old: &[u32], wanted: &[u32], res: &mut [u64]) -> u32
    ensures { FindMoveWritten k old.now wanted.now res.old result res.new }
{
    theory::number_of(cut_calls::write_find_move(k, old, wanted, res))
}

// The way back of a move of a route of n stops, as a move: the result receives the index of its pattern, then its k cuts. Refuses 1, 5, 6, 7, 21.
pub fn mittenschist_way_back(
    k: usize,
    pattern: usize,
    n: usize,
    cuts: &[usize],
    res: &mut [u64],
) -> u32
    ensures { WayBackReply k pattern n cuts.now res.old result res.new }
{
    theory::number_of(way_back::way_back(k, pattern, n, cuts, res))
}

// ---- lists of patterns

// Loads a list of patterns from text: its orders end to end, k + 1 bytes a row, its masks, and into the result its k and its number of rows. Refuses 10, 1, 26,
// 27, 28, 21.
pub fn mittenschist_load_patterns(
    text: &[u8],
    orders: &mut [u8],
    masks: &mut [u8],
    res: &mut [u64],
) -> u32
    ensures { LoadReply text.now orders.old masks.old res.old result orders.new masks.new res.new }
{
    theory::number_of(pattern_list_loading::load_patterns(text, orders, masks, res))
}

// Polishes a route from the depot to an end harbour with a list of patterns, its rows as they were loaded. Refuses 1, 26, 27, 28, 2, 3, 23, 4, 24, 5, 21.
pub fn mittenschist_polish_with_patterns(
    k: usize,
    orders: &[u8],
    masks: &[u8],
    allowance: u64,
    locations: usize,
    legs: &[u32],
    latest: &[u32],
    service: &[u32],
    depot: u32,
    end: u32,
    route: &mut [u32],
    res: &mut [u64],
) -> u32
    ensures { PolishWithPatternsReply (question k allowance locations legs.now latest.now service.now depot end route.old) orders.now masks.now res.old result route.new res.new }
{
    theory::number_of(pattern_list_polishing::polish_with_patterns(
        k, orders, masks, allowance, locations, legs, latest, service, depot, end, route, res,
    ))
}

// The same with pairs. Refuses 1, 26, 27, 28, 2, 3, 23, 4, 24, 29, 5, 21.
pub fn mittenschist_polish_with_patterns_and_pairs(
    k: usize,
    orders: &[u8],
    masks: &[u8],
    allowance: u64,
    locations: usize,
    legs: &[u32],
    latest: &[u32],
    service: &[u32],
    depot: u32,
    end: u32,
    pairs: &[u32],
    route: &mut [u32],
    res: &mut [u64],
) -> u32
    ensures { PolishWithPatternsAndPairsReply (question_with_pairs k allowance locations legs.now latest.now service.now depot end pairs.now route.old) orders.now masks.now res.old result route.new res.new }
{
    theory::number_of(pattern_list_polishing::polish_with_patterns_and_pairs(
        k, orders, masks, allowance, locations, legs, latest, service, depot, end, pairs, route,
        res,
    ))
}

// Writes a problem as text, in the form that the text program reads, into the first places of the lent text; its number of bytes into the result. Refuses 1, 2,
// 3, 23, 4, 24, 5, 31, 21.
pub fn mittenschist_write_problem(
    k: usize,
    allowance: u64,
    locations: usize,
    legs: &[u32],
    latest: &[u32],
    service: &[u32],
    depot: u32,
    end: u32,
    route: &[u32],
    text: &mut [u8],
    res: &mut [u64],
) -> u32
    ensures { WriteReply (question k allowance locations legs.now latest.now service.now depot end route.now) text.old res.old result text.new res.new }
{
    theory::number_of(problem_calls::write_problem(
        k, allowance, locations, legs, latest, service, depot, end, route, text, res,
    ))
}

// Reads a problem from text into lent lists, and into the result its k, allowance, locations, depot, end and number of stops. Refuses 10, 1, 3, 23, 4, 24, 5, 21.
pub fn mittenschist_read_problem(
    text: &[u8],
    legs: &mut [u32],
    latest: &mut [u32],
    service: &mut [u32],
    route: &mut [u32],
    res: &mut [u64],
) -> u32
    ensures { ReadReply text.now legs.old latest.old service.old route.old res.old result legs.new latest.new service.new route.new res.new }
{
    theory::number_of(problem_reading::read_problem(text, legs, latest, service, route, res))
}

// Which of two lists for one boat, as `which_of_two`; as a number, since C has no part of a slice: 1 the first, 2 the second, 0 neither. No refusal number.
pub fn mittenschist_which_of_two(
    locations: usize,
    legs: &[u32],
    latest: &[u32],
    service: &[u32],
    depot: u32,
    end: u32,
    pairs: &[u32],
    first: &[u32],
    second: &[u32],
) -> u32
    ensures { WhichDesk (trip locations legs.now latest.now service.now depot end pairs.now) first.now second.now result }
{
    desks::number_of(desks::which_desk(
        locations, legs, latest, service, depot, end, pairs, first, second,
    ))
}
