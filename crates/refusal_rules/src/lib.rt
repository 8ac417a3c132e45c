// What a call was handed, judged by its list of rules: the first refusal in the one order whose rule applies. Apply, undo and doable are judged in crate
// move_calls, the deadline check in crate refusals. A call without an end harbour is judged as one that ends at its depot. No entry: the crates of the
// judged calls and text_problem call it.
#![tactic(auto, using(theory::proofs::Checks::judging), unfolding(theory::specs::Refusals::refusal))]

ghost use Rattle.std.specs.Prelude.{◌≡◌, [], ◌∷◌, ◌+◌, ◌*◌, length};
ghost use Rattle.theory.specs.Numbers.{judged};
ghost use Rattle.theory.specs.Tables.{tables, trip, fleet};
ghost use Rattle.theory.specs.Refusals.{refusal, number, cut_count, round_lists, end_list, trip_rules, paired_rules};
ghost use Rattle.refusal_rules.specs.Rules.{pattern_rules, next_cut_set_rules, reconnect_rules, route_length_to_end_rules, delta_to_end_rules, pair_loop_rules, rounds_to_ends_rules, rounds_with_pairs_rules, run_to_ends_rules, run_with_pairs_rules, nearby_rules, short_pair, find_move_rules, with_room};

use theory::Refusal;

pub fn pattern_refusal(k: usize, pattern: usize) -> Result<(), Refusal>
    ensures { judged result ≡ refusal (pattern_rules k pattern) }
{
    refusals::check_cut_count(k)?;
    refusals::check_pattern_index(k, pattern)
}

pub fn next_cut_set_refusal(k: usize, n: usize, cuts: &[usize]) -> Result<(), Refusal>
    ensures { judged result ≡ refusal (next_cut_set_rules k n cuts.now) }
{
    refusals::check_cut_count(k)?;
    refusals::check_stop_count(n)?;
    refusals::check_cut_positions(k, n, cuts)
}

pub fn reconnect_refusal(
    k: usize,
    pattern: usize,
    cuts: &[usize],
    n: usize,
    lent: usize,
) -> Result<(), Refusal>
    ensures { judged result ≡ refusal (reconnect_rules k pattern cuts.now n lent) }
{
    refusals::check_cut_count(k)?;
    refusals::check_stop_count(n)?;
    refusals::check_pattern_index(k, pattern)?;
    refusals::check_cut_positions(k, n, cuts)?;
    refusals::check_room(n, lent)
}

pub fn route_length_refusal(
    locations: usize,
    legs: &[u32],
    depot: u32,
    end: u32,
    route: &[u32],
) -> Result<(), Refusal>
    ensures { judged result ≡ refusal (route_length_to_end_rules locations legs.now depot end route.now) }
{
    refusals::check_leg_table(locations, legs)?;
    refusals::check_leg_sizes(legs)?;
    refusals::check_known_stops(locations, depot, route)?;
    refusals::check_known_end(locations, end)?;
    refusals::check_stop_count(route.len())
}

#[tactic(auto, using(crate::proofs::Parts::judging_route), unfolding(theory::specs::Refusals::refusal))]
pub fn delta_refusal(
    k: usize,
    pattern: usize,
    cuts: &[usize],
    locations: usize,
    legs: &[u32],
    depot: u32,
    end: u32,
    route: &[u32],
) -> Result<(), Refusal>
    ensures { judged result ≡ refusal (delta_to_end_rules k pattern cuts.now locations legs.now depot end route.now) }
{
    refusals::check_cut_count(k)?;
    route_length_refusal(locations, legs, depot, end, route)?;
    refusals::check_pattern_index(k, pattern)?;
    refusals::check_cut_positions(k, route.len(), cuts)
}

// What polishing is handed, but for the result.
pub fn question_refusal(
    k: usize,
    locations: usize,
    legs: &[u32],
    latest: &[u32],
    service: &[u32],
    depot: u32,
    end: u32,
    route: &[u32],
) -> Result<(), Refusal>
    ensures { judged result ≡ refusal (cut_count k ∷ trip_rules (trip locations legs.now latest.now service.now depot end []) route.now) }
{
    refusals::check_cut_count(k)?;
    refusals::check_trip(locations, legs, latest, service, depot, end, route)
}

pub fn polish_refusal(
    k: usize,
    locations: usize,
    legs: &[u32],
    latest: &[u32],
    service: &[u32],
    depot: u32,
    end: u32,
    route: &[u32],
    lent: usize,
) -> Result<(), Refusal>
    ensures { judged result ≡ refusal (with_room (cut_count k ∷ trip_rules (trip locations legs.now latest.now service.now depot end []) route.now) 6 lent) }
{
    question_refusal(k, locations, legs, latest, service, depot, end, route)?;
    refusals::check_room(6, lent)
}

// The tables, the depot and a route, its end harbour and its pairs.
pub fn paired_refusal(
    locations: usize,
    legs: &[u32],
    latest: &[u32],
    service: &[u32],
    depot: u32,
    end: u32,
    pairs: &[u32],
    route: &[u32],
) -> Result<(), Refusal>
    ensures { judged result ≡ refusal (paired_rules (trip locations legs.now latest.now service.now depot end pairs.now) route.now) }
{
    refusals::check_tables(locations, legs, latest, service)?;
    refusals::check_known_stops(locations, depot, route)?;
    refusals::check_known_end(locations, end)?;
    precedence::check_pair_list(locations, pairs)?;
    refusals::check_stop_count(route.len())
}

pub fn polish_paired_refusal(
    k: usize,
    locations: usize,
    legs: &[u32],
    latest: &[u32],
    service: &[u32],
    depot: u32,
    end: u32,
    pairs: &[u32],
    route: &[u32],
    lent: usize,
) -> Result<(), Refusal>
    ensures { judged result ≡ refusal (with_room (cut_count k ∷ paired_rules (trip locations legs.now latest.now service.now depot end pairs.now) route.now) 6 lent) }
{
    refusals::check_cut_count(k)?;
    paired_refusal(locations, legs, latest, service, depot, end, pairs, route)?;
    refusals::check_room(6, lent)
}

pub fn pair_loop_refusal(
    locations: usize,
    legs: &[u32],
    latest: &[u32],
    service: &[u32],
    depot: u32,
    route: &[u32],
    lent: usize,
) -> Result<(), Refusal>
    ensures { judged result ≡ refusal (pair_loop_rules (tables locations legs.now latest.now service.now) depot route.now lent) }
{
    refusals::check_problem(locations, legs, latest, service, depot, route)?;
    refusals::check_room(6, lent)
}

// The sizes of a run's lists, and of its result.
fn sizes_refusal(
    stops: usize,
    lengths: &[usize],
    depots: &[u32],
    ends: &[u32],
    pins: &[u8],
    lent: usize,
) -> Result<(), Refusal>
    ensures { judged result ≡ refusal (with_room (round_lists lengths.now depots.now pins.now stops ∷ end_list lengths.now ends.now ∷ []) (4 * length lengths.now) lent) }
{
    refusals::check_round_lists(lengths, depots, pins, stops)?;
    refusals::check_end_list(lengths, ends)?;
    refusals::check_room(4 * lengths.len(), lent)
}

fn rounds_refusal(
    locations: usize,
    stops: &[u32],
    lengths: &[usize],
    depots: &[u32],
    ends: &[u32],
    pins: &[u8],
    lent: usize,
) -> Result<(), Refusal>
    ensures { judged result ≡ refusal (with_room (rounds_to_ends_rules locations (fleet stops.now lengths.now depots.now ends.now pins.now)) (4 * length lengths.now) lent) }
{
    refusals::check_known_rounds(locations, depots, stops)?;
    refusals::check_known_ends(locations, ends)?;
    sizes_refusal(stops.len(), lengths, depots, ends, pins, lent)
}

fn rounds_paired_refusal(
    locations: usize,
    stops: &[u32],
    lengths: &[usize],
    depots: &[u32],
    ends: &[u32],
    pins: &[u8],
    pairs: &[u32],
    lent: usize,
) -> Result<(), Refusal>
    ensures { judged result ≡ refusal (with_room (rounds_with_pairs_rules locations (fleet stops.now lengths.now depots.now ends.now pins.now) pairs.now) (4 * length lengths.now) lent) }
{
    refusals::check_known_rounds(locations, depots, stops)?;
    refusals::check_known_ends(locations, ends)?;
    precedence::check_pair_list(locations, pairs)?;
    sizes_refusal(stops.len(), lengths, depots, ends, pins, lent)
}

pub fn run_refusal(
    k: usize,
    locations: usize,
    legs: &[u32],
    latest: &[u32],
    service: &[u32],
    stops: &[u32],
    lengths: &[usize],
    depots: &[u32],
    ends: &[u32],
    pins: &[u8],
    lent: usize,
) -> Result<(), Refusal>
    ensures { judged result ≡ refusal (run_to_ends_rules k (tables locations legs.now latest.now service.now) (fleet stops.now lengths.now depots.now ends.now pins.now) lent) }
{
    refusals::check_cut_count(k)?;
    refusals::check_tables(locations, legs, latest, service)?;
    rounds_refusal(locations, stops, lengths, depots, ends, pins, lent)
}

pub fn run_paired_refusal(
    k: usize,
    locations: usize,
    legs: &[u32],
    latest: &[u32],
    service: &[u32],
    stops: &[u32],
    lengths: &[usize],
    depots: &[u32],
    ends: &[u32],
    pins: &[u8],
    pairs: &[u32],
    lent: usize,
) -> Result<(), Refusal>
    ensures { judged result ≡ refusal (run_with_pairs_rules k (tables locations legs.now latest.now service.now) (fleet stops.now lengths.now depots.now ends.now pins.now) pairs.now lent) }
{
    refusals::check_cut_count(k)?;
    refusals::check_tables(locations, legs, latest, service)?;
    rounds_paired_refusal(locations, stops, lengths, depots, ends, pins, pairs, lent)
}

pub fn nearby_refusal(
    n: usize,
    distances: &[f64],
    k: usize,
    m: usize,
    neighbours: usize,
    lent: usize,
) -> Result<(), Refusal>
    ensures { judged result ≡ refusal (nearby_rules n distances.now k m neighbours lent) }
{
    refusals::check_cut_count(k)?;
    refusals::check_stop_count(n)?;
    refusals::check_nearby_input(n, distances, m, neighbours)?;
    refusals::check_room(k, lent)
}

// Two routes of one length, and short enough for the search.
fn check_lengths(n: usize, m: usize) -> Result<(), Refusal>
    ensures { judged result ≡ number (short_pair n m) }
{
    if n != m || 48 < n {
        return Err(Refusal::MoveRounds);
    }
    Ok(())
}

// What the search for a move is handed, but for the result.
pub fn find_move_refusal(k: usize, n: usize, m: usize) -> Result<(), Refusal>
    ensures { judged result ≡ refusal (find_move_rules k n m) }
{
    refusals::check_cut_count(k)?;
    refusals::check_stop_count(n)?;
    refusals::check_stop_count(m)?;
    check_lengths(n, m)
}

// The same with the room of the lent result, of the C functions that must know it before they change anything.

// k + 1 segment numbers and a mask.
pub fn pattern_refusal_with_room(k: usize, pattern: usize, lent: usize) -> Result<(), Refusal>
    ensures { judged result ≡ refusal (with_room (pattern_rules k pattern) (k + 2) lent) }
{
    pattern_refusal(k, pattern)?;
    refusals::check_room(k + 2, lent)
}

// The flag, the index and k cuts.
pub fn find_move_refusal_with_room(k: usize, n: usize, m: usize, lent: usize) -> Result<(), Refusal>
    ensures { judged result ≡ refusal (with_room (find_move_rules k n m) (k + 2) lent) }
{
    find_move_refusal(k, n, m)?;
    refusals::check_room(k + 2, lent)
}

pub fn next_cut_set_refusal_with_room(
    k: usize,
    n: usize,
    cuts: &[usize],
    lent: usize,
) -> Result<(), Refusal>
    ensures { judged result ≡ refusal (with_room (next_cut_set_rules k n cuts.now) 1 lent) }
{
    next_cut_set_refusal(k, n, cuts)?;
    refusals::check_room(1, lent)
}

// The sets' places and the result's.
pub fn nearby_refusal_with_room(
    n: usize,
    distances: &[f64],
    k: usize,
    m: usize,
    neighbours: usize,
    sets: usize,
    lent: usize,
) -> Result<(), Refusal>
    ensures { judged result ≡ refusal (with_room (nearby_rules n distances.now k m neighbours sets) 2 lent) }
{
    nearby_refusal(n, distances, k, m, neighbours, sets)?;
    refusals::check_room(2, lent)
}
