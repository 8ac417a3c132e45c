// One small check for each refusal, which it answers where its rule applies to the raw input. No entry: the crates above call them.
#![tactic(auto)]

ghost use Rattle.std.specs.Prelude.{◌≡◌, [], ◌≤◌};
ghost use Rattle.theory.specs.Refusals.{number, cut_count, leg_table, deadline_list, leg_sizes, service_list, known_stops, known_end, stop_count, pattern_index, cut_positions, room, refusal, table_rules, problem_rules, trip_rules, cut_lists, own_round, journal_length, known_rounds, known_ends, round_lists, end_list, nearby_input};
ghost use Rattle.theory.specs.Tables.{tables, trip};
ghost use Rattle.theory.specs.Numbers.{judged};
ghost use Rattle.patterns.specs.Enumeration.{CutCount};

use theory::Refusal;

pub fn check_cut_count(k: usize) -> Result<(), Refusal>
    ensures { judged result ≡ number (cut_count k) }
{
    if k < 2 || 5 < k {
        return Err(Refusal::CutCount);
    }
    Ok(())
}

pub fn check_leg_table(locations: usize, legs: &[u32]) -> Result<(), Refusal>
    ensures { judged result ≡ number (leg_table locations legs.now) }
{
    if locations < 1 || 1024 < locations || legs.len() != locations * locations {
        return Err(Refusal::TableSize);
    }
    Ok(())
}

pub fn check_deadline_list(locations: usize, latest: &[u32]) -> Result<(), Refusal>
    ensures { judged result ≡ number (deadline_list locations latest.now) }
{
    if latest.len() != locations {
        return Err(Refusal::TableSize);
    }
    Ok(())
}

pub fn check_leg_sizes(legs: &[u32]) -> Result<(), Refusal>
    ensures { judged result ≡ number (leg_sizes legs.now) }
{
    if refusal_tests::any_above(legs, 1000000) {
        return Err(Refusal::LongLeg);
    }
    Ok(())
}

pub fn check_service_list(locations: usize, service: &[u32]) -> Result<(), Refusal>
    ensures { judged result ≡ number (service_list locations service.now) }
{
    if service.len() != locations || refusal_tests::any_above(service, 1000000) {
        return Err(Refusal::ServiceList);
    }
    Ok(())
}

pub fn check_known_stops(locations: usize, depot: u32, route: &[u32]) -> Result<(), Refusal>
    ensures { judged result ≡ number (known_stops locations depot route.now) }
{
    if locations <= depot as usize || refusal_tests::any_unknown(route, locations) {
        return Err(Refusal::UnknownStop);
    }
    Ok(())
}

pub fn check_known_end(locations: usize, end: u32) -> Result<(), Refusal>
    ensures { judged result ≡ number (known_end locations end) }
{
    if locations <= end as usize {
        return Err(Refusal::UnknownEnd);
    }
    Ok(())
}

pub fn check_stop_count(n: usize) -> Result<(), Refusal>
    ensures { judged result ≡ number (stop_count n) }
{
    if 512 < n {
        return Err(Refusal::RoundSize);
    }
    Ok(())
}

// Judged after k: what the count for another k is plays no part.
pub fn check_pattern_index(k: usize, index: usize) -> Result<(), Refusal>
    requires { CutCount k }
    ensures { judged result ≡ number (pattern_index k index) }
{
    if patterns::pattern_count(k) <= index {
        return Err(Refusal::PatternIndex);
    }
    Ok(())
}

pub fn check_cut_positions(k: usize, n: usize, cuts: &[usize]) -> Result<(), Refusal>
    ensures { judged result ≡ number (cut_positions k n cuts.now) }
{
    if cuts.len() != k
        || refusal_tests::any_beyond(cuts, n)
        || !refusal_tests::strictly_rising(cuts)
    {
        return Err(Refusal::Cuts);
    }
    Ok(())
}

pub fn check_cut_lists(rounds: &[usize], positions: &[usize]) -> Result<(), Refusal>
    ensures { judged result ≡ number (cut_lists rounds.now positions.now) }
{
    if rounds.len() != positions.len() {
        return Err(Refusal::Cuts);
    }
    Ok(())
}

pub fn check_own_round(round: usize, rounds: &[usize]) -> Result<(), Refusal>
    ensures { judged result ≡ number (own_round round rounds.now) }
{
    if refusal_tests::any_other(rounds, round) {
        return Err(Refusal::OtherRound);
    }
    Ok(())
}

pub fn check_room(needed: usize, lent: usize) -> Result<(), Refusal>
    ensures { judged result ≡ number (room needed lent) }
{
    if lent < needed {
        return Err(Refusal::Room);
    }
    Ok(())
}

pub fn check_journal_length(n: usize, journal: usize) -> Result<(), Refusal>
    ensures { judged result ≡ number (journal_length n journal) }
{
    if journal != n {
        return Err(Refusal::JournalLength);
    }
    Ok(())
}

// The tables, in the one order.
#[tactic(auto, using(theory::proofs::Checks::judging), unfolding(theory::specs::Refusals::refusal))]
pub fn check_tables(
    locations: usize,
    legs: &[u32],
    latest: &[u32],
    service: &[u32],
) -> Result<(), Refusal>
    ensures { judged result ≡ refusal (table_rules (tables locations legs.now latest.now service.now)) }
{
    check_leg_table(locations, legs)?;
    check_deadline_list(locations, latest)?;
    check_leg_sizes(legs)?;
    check_service_list(locations, service)
}

// The tables, and then the depot and a route.
#[tactic(auto, using(theory::proofs::Checks::judging), unfolding(theory::specs::Refusals::refusal))]
pub fn check_problem(
    locations: usize,
    legs: &[u32],
    latest: &[u32],
    service: &[u32],
    depot: u32,
    route: &[u32],
) -> Result<(), Refusal>
    ensures { judged result ≡ refusal (problem_rules (tables locations legs.now latest.now service.now) depot route.now) }
{
    check_tables(locations, legs, latest, service)?;
    check_known_stops(locations, depot, route)?;
    check_stop_count(route.len())
}

// The tables, the depot and a route, and its end harbour.
#[tactic(auto, using(theory::proofs::Checks::judging), unfolding(theory::specs::Refusals::refusal))]
pub fn check_trip(
    locations: usize,
    legs: &[u32],
    latest: &[u32],
    service: &[u32],
    depot: u32,
    end: u32,
    route: &[u32],
) -> Result<(), Refusal>
    ensures { judged result ≡ refusal (trip_rules (trip locations legs.now latest.now service.now depot end []) route.now) }
{
    check_tables(locations, legs, latest, service)?;
    check_known_stops(locations, depot, route)?;
    check_known_end(locations, end)?;
    check_stop_count(route.len())
}

// ---- the checks of what only a run over rounds or the nearby cuts take

pub fn check_known_rounds(locations: usize, depots: &[u32], stops: &[u32]) -> Result<(), Refusal>
    ensures { judged result ≡ number (known_rounds locations depots.now stops.now) }
{
    if refusal_tests::any_unknown(depots, locations)
        || refusal_tests::any_unknown(stops, locations)
    {
        return Err(Refusal::UnknownStop);
    }
    Ok(())
}

pub fn check_known_ends(locations: usize, ends: &[u32]) -> Result<(), Refusal>
    ensures { judged result ≡ number (known_ends locations ends.now) }
{
    if refusal_tests::any_unknown(ends, locations) {
        return Err(Refusal::UnknownEnd);
    }
    Ok(())
}

pub fn check_end_list(lengths: &[usize], ends: &[u32]) -> Result<(), Refusal>
    ensures { judged result ≡ number (end_list lengths.now ends.now) }
{
    if ends.len() != lengths.len() {
        return Err(Refusal::RoundSize);
    }
    Ok(())
}

// The lengths are summed only where the sum is small.
pub fn check_round_lists(
    lengths: &[usize],
    depots: &[u32],
    pins: &[u8],
    stops: usize,
) -> Result<(), Refusal>
    ensures { judged result ≡ number (round_lists lengths.now depots.now pins.now stops) }
{
    let rounds = lengths.len();
    if 64 < rounds
        || refusal_tests::any_beyond(lengths, 512)
        || depots.len() != rounds
        || pins.len() != rounds
        || refusal_tests::all_stops(lengths) != stops
    {
        return Err(Refusal::RoundSize);
    }
    Ok(())
}

// Judged after n: n × n is formed only where n is small.
pub fn check_nearby_input(
    n: usize,
    distances: &[f64],
    m: usize,
    neighbours: usize,
) -> Result<(), Refusal>
    requires { n ≤ 512 }
    ensures { judged result ≡ number (nearby_input n distances.now m neighbours) }
{
    if m < 1
        || 512 < m
        || 32 < neighbours
        || distances.len() != n * n
        || refusal_tests::any_no_number(distances)
    {
        return Err(Refusal::NearbyInput);
    }
    Ok(())
}
