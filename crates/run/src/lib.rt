// The run over rounds that lie end to end. No entry: crate mittenschist calls it.
#![tactic(auto)]

pub mod round;

ghost use Rattle.theory.specs.Tables.{tables, fleet};
ghost use Rattle.run.specs.Run.{RunnableLent, RunnableWithPairs, Ran};

use precedence::MEMBERS;

// Every round of a run, with the words of its pairs, one list for all rounds. A spent round leaves nothing of the allowance, so the rounds after it are written as not reached: the run has stopped.
pub fn run_list_k_opt_in_phase(
    k: usize,
    allowance: u64,
    locations: usize,
    legs: &[u32],
    latest: &[u32],
    service: &[u32],
    stops: &mut [u32],
    lengths: &[usize],
    depots: &[u32],
    ends: &[u32],
    pins: &[u8],
    pairs: &[u32],
    members: &[u64],
    res: &mut [u64],
)
    requires { RunnableLent k (tables locations legs.now latest.now service.now) (fleet stops.old lengths.now depots.now ends.now pins.now) pairs.now members.now res.old }
    ensures { Ran k allowance (tables locations legs.now latest.now service.now) (fleet stops.old lengths.now depots.now ends.now pins.now) pairs.now res.old stops.new res.new }
{
    let mut left = allowance;
    let mut at = 0;
    for i in 0..lengths.len() {
        let behind = at + lengths[i];
        let depot = depots[i];
        let end = ends[i];
        let pin = pins[i];
        let route = &mut stops[at..behind];
        let state = round::run_round(
            k, left, locations, legs, latest, service, depot, end, pairs, members, pin, route,
        );
        let row = 4 * i;
        let row_end = row + 4;
        run_numbers::put_state(state, &mut res[row..row_end]);
        left -= run_numbers::examined(state);
        at = behind;
    }
}

// The same where the words are still to be made: they stand here alone, once for all rounds, so that a run without pairs fills none.
pub fn run_with_pairs(
    k: usize,
    allowance: u64,
    locations: usize,
    legs: &[u32],
    latest: &[u32],
    service: &[u32],
    stops: &mut [u32],
    lengths: &[usize],
    depots: &[u32],
    ends: &[u32],
    pins: &[u8],
    pairs: &[u32],
    res: &mut [u64],
)
    requires { RunnableWithPairs k (tables locations legs.now latest.now service.now) (fleet stops.old lengths.now depots.now ends.now pins.now) pairs.now res.old }
    ensures { Ran k allowance (tables locations legs.now latest.now service.now) (fleet stops.old lengths.now depots.now ends.now pins.now) pairs.now res.old stops.new res.new }
{
    let mut members = [0u64; MEMBERS];
    precedence::fill_members(pairs, &mut members);
    run_list_k_opt_in_phase(
        k,
        allowance,
        locations,
        legs,
        latest,
        service,
        stops,
        lengths,
        depots,
        ends,
        pins,
        pairs,
        &members[..],
        res,
    );
}
