// The run, and the run in shares of the allowance, judged. No entry: crate mittenschist hands them on.
#![tactic(auto)]

ghost use Rattle.theory.specs.Numbers.{judged};
ghost use Rattle.theory.specs.Tables.{tables, fleet};
ghost use Rattle.run_calls.specs.Runs.{RunReply, RunToEndsReply, RunWithPairsReply, SharesReply};

use theory::Refusal;

// The run over rounds that lie end to end, each to its end harbour. Refuses 1, 2, 3, 23, 4, 24, 5, 21. The result receives four numbers a round: state, examined, accepted, applied.
pub fn run_to_ends(
    k: usize,
    allowance: u64,
    locations: usize,
    legs: &[u32],
    latest: &[u32],
    service: &[u32],
    stops: &mut [u32],
    lengths: &[usize],
    depots: &[u32],
    ends: &[u32],
    pins: &[u8],
    res: &mut [u64],
) -> Result<(), Refusal>
    ensures { RunToEndsReply k allowance (tables locations legs.now latest.now service.now) (fleet stops.old lengths.now depots.now ends.now pins.now) res.old (judged result) stops.new res.new }
{
    let lent = res.len();
    refusal_rules::run_refusal(
        k,
        locations,
        legs,
        latest,
        service,
        &stops[..],
        lengths,
        depots,
        ends,
        pins,
        lent,
    )?;
    let none = [0u64; 1];
    run::run_list_k_opt_in_phase(
        k,
        allowance,
        locations,
        legs,
        latest,
        service,
        stops,
        lengths,
        depots,
        ends,
        pins,
        &legs[..0],
        &none[..0],
        res,
    );
    Ok(())
}

// The run over closed tours. Refuses 1, 2, 3, 23, 4, 5, 21.
pub fn run_closed_tours(
    k: usize,
    allowance: u64,
    locations: usize,
    legs: &[u32],
    latest: &[u32],
    service: &[u32],
    stops: &mut [u32],
    lengths: &[usize],
    depots: &[u32],
    pins: &[u8],
    res: &mut [u64],
) -> Result<(), Refusal>
    ensures { RunReply k allowance (tables locations legs.now latest.now service.now) (fleet stops.old lengths.now depots.now depots.now pins.now) res.old (judged result) stops.new res.new }
{
    run_to_ends(
        k, allowance, locations, legs, latest, service, stops, lengths, depots, depots, pins, res,
    )
}

// With the words of the pairs, which are made and filled.
fn run_by_words(
    k: usize,
    allowance: u64,
    locations: usize,
    legs: &[u32],
    latest: &[u32],
    service: &[u32],
    stops: &mut [u32],
    lengths: &[usize],
    depots: &[u32],
    ends: &[u32],
    pins: &[u8],
    pairs: &[u32],
    res: &mut [u64],
) -> Result<(), Refusal>
    ensures { RunWithPairsReply k allowance (tables locations legs.now latest.now service.now) (fleet stops.old lengths.now depots.now ends.now pins.now) pairs.now res.old (judged result) stops.new res.new }
{
    let lent = res.len();
    refusal_rules::run_paired_refusal(
        k,
        locations,
        legs,
        latest,
        service,
        &stops[..],
        lengths,
        depots,
        ends,
        pins,
        pairs,
        lent,
    )?;
    run::run_with_pairs(
        k, allowance, locations, legs, latest, service, stops, lengths, depots, ends, pins, pairs,
        res,
    );
    Ok(())
}

// The run with pairs, one list for all rounds. Refuses 1, 2, 3, 23, 4, 24, 29, 5, 21. With an empty list no word is made.
pub fn run_with_pairs(
    k: usize,
    allowance: u64,
    locations: usize,
    legs: &[u32],
    latest: &[u32],
    service: &[u32],
    stops: &mut [u32],
    lengths: &[usize],
    depots: &[u32],
    ends: &[u32],
    pins: &[u8],
    pairs: &[u32],
    res: &mut [u64],
) -> Result<(), Refusal>
    ensures { RunWithPairsReply k allowance (tables locations legs.now latest.now service.now) (fleet stops.old lengths.now depots.now ends.now pins.now) pairs.now res.old (judged result) stops.new res.new }
{
    if pairs.len() == 0 {
        return run_to_ends(
            k, allowance, locations, legs, latest, service, stops, lengths, depots, ends, pins, res,
        );
    }
    run_by_words(
        k, allowance, locations, legs, latest, service, stops, lengths, depots, ends, pins, pairs,
        res,
    )
}

// The rounds of a run with shares of the allowance. Refuses 1, 2, 3, 23, 4, 24, 29, 5, 21. The result receives the run's four numbers a round, never state 0.
pub fn run_in_shares(
    k: usize,
    allowance: u64,
    locations: usize,
    legs: &[u32],
    latest: &[u32],
    service: &[u32],
    stops: &mut [u32],
    lengths: &[usize],
    depots: &[u32],
    ends: &[u32],
    pins: &[u8],
    pairs: &[u32],
    res: &mut [u64],
) -> Result<(), Refusal>
    ensures { SharesReply k allowance (tables locations legs.now latest.now service.now) (fleet stops.old lengths.now depots.now ends.now pins.now) pairs.now res.old (judged result) stops.new res.new }
{
    let lent = res.len();
    refusal_rules::run_paired_refusal(
        k,
        locations,
        legs,
        latest,
        service,
        &stops[..],
        lengths,
        depots,
        ends,
        pins,
        pairs,
        lent,
    )?;
    shares::run_in_shares(
        k, allowance, locations, legs, latest, service, stops, lengths, depots, ends, pins, pairs,
        res,
    );
    Ok(())
}
