// The listings of nearby cut sets, judged, with their number in a lent result or without. No entry: crate mittenschist hands them on.
#![tactic(auto, using(crate::proofs::ListingReply::listing))]

ghost use Rattle.theory.specs.Numbers.{judged};
ghost use Rattle.listing_calls.specs.Listings.{NearbyReply, NearbyWritten, EveryReply, EveryWritten};

use theory::{Listing, Refusal};

// Lists the nearby cut sets, k places each, until no whole set fits any more. Refuses 1, 5, 9, 21.
pub fn nearby_cuts(
    n: usize,
    distances: &[f64],
    k: usize,
    min_segment_len: usize,
    max_nearby: usize,
    sets: &mut [usize],
) -> Result<Listing, Refusal>
    ensures { NearbyReply n distances.now k min_segment_len max_nearby sets.old result sets.new }
{
    refusal_rules::nearby_refusal(n, distances, k, min_segment_len, max_nearby, sets.len())?;
    let answer = nearby::nearby_cuts(n, distances, k, min_segment_len, max_nearby, sets);
    Ok(answer)
}

// The same; the result receives the number of sets written, then 0 ended or 1 more. Refuses 1, 5, 9, 21.
pub fn write_nearby_cuts(
    n: usize,
    distances: &[f64],
    k: usize,
    min_segment_len: usize,
    max_nearby: usize,
    sets: &mut [usize],
    res: &mut [u64],
) -> Result<(), Refusal>
    ensures { NearbyWritten n distances.now k min_segment_len max_nearby sets.old res.old (judged result) sets.new res.new }
{
    refusal_rules::nearby_refusal_with_room(
        n,
        distances,
        k,
        min_segment_len,
        max_nearby,
        sets.len(),
        res.len(),
    )?;
    let answer = nearby::nearby_cuts(n, distances, k, min_segment_len, max_nearby, sets);
    entry_results::put(&entry_results::listing_numbers(answer), res)
}

// Lists every nearby cut set, k places each, until no whole set fits any more. Refuses 1, 5, 9, 21.
pub fn every_nearby_cuts(
    n: usize,
    distances: &[f64],
    k: usize,
    min_segment_len: usize,
    max_nearby: usize,
    sets: &mut [usize],
) -> Result<Listing, Refusal>
    ensures { EveryReply n distances.now k min_segment_len max_nearby sets.old result sets.new }
{
    refusal_rules::nearby_refusal(n, distances, k, min_segment_len, max_nearby, sets.len())?;
    let answer = every_nearby::every_nearby_cuts(
        n,
        distances,
        k,
        min_segment_len,
        max_nearby,
        sets,
    );
    Ok(answer)
}

// The same; the result receives the number of sets written, then 0 ended or 1 more. Refuses 1, 5, 9, 21.
pub fn write_every_nearby_cuts(
    n: usize,
    distances: &[f64],
    k: usize,
    min_segment_len: usize,
    max_nearby: usize,
    sets: &mut [usize],
    res: &mut [u64],
) -> Result<(), Refusal>
    ensures { EveryWritten n distances.now k min_segment_len max_nearby sets.old res.old (judged result) sets.new res.new }
{
    refusal_rules::nearby_refusal_with_room(
        n,
        distances,
        k,
        min_segment_len,
        max_nearby,
        sets.len(),
        res.len(),
    )?;
    let answer = every_nearby::every_nearby_cuts(
        n,
        distances,
        k,
        min_segment_len,
        max_nearby,
        sets,
    );
    entry_results::put(&entry_results::listing_numbers(answer), res)
}
