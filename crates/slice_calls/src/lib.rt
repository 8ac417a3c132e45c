// Polishing in slices, judged: the scan from a lent place on, with the place where it was spent and the six numbers of polishing. No entry: crate mittenschist hands it on.
#![tactic(auto)]

ghost use Rattle.std.specs.Prelude.{◌≡◌, ◌∷◌, ◌++◌, suc, ◌≤◌, length, get_or, take, drop};
ghost use Rattle.theory.specs.Numbers.{judged};
ghost use Rattle.theory.specs.Moves.{patterns};
ghost use Rattle.theory.specs.Refusals.{refusal};
ghost use Rattle.theory.specs.Tables.{problem, trip};
ghost use Rattle.theory.specs.Question.{question_with_pairs};
ghost use Rattle.slices.specs.Places.{place_rules};
ghost use Rattle.polishing.specs.Loop.{SliceableWithPairs, SlicedRows};
ghost use Rattle.slice_calls.specs.Slicing.{place_found, slice_rules, PlaceJudged, PlacePut, PolishSliceReply};

use polishing::Sliced;
use theory::{Counts, Refusal};

// The first numbers of a place, as positions.
fn held_cuts(place: &[u64], held: usize) -> [usize; 5]
    requires { (held ≤ 5) × (held ≤ length place.now) }
    ensures { (length result ≡ 5) × (take held result ≡ take held place.now) }
{
    let mut cuts = [0usize; 5];
    for i in 0..held {
        cuts[i] = place[i] as usize;
    }
    cuts
}

// The number at k, or 0 where there is none.
fn held_index(k: usize, place: &[u64]) -> usize
    ensures { result ≡ get_or place.now k 0 }
{
    if place.len() <= k {
        return 0;
    }
    place[k] as usize
}

// 6 or 7 for a place that is none.
fn no_place(k: usize, n: usize, place: &[u64]) -> Result<(), Refusal>
    requires { PlaceJudged k n }
    ensures { judged result ≡ place_found k n place.now }
{
    let held = k.min(place.len());
    let cuts = held_cuts(place, held);
    refusals::check_pattern_index(k, held_index(k, place))?;
    refusals::check_cut_positions(k, n, &cuts[..held])
}

// With more cuts than positions no place is asked for, but room for one is.
fn place_refusal(k: usize, n: usize, place: &[u64]) -> Result<(), Refusal>
    requires { PlaceJudged k n }
    ensures { judged result ≡ refusal (place_rules k n place.now) }
{
    if n + 1 < k {
        return refusals::check_room(k + 1, place.len());
    }
    no_place(k, n, place)?;
    refusals::check_room(k + 1, place.len())
}

// What a slice is handed, judged.
fn slice_refusal(
    k: usize,
    locations: usize,
    legs: &[u32],
    latest: &[u32],
    service: &[u32],
    depot: u32,
    end: u32,
    pairs: &[u32],
    route: &[u32],
    place: &[u64],
    lent: usize,
) -> Result<(), Refusal>
    ensures { judged result ≡ refusal (slice_rules k (trip locations legs.now latest.now service.now depot end pairs.now) route.now place.now lent) }
{
    refusals::check_cut_count(k)?;
    refusal_rules::paired_refusal(locations, legs, latest, service, depot, end, pairs, route)?;
    place_refusal(k, route.len(), place)?;
    refusals::check_room(6, lent)
}

// With an empty list of pairs no word is made.
fn slice_paired(
    k: usize,
    allowance: u64,
    locations: usize,
    legs: &[u32],
    latest: &[u32],
    service: &[u32],
    depot: u32,
    end: u32,
    pairs: &[u32],
    start: [usize; 5],
    from: usize,
    route: &mut [u32],
) -> Sliced
    requires { SliceableWithPairs k (trip locations legs.now latest.now service.now depot end pairs.now) start from route.old }
    ensures { SlicedRows (problem (trip locations legs.now latest.now service.now depot end pairs.now)) (patterns k) k allowance start from route.old result route.new }
{
    if pairs.len() == 0 {
        let none = [0u64; 1];
        return polishing::slice_route(
            k,
            allowance,
            locations,
            legs,
            latest,
            service,
            depot,
            end,
            pairs,
            &none[..0],
            start,
            from,
            route,
        );
    }
    polishing::slice_with_pairs(
        k, allowance, locations, legs, latest, service, depot, end, pairs, start, from, route,
    )
}

// The cuts of a place into its first numbers.
fn put_cuts(k: usize, cuts: [usize; 5], place: &mut [u64])
    requires { PlacePut k cuts place.old }
    ensures { place.new ≡ take k cuts ++ drop k place.old }
{
    for i in 0..k {
        place[i] = cuts[i] as u64;
    }
}

// A place into the first k + 1 numbers; those beyond are kept.
fn put_place(k: usize, cuts: [usize; 5], index: usize, place: &mut [u64])
    requires { PlacePut k cuts place.old }
    ensures { place.new ≡ take k cuts ++ (index ∷ drop (suc k) place.old) }
{
    put_cuts(k, cuts, place);
    place[k] = index as u64;
}

// A slice of polishing a route that keeps pairs: the scan from the place on. Refuses 1, 2, 3, 23, 4, 24, 29, 5, 6, 7, 21. The place receives that of the next candidate, or the
// first one where the scan has finished; the result the six numbers of polishing, of this slice.
pub fn polish_slice(
    k: usize,
    allowance: u64,
    locations: usize,
    legs: &[u32],
    latest: &[u32],
    service: &[u32],
    depot: u32,
    end: u32,
    pairs: &[u32],
    route: &mut [u32],
    place: &mut [u64],
    res: &mut [u64],
) -> Result<(), Refusal>
    ensures { PolishSliceReply (question_with_pairs k allowance locations legs.now latest.now service.now depot end pairs.now route.old) place.old res.old (judged result) route.new place.new res.new }
{
    slice_refusal(
        k,
        locations,
        legs,
        latest,
        service,
        depot,
        end,
        pairs,
        &route[..],
        &place[..],
        res.len(),
    )?;
    let start = held_cuts(&place[..], k);
    let from = held_index(k, &place[..]);
    let sliced = slice_paired(
        k, allowance, locations, legs, latest, service, depot, end, pairs, start, from, route,
    );
    let cuts = sliced.cuts;
    put_place(k, cuts, sliced.index, place);
    let answer = polish_numbers::counted(
        sliced.finished,
        Counts {
            examined: sliced.examined,
            accepted: sliced.accepted,
            before: sliced.before,
            after: sliced.after,
            late: sliced.late,
        },
    );
    polish_numbers::put_polished(answer, res);
    Ok(())
}
