// Replays polishing in slices on the text case of document 01, a line each: the refusal number, the result, the place and the stops, with a number lent beyond the six
// and one beyond the place.
#![tactic(auto)]

use replay_lines::{Spaced, TEXT_CASE_LEGS};
use std::io;
use theory::number_of;

// What a slice told: whether its allowance was spent, and how many candidates it examined and accepted.
#[derive(Clone, Copy)]
struct Told {
    spent: bool,
    examined: u64,
    accepted: u64,
}

// A slice of the text case on a route, from a place on.
fn show_slice(
    rt: &impl Print,
    k: usize,
    allowance: u64,
    route: &mut [u32],
    place: &mut [u64],
) -> io::Result<Told> {
    let mut result = [9; 7];
    let refused = number_of(slice_calls::polish_slice(
        k,
        allowance,
        3,
        &TEXT_CASE_LEGS,
        &[u32::MAX; 3],
        &[0; 3],
        0,
        0,
        &[],
        route,
        place,
        &mut result,
    ));
    println!(rt;
        "slice {refused} result{} place{} stops{}",
        Spaced(&result),
        Spaced(place),
        Spaced(route)
    )?;
    Ok(Told {
        spent: result[0] == 1,
        examined: result[1],
        accepted: result[2],
    })
}

// Slices of one size, each begun where the one before was spent, and the sums of what they examined and accepted. None of these takes more than 20.
fn show_slices(
    rt: &impl Print,
    k: usize,
    allowance: u64,
    route: &mut [u32],
    place: &mut [u64],
) -> io::Result<()> {
    let mut examined = 0u64;
    let mut accepted = 0u64;
    for _ in 0..20 {
        let told = show_slice(rt, k, allowance, route, place)?;
        examined = examined.wrapping_add(told.examined);
        accepted = accepted.wrapping_add(told.accepted);
        if !told.spent {
            return println!(rt; "sums {examined} {accepted}");
        }
    }
    Ok(())
}

// The text case in one call, and in slices of one, two, three and five candidates; a number lent beyond the place is kept.
fn show_text_case(rt: &impl Print) -> io::Result<()> {
    for allowance in [100, 1, 2, 3, 5] {
        show_slices(rt, 3, allowance, &mut [1, 2], &mut [0, 1, 2, 0, 9])?;
    }
    Ok(())
}

// A stop of it twice: slices that end in the middle of a cut set's patterns, and one of no candidate.
fn show_three_stops(rt: &impl Print) -> io::Result<()> {
    let mut route = [1, 2, 1];
    let mut place = [0, 1, 2, 0];
    for allowance in [6, 12, 0, 6] {
        show_slice(rt, 3, allowance, &mut route, &mut place)?;
    }
    show_slices(rt, 3, 7, &mut [1, 2, 1], &mut [0, 1, 2, 0])?;
    show_slices(rt, 3, 100, &mut [1, 2, 1], &mut [0, 1, 2, 0])
}

// Places to which no slice led; the last one of a round that is not 3-optimal finishes.
fn show_places(rt: &impl Print) -> io::Result<()> {
    show_slice(rt, 3, 5, &mut [2, 1, 1], &mut [0, 1, 3, 5])?;
    show_slice(rt, 2, 4, &mut [1, 2, 1], &mut [0, 2, 0])?;
    show_slice(rt, 3, 100, &mut [1, 2, 1], &mut [1, 2, 3, 6])?;
    Ok(())
}

// More cuts than positions: finished, whatever the place holds.
fn show_no_cut_set(rt: &impl Print) -> io::Result<()> {
    show_slice(rt, 4, 100, &mut [1, 2], &mut [9, 9, 9, 9, 99])?;
    Ok(())
}

// Places that are none: 6 before 7, and both before 21.
fn show_refused(rt: &impl Print) -> io::Result<()> {
    show_slice(rt, 3, 100, &mut [1, 2, 1], &mut [1, 2, 2, 7])?;
    show_slice(rt, 3, 100, &mut [1, 2, 1], &mut [1, 2, 2, 6])?;
    show_slice(rt, 3, 100, &mut [1, 2, 1], &mut [1, 2, 4, 6])?;
    show_slice(rt, 3, 100, &mut [1, 2, 1], &mut [1, 2])?;
    show_slice(rt, 3, 100, &mut [1, 2, 1], &mut [1, 2, 3])?;
    show_slice(rt, 4, 100, &mut [1, 2], &mut [9, 9, 9, 9])?;
    Ok(())
}

fn main(rt: HostRuntime) -> io::Result<()> {
    show_text_case(&rt)?;
    show_three_stops(&rt)?;
    show_places(&rt)?;
    show_no_cut_set(&rt)?;
    show_refused(&rt)
}
