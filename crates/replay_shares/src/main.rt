// Replays worked examples of shares of the allowance, a line each: the refusal number, the result, and the stops that are left.
#![tactic(auto)]

use replay_lines::{PAIR_CASE_LEGS, Spaced};
use std::io;

// Rounds of one location, where nothing can be gained: one of four stops takes 70 candidates with k = 3.
fn show_idle(
    rt: &impl Print,
    allowance: u64,
    stops: &mut [u32],
    lengths: &[usize],
    harbours: &[u32],
    pins: &[u8],
    res: &mut [u64],
) -> io::Result<()> {
    let refused = mittenschist::mittenschist_run_in_shares(
        3,
        allowance,
        1,
        &[0],
        &[0],
        &[0],
        stops,
        lengths,
        harbours,
        harbours,
        pins,
        &[],
        res,
    );
    println!(rt;
        "shares {refused} result{} stops{}",
        Spaced(res),
        Spaced(stops)
    )
}

// Two rounds of four stops.
fn show_two(rt: &impl Print, allowance: u64) -> io::Result<()> {
    show_idle(
        rt,
        allowance,
        &mut [0; 8],
        &[4, 4],
        &[0, 0],
        &[0, 0],
        &mut [9; 9],
    )
}

// A pinned round, one that takes part, a pinned and a short one, and another that takes part.
fn show_between(rt: &impl Print, allowance: u64) -> io::Result<()> {
    show_idle(
        rt,
        allowance,
        &mut [0; 12],
        &[1, 4, 0, 3, 4],
        &[0; 5],
        &[1, 0, 200, 0, 0],
        &mut [9; 20],
    )
}

// The pair case twice, with two cuts: the second candidate is taken, and a round takes 12 in all.
fn show_case(rt: &impl Print, allowance: u64, pairs: &[u32], res: &mut [u64]) -> io::Result<()> {
    let mut stops = [1, 2, 3, 4, 1, 2, 3, 4];
    let refused = mittenschist::mittenschist_run_in_shares(
        2,
        allowance,
        5,
        &PAIR_CASE_LEGS,
        &[u32::MAX; 5],
        &[0; 5],
        &mut stops,
        &[4, 4],
        &[0, 0],
        &[0, 0],
        &[0, 0],
        pairs,
        res,
    );
    println!(rt;
        "shares {refused} result{} stops{}",
        Spaced(res),
        Spaced(&stops)
    )
}

fn show_allowances(rt: &impl Print) -> io::Result<()> {
    for allowance in [71, 150, 1, 0, u64::MAX] {
        show_two(rt, allowance)?;
    }
    Ok(())
}

// With none that takes part, and with others between those that do.
fn show_others(rt: &impl Print) -> io::Result<()> {
    show_idle(rt, 0, &mut [0; 9], &[4, 5], &[0, 0], &[1, 2], &mut [9; 8])?;
    show_idle(rt, 100, &mut [], &[], &[], &[], &mut [9; 1])?;
    show_between(rt, 151)?;
    show_between(rt, 3)
}

// Spent with what was accepted, finished with what was left over; A before B; equal members; too few places.
fn show_cases(rt: &impl Print) -> io::Result<()> {
    show_case(rt, 5, &[], &mut [9; 8])?;
    show_case(rt, 25, &[], &mut [9; 8])?;
    show_case(rt, 25, &[1, 2], &mut [9; 8])?;
    show_case(rt, 25, &[3, 3], &mut [9; 8])?;
    show_case(rt, 25, &[], &mut [9; 7])
}

fn main(rt: HostRuntime) -> io::Result<()> {
    show_allowances(&rt)?;
    show_others(&rt)?;
    show_cases(&rt)
}
