// Replays document 01's pair case over the pair loop's entry, and worked examples of a run over rounds, a line each: the refusal number, the result, and the stops that
// are left.
#![tactic(auto)]

use replay_lines::{PAIR_CASE_LEGS, Spaced};
use std::io;

// The pair loop on a route of the pair case, with an allowance, A's latest second and a lent result.
fn show_pairs(
    rt: &impl Print,
    allowance: u64,
    latest: u32,
    route: &mut [u32],
    res: &mut [u64],
) -> io::Result<()> {
    let mut deadlines = [u32::MAX; 5];
    deadlines[1] = latest;
    let refused = mittenschist::mittenschist_pair_loop(
        allowance,
        5,
        &PAIR_CASE_LEGS,
        &deadlines,
        &[0; 5],
        0,
        route,
        res,
    );
    println!(rt;
        "pairs {refused} result{} stops{}",
        Spaced(res),
        Spaced(route)
    )
}

// The pair case by a run.
fn show_case(rt: &impl Print, k: usize, allowance: u64, pin: u8) -> io::Result<()> {
    let mut stops = [1, 2, 3, 4];
    let mut result = [9; 5];
    let refused = mittenschist::mittenschist_run_list_k_opt(
        k,
        allowance,
        5,
        &PAIR_CASE_LEGS,
        &[u32::MAX; 5],
        &[0; 5],
        &mut stops,
        &[4],
        &[0],
        &[pin],
        &mut result,
    );
    println!(rt;
        "run {refused} result{} stops{}",
        Spaced(&result),
        Spaced(&stops)
    )
}

// The pair case twice, to other ends.
fn show_ends(rt: &impl Print, k: usize, ends: &[u32]) -> io::Result<()> {
    let mut stops = [1, 2, 3, 4, 1, 2, 3, 4];
    let mut result = [9; 9];
    let refused = mittenschist::mittenschist_run_list_k_opt_to_ends(
        k,
        1000,
        5,
        &PAIR_CASE_LEGS,
        &[u32::MAX; 5],
        &[0; 5],
        &mut stops,
        &[4, 4],
        &[0, 0],
        ends,
        &[0, 0],
        &mut result,
    );
    println!(rt;
        "run {refused} result{} stops{}",
        Spaced(&result),
        Spaced(&stops)
    )
}

// The pair case twice with pairs, one list for both.
fn show_keeping(rt: &impl Print, k: usize, pairs: &[u32]) -> io::Result<()> {
    let mut stops = [1, 2, 3, 4, 1, 2, 3, 4];
    let mut result = [9; 9];
    let refused = mittenschist::mittenschist_run_list_k_opt_with_pairs(
        k,
        1000,
        5,
        &PAIR_CASE_LEGS,
        &[u32::MAX; 5],
        &[0; 5],
        &mut stops,
        &[4, 4],
        &[0, 0],
        &[0, 3],
        &[0, 0],
        pairs,
        &mut result,
    );
    println!(rt;
        "run {refused} result{} stops{}",
        Spaced(&result),
        Spaced(&stops)
    )
}

// Three rounds of one location: the first takes 70 candidates with k = 3, the second is short, the third pinned.
fn show_rounds(rt: &impl Print, allowance: u64) -> io::Result<()> {
    let mut stops = [0; 10];
    let mut result = [9; 12];
    let refused = mittenschist::mittenschist_run_list_k_opt(
        3,
        allowance,
        1,
        &[0],
        &[0],
        &[0],
        &mut stops,
        &[4, 2, 4],
        &[0, 0, 0],
        &[0, 0, 200],
        &mut result,
    );
    println!(rt;
        "run {refused} result{} stops{}",
        Spaced(&result),
        Spaced(&stops)
    )
}

// Up to each acceptance, and to the end.
fn show_way(rt: &impl Print) -> io::Result<()> {
    for allowance in [0, 1, 2, 8, 17, 18, 1000] {
        show_pairs(rt, allowance, u32::MAX, &mut [1, 2, 3, 4], &mut [9; 7])?;
    }
    Ok(())
}

// A late and not improved, no pair, one, and too few places.
fn show_bounds(rt: &impl Print) -> io::Result<()> {
    show_pairs(rt, 1000, 1, &mut [1, 2, 3, 4], &mut [9; 7])?;
    show_pairs(rt, 0, u32::MAX, &mut [], &mut [9; 6])?;
    show_pairs(rt, 0, u32::MAX, &mut [1], &mut [9; 6])?;
    show_pairs(rt, 1000, u32::MAX, &mut [1, 2], &mut [9; 6])?;
    show_pairs(rt, 1000, u32::MAX, &mut [1, 2], &mut [9; 5])
}

// By polishing, with two cuts as with three.
fn show_cases(rt: &impl Print) -> io::Result<()> {
    for (k, allowance, pin) in [
        (2, 1000, 0),
        (2, 12, 0),
        (2, 11, 0),
        (2, 0, 1),
        (3, 1000, 0),
    ] {
        show_case(rt, k, allowance, pin)?;
    }
    Ok(())
}

fn show_round_allowances(rt: &impl Print) -> io::Result<()> {
    for allowance in [1000, 70, 69] {
        show_rounds(rt, allowance)?;
    }
    Ok(())
}

// Each to its own end, with two cuts and three; ends that are no locations, and another number of them.
fn show_to_ends(rt: &impl Print) -> io::Result<()> {
    show_ends(rt, 2, &[0, 3])?;
    show_ends(rt, 3, &[2, 4])?;
    show_ends(rt, 2, &[0, 5])?;
    show_ends(rt, 2, &[0, 0, 0])?;
    show_ends(rt, 2, &[5])
}

// No pair; A before B; B and C before A, which the rounds break as handed in; equal members.
fn show_run_keeping(rt: &impl Print) -> io::Result<()> {
    show_keeping(rt, 2, &[])?;
    show_keeping(rt, 2, &[1, 2])?;
    show_keeping(rt, 3, &[1, 2])?;
    show_keeping(rt, 2, &[2, 1, 3, 1])?;
    show_keeping(rt, 2, &[3, 3])
}

fn main(rt: HostRuntime) -> io::Result<()> {
    show_way(&rt)?;
    show_bounds(&rt)?;
    show_cases(&rt)?;
    show_round_allowances(&rt)?;
    show_to_ends(&rt)?;
    show_run_keeping(&rt)
}
