// Replays document 02's runs of the way back, a line each, refusals in the order of their numbers, and counts the patterns that are their own inverses.
#![tactic(auto)]

use replay_lines::Spaced;
use std::io;
use theory::number_of;

// A line of a call: the move, its refusal number, and the result with the places behind it.
fn show(rt: &impl Print, k: usize, pattern: usize, n: usize, cuts: &[usize]) -> io::Result<()> {
    let mut result = [9; 7];
    let refused = number_of(way_back::way_back(k, pattern, n, cuts, &mut result));
    println!(rt;
        "pattern {pattern} cuts{} back {refused} result{}",
        Spaced(cuts),
        Spaced(&result)
    )
}

fn show_runs(rt: &impl Print) -> io::Result<()> {
    for pattern in [3, 4, 5] {
        show(rt, 3, pattern, 4, &[0, 1, 4])?;
    }
    show(rt, 3, 0, 2, &[0, 1, 2])?;
    show(rt, 2, 0, 512, &[0, 512])?;
    show(rt, 5, 382, 512, &[1, 2, 400, 401, 512])
}

fn show_refused(rt: &impl Print) -> io::Result<()> {
    show(rt, 6, 383, 513, &[])?;
    show(rt, 5, 383, 513, &[])?;
    show(rt, 5, 383, 512, &[])?;
    show(rt, 5, 382, 512, &[0, 1, 2, 3, 513])?;
    show(rt, 5, 382, 512, &[0, 1, 2, 4, 3])
}

fn is_own_inverse(pattern: usize, cuts: &[usize]) -> bool {
    let mut result = [0; 6];
    let called = way_back::way_back(cuts.len(), pattern, 5, cuts, &mut result);
    called.is_ok() && result[0] == pattern as u64
}

// How many are, of the patterns for so many cuts; those behind them are refused.
fn show_own_inverses(rt: &impl Print, cuts: &[usize]) -> io::Result<()> {
    let own = (0..400)
        .filter(|&pattern| is_own_inverse(pattern, cuts))
        .count();
    println!(rt; "cuts {} own inverses {own}", cuts.len())
}

fn main(rt: HostRuntime) -> io::Result<()> {
    show_runs(&rt)?;
    show_refused(&rt)?;
    for k in 2..=5 {
        show_own_inverses(&rt, &[0, 1, 2, 3, 4][..k])?;
    }
    Ok(())
}
