// The pair loop: the exact 2-opt of the Rust's list k-opt kernel, over one round. No entry: crate mittenschist calls it.
#![tactic(auto)]

ghost use Rattle.std.specs.Prelude.{◌≡◌, [], ◌<◌, length};
ghost use Rattle.theory.specs.Tables.{problem, Timed, trip};
ghost use Rattle.pair_loop.specs.PairLoop.{stop_before, sweep, pass, pair_loop, reply_so_far, PairsTried};
ghost use Rattle.pair_loop.specs.Parts.{Going, Sweep};

use theory::{Counts, Polished};

// What the loop has counted.
#[derive(Clone, Copy)]
struct PairLoop {
    finished: bool,
    examined: u64,
    accepted: u64,
}

fn stop_before(depot: u32, route: &[u32], i: usize) -> u32
    requires { i < length route.now }
    ensures { result ≡ stop_before depot route.now i }
{
    if i == 0 {
        return depot;
    }
    route[i - 1]
}

// The pairs of one i. The stop at i is not read anew after a turn, as in the Rust.
fn try_sweep(
    allowance: u64,
    locations: usize,
    legs: &[u32],
    latest: &[u32],
    service: &[u32],
    depot: u32,
    i: usize,
    so_far: PairLoop,
    route: &mut [u32],
) -> PairLoop
    requires { Sweep allowance (trip locations legs.now latest.now service.now depot depot []) i so_far route.old }
    ensures { reply_so_far result route.new ≡ sweep (problem (trip locations legs.now latest.now service.now depot depot [])) allowance (length route.old) (reply_so_far so_far route.old) i }
{
    let mut examined = so_far.examined;
    let mut accepted = so_far.accepted;
    let a = stop_before(depot, &route[..], i);
    let b = route[i];
    for j in i + 1..route.len() {
        if examined == allowance {
            return PairLoop {
                finished: false,
                examined,
                accepted,
            };
        }
        examined += 1;
        if pair_reversal::try_pair(locations, legs, latest, service, depot, a, b, i, j, route) {
            accepted += 1;
        }
    }
    PairLoop {
        finished: true,
        examined,
        accepted,
    }
}

// The rows of one pass.
fn try_pass(
    allowance: u64,
    locations: usize,
    legs: &[u32],
    latest: &[u32],
    service: &[u32],
    depot: u32,
    so_far: PairLoop,
    route: &mut [u32],
) -> PairLoop
    requires { Going allowance (trip locations legs.now latest.now service.now depot depot []) so_far route.old }
    ensures { reply_so_far result route.new ≡ pass (problem (trip locations legs.now latest.now service.now depot depot [])) allowance (length route.old) (reply_so_far so_far route.old) }
{
    let mut passed = so_far;
    for i in 0..route.len().saturating_sub(1) {
        passed = try_sweep(
            allowance, locations, legs, latest, service, depot, i, passed, route,
        );
        if !passed.finished {
            return passed;
        }
    }
    passed
}

// Passes until one accepts nothing, or the allowance is reached.
fn try_passes(
    allowance: u64,
    locations: usize,
    legs: &[u32],
    latest: &[u32],
    service: &[u32],
    depot: u32,
    route: &mut [u32],
) -> PairLoop
    requires { Timed (trip locations legs.now latest.now service.now depot depot []) route.old }
    ensures { reply_so_far result route.new ≡ pair_loop (problem (trip locations legs.now latest.now service.now depot depot [])) allowance route.old }
{
    let mut so_far = PairLoop {
        finished: true,
        examined: 0,
        accepted: 0,
    };
    loop {
        let passed = try_pass(
            allowance, locations, legs, latest, service, depot, so_far, route,
        );
        if !passed.finished {
            return passed;
        }
        if passed.accepted == so_far.accepted {
            return passed;
        }
        so_far = passed;
    }
}

// The pair loop, with the lengths and the lowest late position. A spent round keeps what was accepted; an accepted turn keeps every deadline.
pub fn pair_loop(
    allowance: u64,
    locations: usize,
    legs: &[u32],
    latest: &[u32],
    service: &[u32],
    depot: u32,
    route: &mut [u32],
) -> Polished
    requires { Timed (trip locations legs.now latest.now service.now depot depot []) route.old }
    ensures { PairsTried (problem (trip locations legs.now latest.now service.now depot depot [])) allowance route.old result route.new }
{
    let before = costs::route_length(locations, legs, depot, depot, &route[..]);
    let tried = try_passes(allowance, locations, legs, latest, service, depot, route);
    let after = costs::route_length(locations, legs, depot, depot, &route[..]);
    let late = deadlines::late_position(
        0 < tried.accepted,
        locations,
        legs,
        latest,
        service,
        depot,
        &route[..],
    );
    polish_numbers::counted(
        tried.finished,
        Counts {
            examined: tried.examined,
            accepted: tried.accepted,
            before,
            after,
            late,
        },
    )
}
