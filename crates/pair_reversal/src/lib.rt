// A reversal of a part of a route, judged: what the pair loop asks of a pair. No entry: crate pair_loop calls it.
#![tactic(auto)]

ghost use Rattle.std.specs.Prelude.{◌≡◌, [], reverse, ◌<◌, length};
ghost use Rattle.theory.specs.Tables.{problem, trip};
ghost use Rattle.costs.specs.RouteCosts.{leg};
ghost use Rattle.pair_reversal.specs.Reversal.{stop_after, shortens, KnownLegs, Pair, Tried};

use theory::Deadline;

// In place. Cold: few pairs come to it, and in line it would take the numbers of the loop over the pairs out of the registers.
#[cold]
fn reverse(part: &mut [u32])
    ensures { part.new ≡ reverse part.old }
{
    part.reverse();
}

fn stop_after(depot: u32, route: &[u32], j: usize) -> u32
    requires { j < length route.now }
    ensures { result ≡ stop_after depot route.now j }
{
    let after = j + 1;
    if after < route.len() {
        return route[after];
    }
    depot
}

// Whether the legs from a to c and from b to e are shorter than those from a to b and from c to e.
fn is_shorter(locations: usize, legs: &[u32], a: u32, b: u32, c: u32, e: u32) -> bool
    requires { KnownLegs locations legs.now a b c e }
    ensures { result ≡ shortens (leg locations legs.now) a b c e }
{
    let a_to_c = costs::route_distance(locations, legs, a, c);
    let b_to_e = costs::route_distance(locations, legs, b, e);
    let a_to_b = costs::route_distance(locations, legs, a, b);
    let c_to_e = costs::route_distance(locations, legs, c, e);
    a_to_c + b_to_e < a_to_b + c_to_e
}

// Turns i..j where that shortens the route and keeps every deadline, and says whether it did.
pub fn try_pair(
    locations: usize,
    legs: &[u32],
    latest: &[u32],
    service: &[u32],
    depot: u32,
    a: u32,
    b: u32,
    i: usize,
    j: usize,
    route: &mut [u32],
) -> bool
    requires { Pair (trip locations legs.now latest.now service.now depot depot []) a b i j route.old }
    ensures { Tried (problem (trip locations legs.now latest.now service.now depot depot [])) a b i j route.old result route.new }
{
    let c = route[j];
    let e = stop_after(depot, &route[..], j);
    if !is_shorter(locations, legs, a, b, c, e) {
        return false;
    }
    let end = j + 1;
    reverse(&mut route[i..end]);
    let answer = deadlines::check_deadlines(locations, legs, latest, service, depot, &route[..]);
    if let Deadline::Late(_) = answer {
        reverse(&mut route[i..end]);
        return false;
    }
    true
}
