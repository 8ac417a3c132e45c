// The cut sets that can hold no gain, passed over without a look at their patterns. No entry: crate scan_stretch calls it.
#![tactic(auto)]

ghost use Rattle.scan_bound.specs.Tests.{IntoFits, LeastInto, OutFits, LeastOut, PromisingTestable, PromisingTested, Nextable, NextPromising};

use scan_joints::{STATES, TAIL};
use scan_shared::{AFTER_HEAD, LOW_PLACES, REVERSED, STANDING};
use theory::STOPS;

// The least of what follows P, as it stands and left at the stop `from`: a state before P, with the least cost of its class.
fn least_into(
    locations: usize,
    legs: &[u32],
    from: u32,
    entries: &[u32; STATES],
    inside: &[u64; STATES],
    low: &[u64; LOW_PLACES],
    p: usize,
) -> u64
    requires { IntoFits locations legs.now from entries.now inside.now low.now p }
    ensures { LeastInto locations legs.now from entries.now inside.now low.now p result }
{
    let mut best = 17592186044416u64;
    for w in 0..p {
        let way = costs::route_distance(locations, legs, from, entries[w]) + inside[w];
        best = costs::least(best, low[w] + way);
    }
    best
}

// The least of `start` and of what leads from a state before P to the stop `to`.
fn least_out(
    locations: usize,
    legs: &[u32],
    exits: &[u32; STATES],
    to: u32,
    add: &[u64; LOW_PLACES],
    start: u64,
    p: usize,
) -> u64
    requires { OutFits locations legs.now exits.now to add.now start p }
    ensures { LeastOut locations legs.now exits.now to add.now start p result }
{
    let mut best = start;
    for u in 0..p {
        let way = costs::route_distance(locations, legs, exits[u], to);
        best = costs::least(best, add[REVERSED + u] + way);
    }
    best
}

// Whether a pattern may gain at last cut c: the tests bound from below what every pattern costs, by its class.
fn is_promising(
    locations: usize,
    legs: &[u32],
    depot: u32,
    end: u32,
    route: &[u32],
    forward: &[u64; STOPS],
    backward: &[u64; STOPS],
    cuts: &[usize],
    head: u32,
    entries: &[u32; STATES],
    exits: &[u32; STATES],
    inside: &[u64; STATES],
    low: &[u64; LOW_PLACES],
    zero: &[u64; LOW_PLACES],
    c: usize,
) -> bool
    requires { PromisingTestable locations legs.now depot end route.now forward.now backward.now cuts.now head entries.now exits.now inside.now low.now zero.now c }
    ensures { PromisingTested locations legs.now depot end route.now cuts.now entries.now exits.now inside.now low.now c result }
{
    if low[TAIL] < low[STANDING] {
        return true;
    }
    let p = 2 * (cuts.len() - 2);
    let start = cuts[cuts.len() - 2];
    let x = route[c - 1];
    let y = costs::tail_at(end, route, c);
    let here = low[STANDING] + costs::route_distance(locations, legs, x, y);
    let back = costs::route_distance(locations, legs, route[start], y);
    let tail = least_out(locations, legs, exits, y, zero, back, p);
    let straight = least_into(locations, legs, x, entries, inside, low, p);
    if straight + tail < here {
        return true;
    }
    let after_head = low[AFTER_HEAD] + costs::route_distance(locations, legs, head, x);
    let turned = least_out(locations, legs, exits, x, low, after_head, p);
    let on = costs::inner(forward, start, c);
    turned + tail + costs::inner(backward, start, c) < here + on
}

// From the last cut on, with the same first cuts, the first last cut that is promising, or one beyond the route. `zero` holds nothing: who calls again and again keeps it.
pub fn next_promising(
    locations: usize,
    legs: &[u32],
    depot: u32,
    end: u32,
    route: &[u32],
    forward: &[u64; STOPS],
    backward: &[u64; STOPS],
    cuts: &[usize],
    entries: &[u32; STATES],
    exits: &[u32; STATES],
    inside: &[u64; STATES],
    low: &[u64; LOW_PLACES],
    zero: &[u64; LOW_PLACES],
) -> usize
    requires { Nextable locations legs.now depot end route.now forward.now backward.now cuts.now entries.now exits.now inside.now low.now zero.now }
    ensures { NextPromising locations legs.now depot end route.now cuts.now entries.now exits.now inside.now low.now result }
{
    let head = costs::head_end(depot, route, cuts);
    for c in cuts[cuts.len() - 1]..route.len() + 1 {
        if is_promising(
            locations, legs, depot, end, route, forward, backward, cuts, head, entries, exits,
            inside, low, zero, c,
        ) {
            return c;
        }
    }
    route.len() + 1
}
