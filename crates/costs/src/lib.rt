// The costs of a route, after RouteCosts of the Rust: its length, the running sums of its inner legs and what is read off them, up to a move's delta. It
// holds no entry; those are in crate mittenschist.
#![tactic(auto)]

ghost use Rattle.std.specs.Prelude.{◌≡◌, [], min, ◌<◌, ◌≤◌, length, get_or};
ghost use Rattle.std.proofs.Math.Seq.{slice};
ghost use Rattle.theory.specs.Route.{segments, reverses, reverse_if};
ghost use Rattle.theory.specs.Costs.{last_of, first_of, forward, backward};
ghost use Rattle.theory.specs.Tables.{LegTable, Stops, Measurable, CutSet, legs_only};
ghost use Rattle.costs.specs.RouteCosts.{leg, running, KnownLeg, Leg, Length, InnerLeg, Summable, Summed, Spanned, span, stop_at, RouteCosts};
ghost use Rattle.costs.specs.Deltas.{PlacedAfter, Costable, Cost, Deltable, delta_of};

use theory::STOPS;

// The lesser of two.
pub fn least(a: u64, b: u64) -> u64
    ensures { result ≡ min a b }
{
    a.min(b)
}

// The leg between two locations.
pub fn route_distance(locations: usize, legs: &[u32], from: u32, to: u32) -> u64
    requires { KnownLeg locations legs.now from to }
    ensures { Leg locations legs.now from to result }
{
    let row = from as usize;
    let column = to as usize;
    legs[row * locations + column] as u64
}

// The length of a route.
pub fn route_length(locations: usize, legs: &[u32], depot: u32, end: u32, route: &[u32]) -> u64
    requires { Measurable locations legs.now depot end route.now }
    ensures { Length locations legs.now depot end route.now result }
{
    let mut total = 0u64;
    let mut previous = depot;
    for &stop in route {
        total += route_distance(locations, legs, previous, stop);
        previous = stop;
    }
    total + route_distance(locations, legs, previous, end)
}

// The leg between the stops t - 1 and t, in the direction asked for.
fn inner_leg(locations: usize, legs: &[u32], route: &[u32], t: usize, backwards: bool) -> u64
    requires leg_table { LegTable locations legs.now }
    requires stops { Stops locations route.now }
    requires le_t { (1 ≤ t) × (t < length route.now) }
    ensures { InnerLeg locations legs.now route.now t backwards result }
{
    let before = route[t - 1];
    let after = route[t];
    if backwards {
        return route_distance(locations, legs, after, before);
    }
    route_distance(locations, legs, before, after)
}

// The running sums in one direction.
fn running_sums(
    locations: usize,
    legs: &[u32],
    route: &[u32],
    backwards: bool,
    sums: &mut [u64; STOPS],
)
    requires { Summable locations legs.now route.now sums.old }
    ensures { Summed route.now (running backwards (leg locations legs.now) route.now) sums.old sums.new }
{
    if route.len() == 0 {
        return;
    }
    sums[0] = 0;
    for t in 1..route.len() {
        sums[t] = sums[t - 1] + inner_leg(locations, legs, route, t, backwards);
    }
}

pub fn forward_sums(locations: usize, legs: &[u32], route: &[u32], sums: &mut [u64; STOPS])
    requires { Summable locations legs.now route.now sums.old }
    ensures { Summed route.now (forward (leg locations legs.now) route.now) sums.old sums.new }
{
    running_sums(locations, legs, route, false, sums);
}

pub fn backward_sums(locations: usize, legs: &[u32], route: &[u32], sums: &mut [u64; STOPS])
    requires { Summable locations legs.now route.now sums.old }
    ensures { Summed route.now (backward (leg locations legs.now) route.now) sums.old sums.new }
{
    running_sums(locations, legs, route, true, sums);
}

// The stop before the first cut; cut 0 makes the depot the head's end.
pub fn head_end(depot: u32, route: &[u32], cuts: &[usize]) -> u32
    requires { CutSet (length cuts.now) (length route.now) cuts.now }
    ensures { result ≡ last_of depot (get_or (segments 0 cuts.now route.now) 0 []) }
{
    let first = cuts[0];
    if first == 0 {
        return depot;
    }
    route[first - 1]
}

// The stop behind a cut at c; the end harbour where none is.
pub fn tail_at(end: u32, route: &[u32], c: usize) -> u32
    ensures { result ≡ stop_at end route.now c }
{
    if c < route.len() {
        return route[c];
    }
    end
}

// The stop after the last cut; cut n makes the end harbour the tail's start.
pub fn tail_start(end: u32, route: &[u32], cuts: &[usize]) -> u32
    requires { CutSet (length cuts.now) (length route.now) cuts.now }
    ensures { result ≡ first_of (get_or (segments 0 cuts.now route.now) (length cuts.now) []) end }
{
    tail_at(end, route, cuts[cuts.len() - 1])
}

// The inner legs of route[start..end], not empty, from the running sums of one direction.
pub fn inner(sums: &[u64; STOPS], start: usize, end: usize) -> u64
    requires { Spanned sums.now start end }
    ensures { result ≡ span sums.now start end }
{
    sums[end - 1] - sums[start]
}

// ---- a move's delta, segment by segment

// A segment as it is placed: the seconds from the stop before it up to its last stop, and that stop.
#[derive(Clone, Copy, Debug, PartialEq, Eq)]
struct Placed {
    seconds: u64,
    last: u32,
}

// The segment route[start..end] after the stop `previous`.
fn place(
    locations: usize,
    legs: &[u32],
    route: &[u32],
    forward: &[u64; STOPS],
    backward: &[u64; STOPS],
    start: usize,
    end: usize,
    reversed: bool,
    previous: u32,
) -> Placed
    requires route_costs { RouteCosts locations legs.now route.now forward.now backward.now }
    requires start_lt_end { (start < end) × (end ≤ length route.now) × (previous < locations) }
    ensures { PlacedAfter locations legs.now previous (reverse_if reversed (slice start end route.now)) result }
{
    let front = route[start];
    let back = route[end - 1];
    if reversed {
        let to_back = route_distance(locations, legs, previous, back);
        return Placed {
            seconds: to_back + inner(backward, start, end),
            last: front,
        };
    }
    let to_front = route_distance(locations, legs, previous, front);
    Placed {
        seconds: to_front + inner(forward, start, end),
        last: back,
    }
}

// The segment of a number after the stop `previous`.
fn place_segment(
    locations: usize,
    legs: &[u32],
    route: &[u32],
    forward: &[u64; STOPS],
    backward: &[u64; STOPS],
    cuts: &[usize],
    mask: u8,
    segment: usize,
    previous: u32,
) -> Placed
    requires route_costs { RouteCosts locations legs.now route.now forward.now backward.now }
    requires cut_set { CutSet (length cuts.now) (length route.now) cuts.now }
    requires le_segment { (1 ≤ segment) × (segment < length cuts.now) × (previous < locations) }
    ensures { PlacedAfter locations legs.now previous (reverse_if (reverses mask segment) (get_or (segments 0 cuts.now route.now) segment [])) result }
{
    let start = cuts[segment - 1];
    let end = cuts[segment];
    let reversed = reconnection::should_reverse(mask, segment);
    place(
        locations, legs, route, forward, backward, start, end, reversed, previous,
    )
}

// From the head's end through the middle segments, placed in an order, to the tail's start.
fn cost(
    locations: usize,
    legs: &[u32],
    depot: u32,
    end: u32,
    route: &[u32],
    forward: &[u64; STOPS],
    backward: &[u64; STOPS],
    cuts: &[usize],
    order: &[u8],
    mask: u8,
) -> u64
    requires { Costable locations legs.now depot end route.now forward.now backward.now cuts.now order.now }
    ensures { Cost (legs_only locations legs.now depot end) route.now cuts.now order.now mask result }
{
    let mut total = 0u64;
    let mut previous = head_end(depot, route, cuts);
    for position in 1..cuts.len() {
        let segment = order[position] as usize;
        let placed = place_segment(
            locations, legs, route, forward, backward, cuts, mask, segment, previous,
        );
        total += placed.seconds;
        previous = placed.last;
    }
    let to = tail_start(end, route, cuts);
    total + route_distance(locations, legs, previous, to)
}

// The length after a move minus the length before it: below 0 it improves.
pub fn delta(
    locations: usize,
    legs: &[u32],
    depot: u32,
    end: u32,
    route: &[u32],
    forward: &[u64; STOPS],
    backward: &[u64; STOPS],
    cuts: &[usize],
    order: &[u8],
    mask: u8,
) -> i64
    requires { Deltable locations legs.now depot end route.now forward.now backward.now cuts.now order.now mask }
    ensures { result ≡ delta_of (legs_only locations legs.now depot end) route.now cuts.now order.now mask }
{
    let standing = [0u8, 1, 2, 3, 4, 5];
    let current = cost(
        locations, legs, depot, end, route, forward, backward, cuts, &standing, 0,
    );
    let proposed = cost(
        locations, legs, depot, end, route, forward, backward, cuts, order, mask,
    );
    proposed as i64 - current as i64
}
