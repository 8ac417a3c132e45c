// The deadline rule of document 01, checked along a route. It holds no entry; those are in crate mittenschist.
#![tactic(auto)]

ghost use Rattle.std.specs.Prelude.{◌≡◌, min, max, ◌-◌};
ghost use Rattle.theory.specs.Route.{late_position};
ghost use Rattle.theory.specs.Tables.{timetable_by, clock_by, Clocked, tables};
ghost use Rattle.theory.specs.Answers.{Checked};
ghost use Rattle.deadlines.specs.Stays.{ServiceOf, ServiceIs, Stays, StaysFillable};
ghost use Rattle.deadlines.specs.Lateness.{LateAsked, LeftAsked, LeftAt, UntilAsked, UntilAt, LaterFits, LatenessFillable, LatenessFilled};

use theory::{CUT_PLACES, Deadline, STOPS};

// Kept exactly where no stop is late, else the lowest late position.
pub fn check_deadlines(
    locations: usize,
    legs: &[u32],
    latest: &[u32],
    service: &[u32],
    depot: u32,
    route: &[u32],
) -> Deadline
    requires { Clocked (tables locations legs.now latest.now service.now) depot route.now }
    ensures { Checked (timetable_by (tables locations legs.now latest.now service.now)) depot route.now result }
{
    let mut clock = 0u64;
    let mut previous = depot;
    for i in 0..route.len() {
        let stop = route[i];
        clock += costs::route_distance(locations, legs, previous, stop);
        let location = stop as usize;
        let deadline = latest[location] as u64;
        if deadline < clock {
            return Deadline::Late(i);
        }
        clock += service_of(service, stop);
        previous = stop;
    }
    Deadline::Kept
}

// The lowest late position of a route, or the number of its stops; a route that is known to keep every deadline is not walked.
pub fn late_position(
    kept: bool,
    locations: usize,
    legs: &[u32],
    latest: &[u32],
    service: &[u32],
    depot: u32,
    route: &[u32],
) -> u64
    requires { LateAsked (tables locations legs.now latest.now service.now) depot route.now kept }
    ensures { result ≡ late_position (timetable_by (tables locations legs.now latest.now service.now)) depot route.now }
{
    if kept {
        return route.len() as u64;
    }
    let judged = check_deadlines(locations, legs, latest, service, depot, route);
    if let Deadline::Late(position) = judged {
        return position as u64;
    }
    route.len() as u64
}

// The service of a stop.
pub fn service_of(service: &[u32], stop: u32) -> u64
    requires { ServiceOf service.now stop }
    ensures { ServiceIs service.now stop result }
{
    let place = stop as usize;
    service[place] as u64
}

// The service of the stops before each position, up to the end.
pub fn fill_stays(service: &[u32], route: &[u32], stayed: &mut [u64; CUT_PLACES])
    requires { StaysFillable service.now route.now stayed.old }
    ensures { Stays service.now route.now stayed.new }
{
    let mut sum = 0u64;
    stayed[0] = 0;
    for i in 0..route.len() {
        sum += service_of(service, route[i]);
        stayed[i + 1] = sum;
    }
}

// When the stop at position i is left, from the running sums.
pub fn left_at(
    locations: usize,
    legs: &[u32],
    depot: u32,
    route: &[u32],
    forward: &[u64; STOPS],
    stayed: &[u64; CUT_PLACES],
    i: usize,
) -> u64
    requires { LeftAsked locations legs.now depot route.now forward.now stayed.now i }
    ensures { LeftAt locations legs.now depot route.now stayed.now i result }
{
    costs::route_distance(locations, legs, depot, route[0]) + forward[i] + stayed[i + 1]
}

// The last second at which the stop at position i may be left.
pub fn until_at(latest: &[u32], route: &[u32], stayed: &[u64; CUT_PLACES], i: usize) -> u64
    requires { UntilAsked latest.now route.now stayed.now i }
    ensures { UntilAt latest.now route.now stayed.now i result }
{
    let stop = route[i] as usize;
    latest[stop] as u64 + (stayed[i + 1] - stayed[i])
}

// The most of what was so far, and by how much a stop is late.
fn later(most: u64, reached: u64, deadline: u64) -> u64
    requires { LaterFits most reached deadline }
    ensures { result ≡ max (reached - deadline) most }
{
    if deadline + most < reached {
        return reached - deadline;
    }
    most
}

// The lateness from each position on, up to the end; the answer is the longest head with which a candidate may keep every deadline.
pub fn fill_lateness(
    locations: usize,
    legs: &[u32],
    latest: &[u32],
    service: &[u32],
    depot: u32,
    route: &[u32],
    forward: &[u64; STOPS],
    stayed: &[u64; CUT_PLACES],
    lateness: &mut [u64; CUT_PLACES],
) -> usize
    requires { LatenessFillable (tables locations legs.now latest.now service.now) depot route.now forward.now stayed.now lateness.old }
    ensures { LatenessFilled (clock_by (tables locations legs.now latest.now service.now)) depot route.now result lateness.new }
{
    let n = route.len();
    let mut longest = n;
    let mut soonest = 4295967295u64;
    let mut most = 0u64;
    lateness[n] = 0;
    for i in (0..n).rev() {
        let reached = left_at(locations, legs, depot, route, forward, stayed, i);
        let deadline = until_at(latest, route, stayed, i);
        soonest = costs::least(soonest, deadline);
        if soonest < reached {
            longest = i;
        }
        most = later(most, reached, deadline);
        lateness[i] = most;
    }
    longest
}
