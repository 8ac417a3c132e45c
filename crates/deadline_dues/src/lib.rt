// Deadlines of placed segments, shared by the candidates that have them: the due of a segment, the second before which it must be left, as it stands and
// reversed. No entry: for the inner search.
#![tactic(auto)]

ghost use Rattle.std.specs.Prelude.{◌≡◌, ◌+◌, ◌-◌, ◌*◌, ◌<◌, length, get_or, set};
ghost use Rattle.std.proofs.Math.Seq.{slice};
ghost use Rattle.theory.specs.Tables.{clock_by, tables};
ghost use Rattle.deadline_dues.specs.Due.{OwnDueAsked, OwnDue, WayBackAsked, WayBack, Growable, GrowableTo, Spannable, SegmentDues};
ghost use Rattle.deadline_dues.specs.Parts.{HeadTimed, HeadClock};
ghost use Rattle.deadline_dues.specs.Dues.{in_time, is_in_time, Puttable, DuesFillable, SegmentsDue, DuesReachable, DuesReached, StaysAsked, StaysTold, StatesTimable, StatesTimed, RowTimed};

use costs::least;
use scan_joints::{CELLS, HEAD, ROW, ROW_BYTES, STATES, WIDTH};
use theory::{CUT_PLACES, STOPS};

// ---- the dues of one segment, grown stop by stop

// The dues of a segment as it stands and reversed.
#[derive(Clone, Copy)]
pub struct Dues {
    pub straight: u64,
    pub reversed: u64,
}

// The second behind the last one at which a stop may be left.
fn own_due(latest: &[u32], stop: u32, served: u64) -> u64
    requires { OwnDueAsked latest.now stop served }
    ensures { OwnDue latest.now stop served result }
{
    let place = stop as usize;
    latest[place] as u64 + served + 1
}

// The seconds from leaving the stop at `end` to leaving the one at `start`, back along the route.
fn way_back(backward: &[u64; STOPS], stayed: &[u64; CUT_PLACES], start: usize, end: usize) -> u64
    requires { WayBackAsked backward.now stayed.now start end }
    ensures { WayBack backward.now stayed.now start end result }
{
    (backward[end] - backward[start]) + (stayed[end] - stayed[start])
}

// The dues of route[start..end + 1] from those of route[start..end].
fn take_in(
    locations: usize,
    legs: &[u32],
    latest: &[u32],
    service: &[u32],
    route: &[u32],
    backward: &[u64; STOPS],
    stayed: &[u64; CUT_PLACES],
    start: usize,
    end: usize,
    straight: u64,
    reversed: u64,
) -> Dues
    requires { Growable (tables locations legs.now latest.now service.now) route.now backward.now stayed.now start end straight reversed }
    ensures { SegmentDues (clock_by (tables locations legs.now latest.now service.now)) (slice start (end + 1) route.now) result.straight result.reversed }
{
    let last = route[end - 1];
    let stop = route[end];
    let served = deadlines::service_of(service, stop);
    let own = own_due(latest, stop, served);
    let step = costs::route_distance(locations, legs, last, stop) + served;
    let back = way_back(backward, stayed, start, end);
    Dues {
        straight: least(straight + step, own),
        reversed: least(reversed, own + back),
    }
}

// The dues of route[start..to] from those of route[start..from].
pub fn grow_dues(
    locations: usize,
    legs: &[u32],
    latest: &[u32],
    service: &[u32],
    route: &[u32],
    backward: &[u64; STOPS],
    stayed: &[u64; CUT_PLACES],
    start: usize,
    from: usize,
    to: usize,
    straight: u64,
    reversed: u64,
) -> Dues
    requires { GrowableTo (tables locations legs.now latest.now service.now) route.now backward.now stayed.now start from to straight reversed }
    ensures { SegmentDues (clock_by (tables locations legs.now latest.now service.now)) (slice start to route.now) result.straight result.reversed }
{
    let mut dues = Dues { straight, reversed };
    for upto in from..to {
        dues = take_in(
            locations,
            legs,
            latest,
            service,
            route,
            backward,
            stayed,
            start,
            upto,
            dues.straight,
            dues.reversed,
        );
    }
    dues
}

// The dues of route[start..end], not empty.
pub fn segment_dues(
    locations: usize,
    legs: &[u32],
    latest: &[u32],
    service: &[u32],
    route: &[u32],
    backward: &[u64; STOPS],
    stayed: &[u64; CUT_PLACES],
    start: usize,
    end: usize,
) -> Dues
    requires { Spannable (tables locations legs.now latest.now service.now) route.now backward.now stayed.now start end }
    ensures { SegmentDues (clock_by (tables locations legs.now latest.now service.now)) (slice start end route.now) result.straight result.reversed }
{
    let stop = route[start];
    let served = deadlines::service_of(service, stop);
    let own = own_due(latest, stop, served);
    grow_dues(
        locations,
        legs,
        latest,
        service,
        route,
        backward,
        stayed,
        start,
        start + 1,
        end,
        own,
        own,
    )
}

// ---- the dues of the segments of a cut set

// The dues by state, and behind them the last cut that those of the last segment reach up to, 0 before any is found.
pub const REACH: usize = STATES;

pub const DUE_PLACES: usize = REACH + 1;

// The dues of a middle segment into the places of its two states.
fn put_dues(dues: &mut [u64; DUE_PLACES], segment: usize, straight: u64, reversed: u64)
    requires { Puttable dues.old segment }
    ensures { dues.new ≡ set (set dues.old (2 * segment - 2) straight) (2 * segment - 2 + 1) reversed }
{
    let s = 2 * segment - 2;
    dues[s] = straight;
    dues[s + 1] = reversed;
}

// The dues of the first `count` middle segments; only the cuts up to that of number `count` are read, so those behind it share them.
fn fill_dues(
    locations: usize,
    legs: &[u32],
    latest: &[u32],
    service: &[u32],
    route: &[u32],
    backward: &[u64; STOPS],
    stayed: &[u64; CUT_PLACES],
    cuts: &[usize],
    count: usize,
    dues: &mut [u64; DUE_PLACES],
)
    requires { DuesFillable (tables locations legs.now latest.now service.now) route.now backward.now stayed.now cuts.now count dues.old }
    ensures { SegmentsDue (clock_by (tables locations legs.now latest.now service.now)) cuts.now route.now count dues.new }
{
    for i in 1..count + 1 {
        let start = cuts[i - 1];
        let end = cuts[i];
        let found = segment_dues(
            locations, legs, latest, service, route, backward, stayed, start, end,
        );
        put_dues(dues, i, found.straight, found.reversed);
    }
}

// The dues held of the last middle segment, brought from the cut in place 8 up to the last cut.
fn stretch_dues(
    locations: usize,
    legs: &[u32],
    latest: &[u32],
    service: &[u32],
    route: &[u32],
    backward: &[u64; STOPS],
    stayed: &[u64; CUT_PLACES],
    cuts: &[usize],
    dues: &mut [u64; DUE_PLACES],
)
    requires { DuesReachable (tables locations legs.now latest.now service.now) route.now backward.now stayed.now cuts.now dues.old × (0 < get_or dues.old 8 0) }
    ensures { SegmentsDue (clock_by (tables locations legs.now latest.now service.now)) cuts.now route.now (length cuts.now - 1) dues.new }
{
    let segment = cuts.len() - 1;
    let start = cuts[segment - 1];
    let end = cuts[segment];
    let from = dues[REACH] as usize;
    let s = 2 * segment - 2;
    let more = grow_dues(
        locations,
        legs,
        latest,
        service,
        route,
        backward,
        stayed,
        start,
        from,
        end,
        dues[s],
        dues[s + 1],
    );
    put_dues(dues, segment, more.straight, more.reversed);
}

// The dues of every middle segment, from those held of the cut sets before with the same first cuts.
fn reach_dues(
    locations: usize,
    legs: &[u32],
    latest: &[u32],
    service: &[u32],
    route: &[u32],
    backward: &[u64; STOPS],
    stayed: &[u64; CUT_PLACES],
    cuts: &[usize],
    dues: &mut [u64; DUE_PLACES],
)
    requires { DuesReachable (tables locations legs.now latest.now service.now) route.now backward.now stayed.now cuts.now dues.old }
    ensures { DuesReached (clock_by (tables locations legs.now latest.now service.now)) route.now cuts.now dues.new }
{
    let last = cuts.len() - 1;
    let reach = cuts[last] as u64;
    let held = dues[REACH];
    if held == 0 {
        fill_dues(
            locations, legs, latest, service, route, backward, stayed, cuts, last, dues,
        );
    } else {
        stretch_dues(
            locations, legs, latest, service, route, backward, stayed, cuts, dues,
        );
    }
    dues[REACH] = reach;
}

// The service of the stops of each middle segment, for both of its states.
fn state_stays(stayed: &[u64; CUT_PLACES], cuts: &[usize], stays: &mut [u64; DUE_PLACES])
    requires { StaysAsked stayed.now cuts.now stays.old }
    ensures { StaysTold stayed.now cuts.now stays.new }
{
    for i in 1..cuts.len() {
        let start = cuts[i - 1];
        let end = cuts[i];
        let stay = stayed[end] - stayed[start];
        put_dues(stays, i, stay, stay);
    }
}

// The dues and the service of every state.
pub fn time_states(
    locations: usize,
    legs: &[u32],
    latest: &[u32],
    service: &[u32],
    route: &[u32],
    backward: &[u64; STOPS],
    stayed: &[u64; CUT_PLACES],
    cuts: &[usize],
    dues: &mut [u64; DUE_PLACES],
    stays: &mut [u64; DUE_PLACES],
)
    requires { StatesTimable (tables locations legs.now latest.now service.now) route.now backward.now stayed.now cuts.now dues.old stays.old }
    ensures { StatesTimed (tables locations legs.now latest.now service.now) route.now cuts.now dues.new stays.new }
{
    reach_dues(
        locations, legs, latest, service, route, backward, stayed, cuts, dues,
    );
    state_stays(stayed, cuts, stays);
}

// Whether the middle of a candidate is left in time.
#[derive(Clone, Copy)]
pub enum Timing {
    InTime,
    Late,
}

// In time where each of the first `m` states of row i is left before its due, when the head is left at second `clock`.
pub fn judge_row(
    joint: &[u64; CELLS],
    rows: &[u8; ROW_BYTES],
    stays: &[u64; DUE_PLACES],
    dues: &[u64; DUE_PLACES],
    i: usize,
    m: usize,
    clock: u64,
) -> Timing
    requires { RowTimed joint.now rows.now stays.now dues.now i m clock }
    ensures { is_in_time result ≡ in_time joint.now stays.now dues.now 9 clock (slice (4 * i) (4 * i + m) rows.now) }
{
    let mut from = HEAD;
    let mut now = clock;
    for at in ROW * i..ROW * i + m {
        let state = scan_joints::wide(rows[at]);
        now += joint[WIDTH * from + state] + stays[state];
        if dues[state] <= now {
            return Timing::Late;
        }
        from = state;
    }
    Timing::InTime
}

// When the head is left.
pub fn head_clock(
    locations: usize,
    legs: &[u32],
    depot: u32,
    route: &[u32],
    forward: &[u64; STOPS],
    stayed: &[u64; CUT_PLACES],
    cuts: &[usize],
) -> u64
    requires { HeadTimed locations legs.now depot route.now forward.now stayed.now cuts.now }
    ensures { HeadClock locations legs.now depot route.now stayed.now cuts.now result }
{
    let first = cuts[0];
    if first == 0 {
        return 0;
    }
    deadlines::left_at(locations, legs, depot, route, forward, stayed, first - 1)
}
