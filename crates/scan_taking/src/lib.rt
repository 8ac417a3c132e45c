// A route measured: its sums, and what it leaves to its candidates; and an accepted candidate put in its place. No entry: crate scan_loop calls it.
#![tactic(auto)]

ghost use Rattle.std.specs.Prelude.{◌≡◌, min};
ghost use Rattle.scan_round.specs.Lending.{trip_of};
ghost use Rattle.deadlines.specs.Stays.{StaysFillable};
ghost use Rattle.precedence_marks.specs.Held.{RouteTellable};
ghost use Rattle.scan_taking.specs.Measure.{HeadsAsked, HeadsTold, LimitsTold, MeasureAsked, Measured, Clearable, Cleared, StaysAnew, Takeable, Taken};

use deadlines::fill_lateness;
use scan_round::{Lent, Sums};
use theory::{CUT_PLACES, STOPS};

// What a route leaves to its candidates: how many of its heads are on time and keep their pairs, from the empty one on, and none where its pairs contradict each other;
// and where the longest tail begins that keeps its own.
#[derive(Clone, Copy, Debug, PartialEq, Eq)]
pub struct Limits {
    pub heads: usize,
    pub since: usize,
}

fn lesser(a: usize, b: usize) -> usize
    ensures { result ≡ min a b }
{
    if a < b {
        return a;
    }
    b
}

// From the longest head. A route that keeps its pairs is not asked whether any order does.
fn heads_left(longest: usize, since: usize, members: &[u64], route: &[u32]) -> usize
    requires { HeadsAsked longest members.now route.now }
    ensures { HeadsTold longest members.now route.now result }
{
    if members.len() == 0 {
        return longest + 1;
    }
    if since == 0 {
        return longest + 1;
    }
    if precedence_contradictions::contradict(members, route) {
        return 0;
    }
    longest + 1
}

// From the longest head that is on time.
fn tell_limits(punctual: usize, members: &[u64], route: &[u32]) -> Limits
    requires { RouteTellable members.now route.now }
    ensures { LimitsTold members.now route.now punctual result }
{
    let reach = precedence_marks::head_limit(members, route);
    let longest = lesser(punctual, reach);
    let since = precedence_marks::tail_since(members, route);
    let heads = heads_left(longest, since, members, route);
    Limits { heads, since }
}

// The running sums of a route, and what it leaves to its candidates; `members` are the words of the pairs.
pub fn measure(lent: &Lent<'_>, route: &[u32], sums: &mut Sums) -> Limits
    requires { MeasureAsked (trip_of lent.now).tables lent.now.depot lent.now.members.now route.now sums.old.forward sums.old.backward sums.old.stayed sums.old.lateness }
    ensures { Measured (trip_of lent.now).tables lent.now.depot lent.now.members.now route.now sums.new.forward sums.new.backward sums.new.stayed result sums.new.lateness }
{
    costs::forward_sums(lent.locations, lent.legs, route, &mut sums.forward);
    costs::backward_sums(lent.locations, lent.legs, route, &mut sums.backward);
    deadlines::fill_stays(lent.service, route, &mut sums.stayed);
    let punctual = fill_lateness(
        lent.locations,
        lent.legs,
        lent.latest,
        lent.service,
        lent.depot,
        route,
        &sums.forward,
        &sums.stayed,
        &mut sums.lateness,
    );
    tell_limits(punctual, lent.members, route)
}

// No stop of an accepted route is late. Where none was before, the table says so already.
fn clear_lateness(stops: usize, lateness: &mut [u64; CUT_PLACES])
    requires { Clearable stops lateness.old }
    ensures { Cleared stops lateness.old lateness.new }
{
    if lateness[0] == 0 {
        return;
    }
    for c in 0..stops + 1 {
        lateness[c] = 0;
    }
}

// The stays of an accepted route, whose stops are the same. Where they have no service, the table says so already.
fn stay_anew(service: &[u32], route: &[u32], stayed: &mut [u64; CUT_PLACES])
    requires { StaysFillable service.now route.now stayed.old }
    ensures { StaysAnew service.now route.now stayed.old stayed.new }
{
    let n = route.len();
    if stayed[n] == 0 {
        return;
    }
    deadlines::fill_stays(service, route, stayed);
}

// The candidate of pattern i as the route, with its sums and stays: the old ones say nothing of it. No stop of it is late.
pub fn take_gain(
    lent: &Lent<'_>,
    cuts: &[usize],
    orders: &[u8],
    masks: &[u8],
    i: usize,
    route: &mut [u32],
    sums: &mut Sums,
)
    requires { Takeable lent.now.locations lent.now.legs.now lent.now.service.now cuts.now orders.now masks.now i route.old sums.old.forward sums.old.backward sums.old.stayed sums.old.lateness }
    ensures { Taken lent.now.locations lent.now.legs.now lent.now.service.now cuts.now orders.now masks.now i route.old sums.old.stayed sums.old.lateness route.new sums.new.forward sums.new.backward sums.new.stayed sums.new.lateness }
{
    let n = route.len();
    let mut spare = [0u32; STOPS];
    candidates::build_front(&route[..], cuts, orders, masks, i, &mut spare);
    reconnection::copy_in(&spare[..n], route, 0);
    costs::forward_sums(lent.locations, lent.legs, &route[..], &mut sums.forward);
    costs::backward_sums(lent.locations, lent.legs, &route[..], &mut sums.backward);
    stay_anew(lent.service, &route[..], &mut sums.stayed);
    clear_lateness(n, &mut sums.lateness);
}
