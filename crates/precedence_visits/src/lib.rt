// The pairs of which a member is visited before each position of a route, as words, found as far as asked: by them it is told of two parts of the route whether
// some pair goes from one to the other. No entry: for the inner search.
#![tactic(auto)]

ghost use Rattle.precedence_visits.specs.Visits.{VisitsAsked, VisitsReached, VisitsForgotten, BetweenAsked, Between};

// At 2 * i the pairs whose first is visited before position i, at 2 * i + 1 those whose second is; behind them the last position of which they are known.
pub const VISIT_REACH: usize = 1026;

pub const VISIT_PLACES: usize = 1027;

// The words up to position `to` at least.
pub fn reach_visits(members: &[u64], route: &[u32], to: usize, visits: &mut [u64])
    requires { VisitsAsked members.now route.now to visits.old }
    ensures { VisitsReached members.now route.now to visits.old visits.new }
{
    let known = visits[VISIT_REACH] as usize;
    if to <= known {
        return;
    }
    let mut firsts = visits[2 * known];
    let mut seconds = visits[2 * known + 1];
    for i in known..to {
        let stop = route[i];
        firsts = firsts | precedence::firsts_at(members, stop);
        seconds = seconds | precedence::seconds_at(members, stop);
        let behind = i + 1;
        visits[2 * behind] = firsts;
        visits[2 * behind + 1] = seconds;
    }
    visits[VISIT_REACH] = to as u64;
}

// Whether a pair has its first in route[a..b] and none before it, and its second in route[c..d] and none before that.
pub fn visited_between(visits: &[u64], a: usize, b: usize, c: usize, d: usize) -> bool
    requires { BetweenAsked visits.now a b c d }
    ensures { Between visits.now a b c d result }
{
    let out = visits[2 * a] | visits[2 * c + 1];
    let both = visits[2 * b] & visits[2 * d + 1];
    (both | out) != out
}

// Another route is at hand: none of its visits is found yet.
pub fn forget_visits(visits: &mut [u64])
    ensures { VisitsForgotten visits.old visits.new }
{
    if visits.len() < VISIT_PLACES {
        return;
    }
    visits[VISIT_REACH] = 0;
}
