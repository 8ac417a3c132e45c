// A step of a stretch: over the cut sets that can hold no gain to one that is promising, which is tried, unless rows are found to be closed there. No entry: crate scan_stretch calls it.
#![tactic(auto)]

ghost use Rattle.std.specs.Prelude.{◌≡◌, min, ◌*◌, ◌≤◌};
ghost use Rattle.scan_bound.specs.Tests.{Nextable};
ghost use Rattle.scan_step.specs.Stepping.{idle_end, BlockAsked, BlockedAt, NextHit};
ghost use Rattle.scan_step.specs.Asked.{TryAsked, TriedAt, StepAsked, SteppedAt};

use scan_chains::ListedRows;
use scan_cut_set::Held;
use scan_joints::EndStops;
use scan_open::Hand;
use scan_round::Round;
use scan_shared::{Closing, LeastCosts};

// How a stretch ended: at an improving candidate, whose pattern is told and whose cuts are at hand; or through it; or else with the candidates allowed. Those before were examined.
#[derive(Clone, Copy, Debug, PartialEq, Eq)]
pub struct Stretch {
    pub examined: u64,
    pub gains: bool,
    pub through: bool,
    pub pattern: usize,
}

// What a step came to: the stretch has ended; or the next last cut is at hand and so many candidates before it are examined; or the same, and rows are closed there that were open.
#[derive(Clone, Copy, Debug, PartialEq, Eq)]
pub enum Step {
    Done(Stretch),
    On(u64),
    Closed(u64, u16),
}

pub fn without_gain(examined: u64, through: bool) -> Stretch
    ensures { result ≡ idle_end examined through }
{
    Stretch {
        examined,
        gains: false,
        through,
        pattern: 0,
    }
}

// The patterns of a cut set that are still allowed.
pub fn still_allowed(patterns: usize, left: u64) -> usize
    ensures { result ≡ min patterns left }
{
    if (patterns as u64) < left {
        return patterns;
    }
    left as usize
}

// How many patterns the cut sets passed over have.
pub fn passed_patterns(sets: usize, patterns: usize) -> u64
    requires { (sets ≤ 513) × (patterns ≤ 383) }
    ensures { result ≡ sets * patterns }
{
    (sets * patterns) as u64
}

// What closes rows at the cut set at hand and behind it: nothing where no signs are lent, and where the route itself breaks a pair.
pub fn blocked_now(
    members: &[u64],
    route: &[u32],
    since: usize,
    cuts: &[usize],
    signs: &[u16],
    visits: &mut [u64],
) -> u16
    requires { BlockAsked members.now route.now cuts.now signs.now visits.old }
    ensures { BlockedAt members.now route.now since cuts.now signs.now visits.old visits.new result }
{
    if signs.len() == 0 {
        return 0;
    }
    if since != 0 {
        return 0;
    }
    let last = cuts.len() - 1;
    precedence_visits::reach_visits(members, route, cuts[last], visits);
    precedence_closing::closed_signs(&visits[..], cuts)
}

// The patterns at the last cut at hand, and with none the last cut behind it.
fn try_cut_set(
    round: &Round<'_, '_>,
    rows: &ListedRows<'_>,
    closing: &Closing<'_>,
    cuts: &mut [usize],
    ends: &EndStops,
    held: &mut Held,
    hand: &mut Hand,
    examined: u64,
    left: u64,
) -> Step
    requires { TryAsked round.now rows.now closing.now cuts.old ends.now held.old hand.old examined left }
    ensures { TriedAt round.now rows.now closing.now cuts.old held.old examined left result cuts.new held.new hand.new }
{
    let limit = still_allowed(rows.count, left - examined);
    let found = scan_open::first_open_gain(
        round,
        &cuts[..],
        rows,
        closing,
        ends,
        held,
        hand,
        limit,
    );
    let reached = examined + found as u64;
    if found < limit {
        return Step::Done(Stretch {
            examined: reached,
            gains: true,
            through: false,
            pattern: found,
        });
    }
    if limit < rows.count {
        return Step::Done(without_gain(reached, false));
    }
    let last = cuts.len() - 1;
    let here = cuts[last];
    if here == round.route.len() {
        return Step::Done(without_gain(reached, true));
    }
    cuts[last] = here + 1;
    Step::On(reached)
}

// The first last cut, from the one at hand on, that may hold a gain, or one beyond the route: that one where no row is open.
fn next_hit(round: &Round<'_, '_>, cuts: &[usize], ends: &EndStops, least: &LeastCosts) -> usize
    requires { Nextable round.now.lent.locations round.now.lent.legs.now round.now.lent.depot round.now.lent.end round.now.route.now round.now.sums.now.forward round.now.sums.now.backward cuts.now ends.now.entries ends.now.exits ends.now.inside least.now.low least.now.zero }
    ensures { NextHit round.now.lent.locations round.now.lent.legs.now round.now.lent.depot round.now.lent.end round.now.route.now cuts.now ends.now.entries ends.now.exits ends.now.inside least.now.low least.now.some result }
{
    let lent = &round.lent;
    let sums = round.sums;
    let some = least.some;
    if some {
        return scan_bound::next_promising(
            lent.locations,
            lent.legs,
            lent.depot,
            lent.end,
            round.route,
            &sums.forward,
            &sums.backward,
            cuts,
            &ends.entries,
            &ends.exits,
            &ends.inside,
            &least.low,
            &least.zero,
        );
    }
    round.route.len() + 1
}

// Over the last cuts that can hold no gain to the first that is promising, which is tried, unless rows are closed there that were open: then their least costs are of no use any more.
pub fn take_step(
    round: &Round<'_, '_>,
    rows: &ListedRows<'_>,
    closing: &Closing<'_>,
    cuts: &mut [usize],
    ends: &EndStops,
    least: &LeastCosts,
    held: &mut Held,
    hand: &mut Hand,
    visits: &mut [u64],
    examined: u64,
    left: u64,
) -> Step
    requires { StepAsked round.now rows.now closing.now cuts.old ends.now least.now held.old hand.old visits.old examined left }
    ensures { SteppedAt round.now rows.now closing.now cuts.old held.old examined left result cuts.new held.new hand.new visits.new }
{
    let last = cuts.len() - 1;
    let hit = next_hit(round, &cuts[..], ends, least);
    let over = passed_patterns(hit - cuts[last], rows.count);
    if left - examined < over {
        return Step::Done(without_gain(left, false));
    }
    let reached = examined + over;
    if round.route.len() < hit {
        cuts[last] = round.route.len();
        return Step::Done(without_gain(reached, true));
    }
    cuts[last] = hit;
    let closed = blocked_now(
        round.lent.members,
        round.route,
        round.since,
        &cuts[..],
        closing.signs,
        visits,
    );
    if closing.blocked < closed {
        return Step::Closed(reached, closed);
    }
    try_cut_set(round, rows, closing, cuts, ends, held, hand, reached, left)
}
