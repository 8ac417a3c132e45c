// The inner step of the scan: the first pattern on a cut set that improves the route and keeps every deadline and every pair. No entry: for the scan.
#![tactic(auto)]

ghost use Rattle.std.specs.Prelude.{◌≡◌, ◌&&◌, ◌+◌, ◌-◌, ◌*◌, length, get_or};
ghost use Rattle.std.proofs.Math.Seq.{slice};
ghost use Rattle.deadline_dues.specs.Dues.{in_time};
ghost use Rattle.precedence_marks.specs.Held.{in_order};
ghost use Rattle.scan_cut_set.specs.Gain.{below, LateBehind, Chains, NextShorter, RowJudged, DueRows, FirstDue, OrderRows, FirstOrdered};
ghost use Rattle.scan_cut_set.specs.Asked.{GainAsked, FoundAt};

use deadline_dues::{DUE_PLACES, Timing, time_states};
use precedence_marks::MARK_PLACES;
use scan_chains::ListedRows;
use scan_joints::{CELLS, EndStops};
use scan_round::Round;
use theory::CUT_PLACES;

// What is held from one cut set to the next with the same first cuts: the joint table, and the dues and the words of the states.
#[derive(Drop)]
pub struct Held {
    pub joint: [u64; CELLS],
    pub dues: [u64; DUE_PLACES],
    pub marks: [u64; MARK_PLACES],
}

impl Held {
    // The first row from `from` on that costs less than `standing`, or their number.
    fn next_shorter(&self, rows: &ListedRows<'_>, standing: u64, from: usize) -> usize
        requires { Chains self.now.joint rows.now.chains.now from rows.now.count }
        ensures { NextShorter self.now.joint rows.now.chains.now standing from rows.now.count result }
    {
        for i in from..rows.count {
            if scan_chains::chain_cost(&self.joint, rows.chains, i) < standing {
                return i;
            }
        }
        rows.count
    }

    // Whether row i is left in time, and then whether it keeps every pair.
    fn row_kept(
        &self,
        rows: &ListedRows<'_>,
        stays: &[u64; DUE_PLACES],
        i: usize,
        m: usize,
        clock: u64,
    ) -> bool
        requires { RowJudged self.now.joint rows.now.states.now stays.now self.now.dues self.now.marks i m clock }
        ensures { result ≡ (in_order self.now.marks 0 (slice (4 * i) (4 * i + m) rows.now.states.now) && in_time self.now.joint stays.now self.now.dues 9 clock (slice (4 * i) (4 * i + m) rows.now.states.now)) }
    {
        let judged = deadline_dues::judge_row(
            &self.joint,
            rows.states,
            stays,
            &self.dues,
            i,
            m,
            clock,
        );
        if let Timing::InTime = judged {
            return precedence_marks::row_in_order(rows.states, &self.marks, i, m);
        }
        false
    }

    // The first row from `start` on that costs less than `below`, is left in time and keeps every pair, or their number. The index jumps from one that costs less to the next, so this is no `for`.
    fn first_due(
        &self,
        rows: &ListedRows<'_>,
        stays: &[u64; DUE_PLACES],
        m: usize,
        clock: u64,
        below: u64,
        start: usize,
    ) -> usize
        requires { DueRows self.now.joint rows.now.states.now rows.now.chains.now stays.now self.now.dues self.now.marks m clock below start rows.now.count }
        ensures { FirstDue self.now.joint rows.now.states.now rows.now.chains.now stays.now self.now.dues self.now.marks m clock below rows.now.count result }
    {
        let mut i = start;
        while i < rows.count {
            if self.row_kept(rows, stays, i, m, clock) {
                return i;
            }
            i = self.next_shorter(rows, below, i + 1);
        }
        i
    }

    // The first row from `shorter` on that costs less than `below` and keeps every pair, or their number; where there are no pairs, `shorter` itself. The index jumps here too.
    fn first_ordered(
        &self,
        rows: &ListedRows<'_>,
        paired: bool,
        m: usize,
        below: u64,
        shorter: usize,
    ) -> usize
        requires { OrderRows self.now.joint rows.now.states.now rows.now.chains.now self.now.marks m below shorter rows.now.count }
        ensures { FirstOrdered self.now.joint rows.now.states.now rows.now.chains.now self.now.marks m below rows.now.count result }
    {
        if !paired {
            return shorter;
        }
        let mut i = shorter;
        while i < rows.count {
            if precedence_marks::row_in_order(rows.states, &self.marks, i, m) {
                return i;
            }
            i = self.next_shorter(rows, below, i + 1);
        }
        i
    }
}

// What a candidate must cost less than: what stands, and so much less that the tail is on time.
fn threshold(standing: u64, late: u64) -> u64
    ensures { result ≡ below standing late }
{
    if late <= 1 {
        return standing;
    }
    let more = late - 1;
    if standing < more {
        return 0;
    }
    standing - more
}

// By how much a stop behind the last cut is late at most.
fn late_behind(lateness: &[u64; CUT_PLACES], cuts: &[usize]) -> u64
    requires { LateBehind lateness.now cuts.now }
    ensures { result ≡ get_or lateness.now (get_or cuts.now (length cuts.now - 1) 0) 0 }
{
    let c = cuts[cuts.len() - 1];
    lateness[c]
}

// The first of the listed patterns on the cut set that improves the route, or their number. Pairs are looked at only where a pattern gains enough, deadlines where
// it keeps them as well; before `since` no tail keeps its pairs.
pub fn first_gain(
    round: &Round<'_, '_>,
    cuts: &[usize],
    rows: &ListedRows<'_>,
    ends: &EndStops,
    held: &mut Held,
) -> usize
    requires { GainAsked round.now cuts.now rows.now ends.now held.old }
    ensures { FoundAt round.now cuts.now rows.now.states.now rows.now.count result held.new }
{
    let lent = &round.lent;
    let sums = round.sums;
    if cuts[cuts.len() - 1] < round.since {
        return rows.count;
    }
    scan_reach::reach_joint(
        lent.locations,
        lent.legs,
        lent.depot,
        lent.end,
        round.route,
        &sums.forward,
        &sums.backward,
        cuts,
        &ends.entries,
        &ends.exits,
        &ends.inside,
        &mut held.joint,
    );
    let standing = scan_joints::standing_cost(&held.joint, cuts.len());
    let below = threshold(standing, late_behind(&sums.lateness, cuts));
    let shorter = held.next_shorter(rows, below, 0);
    if shorter == rows.count {
        return rows.count;
    }
    precedence_marks::mark_states(lent.members, round.route, cuts, &mut held.marks);
    let m = cuts.len() - 1;
    let ordered = held.first_ordered(rows, lent.members.len() != 0, m, below, shorter);
    if ordered == rows.count {
        return rows.count;
    }
    let mut stays = [0u64; DUE_PLACES];
    time_states(
        lent.locations,
        lent.legs,
        lent.latest,
        lent.service,
        round.route,
        &sums.backward,
        &sums.stayed,
        cuts,
        &mut held.dues,
        &mut stays,
    );
    let clock = deadline_dues::head_clock(
        lent.locations,
        lent.legs,
        lent.depot,
        round.route,
        &sums.forward,
        &sums.stayed,
        cuts,
    );
    held.first_due(rows, &stays, m, clock, below, ordered)
}
