// A stretch of the scan: the cut sets with the same first cuts, in their order. Those that can hold no gain are passed over and counted. No entry: crate scan_rest calls it.
#![tactic(auto)]

ghost use Rattle.std.specs.Prelude.{◌≡◌};
ghost use Rattle.scan_shared.specs.Filling.{Sharing};
ghost use Rattle.scan_stretch.specs.Stretch.{Passable, Passed, Openable};
ghost use Rattle.scan_stretch.specs.Asked.{LastCutsAsked, StretchAsked, StretchedAt};

use deadline_dues::DUE_PLACES;
use precedence_marks::MARK_PLACES;
use scan_chains::ListedRows;
use scan_cut_set::Held;
use scan_joints::{CELLS, EndStops, STATES};
use scan_open::{HAND_PLACES, Hand};
use scan_reach::HELD;
use scan_round::Round;
use scan_shared::{Closing, LOW_PLACES, LeastCosts};
use scan_step::{Step, Stretch};

// What one stretch after another works in: what is held, the table that the cut sets of a stretch share, and the rows at hand.
#[derive(Drop)]
pub struct Work {
    pub held: Held,
    pub shared: [u64; CELLS],
    pub hand: Hand,
}

// The whole stretch is passed over: none of its candidates improves the route.
fn pass_stretch(stops: usize, patterns: usize, cuts: &mut [usize], left: u64) -> Stretch
    requires { Passable stops patterns cuts.old }
    ensures { Passed stops patterns cuts.old left result cuts.new }
{
    let last = cuts.len() - 1;
    let over = scan_step::passed_patterns(stops + 1 - cuts[last], patterns);
    if left < over {
        return scan_step::without_gain(left, false);
    }
    cuts[last] = stops;
    scan_step::without_gain(over, true)
}

// What the cut sets with the same first cuts share, from whichever of them: the first stands at hand while it is prepared.
fn prepare_opened(
    round: &Round<'_, '_>,
    cuts: &mut [usize],
    rows: &ListedRows<'_>,
    closing: &Closing<'_>,
    ends: &mut EndStops,
    low: &mut [u64; LOW_PLACES],
    shared: &mut [u64; CELLS],
) -> bool
    requires { Openable round.now.lent.locations round.now.lent.legs.now round.now.lent.depot round.now.route.now round.now.sums.now.forward round.now.sums.now.backward cuts.old rows.now.states.now rows.now.count closing.now.signs.now closing.now.blocked ends.old.entries ends.old.exits ends.old.inside low.old shared.old }
    ensures { (cuts.new ≡ cuts.old) × Sharing round.now.lent.locations round.now.lent.legs.now round.now.lent.depot round.now.route.now cuts.old rows.now.states.now rows.now.count closing.now.signs.now closing.now.blocked ends.new.entries ends.new.exits ends.new.inside low.new shared.new result }
{
    let last = cuts.len() - 1;
    let here = cuts[last];
    cuts[last] = cuts[last - 1] + 1;
    let some = scan_shared::prepare(
        round.lent.locations,
        round.lent.legs,
        round.lent.depot,
        round.route,
        &round.sums.forward,
        &round.sums.backward,
        &cuts[..],
        rows.states,
        rows.count,
        closing.signs,
        closing.blocked,
        &mut ends.entries,
        &mut ends.exits,
        &mut ends.inside,
        low,
        shared,
    );
    cuts[last] = here;
    some
}

// Last cut by last cut, behind a head that is on time and keeps its pairs; where rows are closed, with the least costs of those that are left.
fn scan_last_cuts(
    round: &Round<'_, '_>,
    rows: &ListedRows<'_>,
    signs: &[u16],
    cuts: &mut [usize],
    work: &mut Work,
    visits: &mut [u64],
    left: u64,
) -> Stretch
    requires { LastCutsAsked round.now rows.now signs.now cuts.old work.old visits.old }
    ensures { StretchedAt round.now rows.now signs.now cuts.old left result cuts.new work.new visits.new }
{
    let mut ends = EndStops {
        entries: [0; STATES],
        exits: [0; STATES],
        inside: [0; STATES],
    };
    let mut least = LeastCosts {
        low: [0; LOW_PLACES],
        zero: [0; LOW_PLACES],
        some: false,
    };
    work.held.joint[HELD] = 0;
    work.held.dues = [0; DUE_PLACES];
    work.held.marks = [0; MARK_PLACES];
    work.hand.kept = [0; HAND_PLACES];
    let mut blocked = scan_step::blocked_now(
        round.lent.members,
        round.route,
        round.since,
        &cuts[..],
        signs,
        visits,
    );
    let first_closing = Closing { signs, blocked };
    let some = prepare_opened(
        round,
        cuts,
        rows,
        &first_closing,
        &mut ends,
        &mut least.low,
        &mut work.shared,
    );
    least.some = some;
    let p = 2 * (cuts.len() - 2);
    let mut examined = 0u64;
    loop {
        let closing = Closing { signs, blocked };
        let step = scan_step::take_step(
            round,
            rows,
            &closing,
            cuts,
            &ends,
            &least,
            &mut work.held,
            &mut work.hand,
            visits,
            examined,
            left,
        );
        match step {
            Step::Done(stretch) => return stretch,
            Step::On(reached) => examined = reached,
            Step::Closed(reached, closed) => {
                examined = reached;
                blocked = closed;
                let open = scan_shared::lower_again(
                    rows.states,
                    rows.count,
                    p,
                    &work.shared,
                    signs,
                    blocked,
                    &mut least.low,
                );
                least.some = open;
            }
        }
    }
}

// From a cut set on, along those with its first cuts, the first of the `left` candidates still allowed that improves the route. With a head that is none of those left
// to the round, no candidate keeps every deadline and every pair.
pub fn scan_stretch(
    round: &Round<'_, '_>,
    rows: &ListedRows<'_>,
    signs: &[u16],
    cuts: &mut [usize],
    work: &mut Work,
    visits: &mut [u64],
    left: u64,
) -> Stretch
    requires { StretchAsked round.now rows.now signs.now cuts.old work.old visits.old }
    ensures { StretchedAt round.now rows.now signs.now cuts.old left result cuts.new work.new visits.new }
{
    if round.heads <= cuts[0] {
        return pass_stretch(round.route.len(), rows.count, cuts, left);
    }
    scan_last_cuts(round, rows, signs, cuts, work, visits, left)
}
