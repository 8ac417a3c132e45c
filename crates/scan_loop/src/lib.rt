// The scan of document 01 from a place on, stretch by stretch: the cut sets with the same first cuts are one. No entry: crate polishing calls it.
#![tactic(auto)]

ghost use Rattle.std.specs.Prelude.{◌≡◌};
ghost use Rattle.theory.specs.Tables.{problem, pattern_rows};
ghost use Rattle.scan_round.specs.Lending.{trip_of};
ghost use Rattle.scan_loop.specs.Loop.{Spendable, spent_at, ScanAsked, Scans};

use deadline_dues::DUE_PLACES;
use precedence_marks::MARK_PLACES;
use scan_chains::CHAIN_BYTES;
use scan_cut_set::Held;
use scan_joints::{CELLS, ROW_BYTES};
use scan_open::{HAND_PLACES, Hand};
use scan_rest::Rows;
use scan_round::{Lent, Round, Sums};
use scan_stretch::Work;
use scan_taking::Limits;
use theory::{CUT_PLACES, STOPS};

// What the scan counted when it ended, and whether the route then keeps every deadline; and the place of the next candidate, or the first place where it has finished.
#[derive(Clone, Copy, Debug, PartialEq, Eq)]
pub struct Scanned {
    pub finished: bool,
    pub examined: u64,
    pub accepted: u64,
    pub kept: bool,
    pub cuts: [usize; 5],
    pub index: usize,
}

// The scan is spent, with so many candidates counted from the last cut's first pattern on, behind the cuts before it: the next one is by division.
fn spent(
    k: usize,
    cut: [usize; 5],
    last: usize,
    over: u64,
    patterns: usize,
    examined: u64,
    accepted: u64,
    kept: bool,
) -> Scanned
    requires { Spendable k cut last over patterns }
    ensures { result ≡ spent_at k cut last over patterns examined accepted kept }
{
    let mut cuts = cut;
    cuts[k - 1] = last + (over / patterns as u64) as usize;
    Scanned {
        finished: false,
        examined,
        accepted,
        kept,
        cuts,
        index: (over % patterns as u64) as usize,
    }
}

// The scan from a place on: the first improving candidate of a stretch is taken and the scan begins again, or the stretch is passed. Where there are pairs, places are lent for
// what closed rows are found by.
pub fn scan_cut_sets(
    k: usize,
    allowance: u64,
    lent: &Lent<'_>,
    orders: &[u8],
    masks: &[u8],
    start: [usize; 5],
    from: usize,
    route: &mut [u32],
    signs: &mut [u16],
    visits: &mut [u64],
) -> Scanned
    requires { ScanAsked k (trip_of lent.now) orders.now masks.now lent.now.members.now start from route.old signs.old visits.old }
    ensures { Scans (problem (trip_of lent.now)) (pattern_rows k orders.now masks.now) k allowance start from route.old result route.new }
{
    let mut sums = Sums {
        forward: [0; STOPS],
        backward: [0; STOPS],
        stayed: [0; CUT_PLACES],
        lateness: [0; CUT_PLACES],
    };
    let mut work = Work {
        held: Held {
            joint: [0; CELLS],
            dues: [0; DUE_PLACES],
            marks: [0; MARK_PLACES],
        },
        shared: [0; CELLS],
        hand: Hand {
            rows: [0; ROW_BYTES],
            chains: [0; CHAIN_BYTES],
            kept: [0; HAND_PLACES],
        },
    };
    let mut rows = Rows {
        states: [0; ROW_BYTES],
        chains: [0; CHAIN_BYTES],
    };
    let mut limits = scan_taking::measure(lent, &route[..], &mut sums);
    let mut cut = start;
    let mut index = from;
    let mut filled = masks.len();
    let mut examined = 0u64;
    let mut accepted = 0u64;
    loop {
        let last = cut[k - 1];
        let round = Round {
            lent: *lent,
            route: &route[..],
            sums: &sums,
            heads: limits.heads,
            since: limits.since,
        };
        let stretch = scan_rest::scan_part(
            &round,
            orders,
            masks,
            &mut rows,
            signs,
            index,
            &mut cut[..k],
            &mut work,
            visits,
            filled,
            allowance - examined,
        );
        filled = index;
        examined += stretch.examined;
        if stretch.gains {
            scan_taking::take_gain(
                lent,
                &cut[..k],
                orders,
                masks,
                stretch.pattern,
                route,
                &mut sums,
            );
            precedence_visits::forget_visits(visits);
            let heads = route.len() + 1;
            limits = Limits { heads, since: 0 };
            cut = [0, 1, 2, 3, 4];
            index = 0;
            examined += 1;
            accepted += 1;
        } else {
            if !stretch.through {
                return spent(
                    k,
                    cut,
                    last,
                    index as u64 + stretch.examined,
                    masks.len(),
                    examined,
                    accepted,
                    sums.lateness[0] == 0,
                );
            }
            if !cut_step::next_cut_set(&mut cut[..k], route.len()) {
                return Scanned {
                    finished: true,
                    examined,
                    accepted,
                    kept: sums.lateness[0] == 0,
                    cuts: [0, 1, 2, 3, 4],
                    index: 0,
                };
            }
            index = 0;
        }
    }
}
