// The first pattern on a cut set that improves the route, looked for among the rows that are open: these are put together where what is blocked changes. No entry: crate scan_step calls it.
#![tactic(auto)]

ghost use Rattle.std.specs.Prelude.{◌≡◌, cond, ◌<◌, eqb, length, get_or};
ghost use Rattle.scan_shared.specs.Filling.{open_by};
ghost use Rattle.scan_sifting.specs.Sifting.{opens};
ghost use Rattle.scan_open.specs.Open.{SiftAsked, SiftReady, LimitAsked, PatternAsked};
ghost use Rattle.scan_open.specs.Asked.{OpenAsked, OpenFoundAt};

use scan_chains::{CHAIN_BYTES, ListedRows};
use scan_cut_set::Held;
use scan_joints::{EndStops, ROW_BYTES};
use scan_round::Round;
use scan_shared::Closing;

// What was blocked when the rows at hand were put together, 0 before any were; and how many there are.
pub const HAND_PLACES: usize = 2;

// The rows at hand, with the places that they add up.
#[derive(Drop)]
pub struct Hand {
    pub rows: [u8; ROW_BYTES],
    pub chains: [u8; CHAIN_BYTES],
    pub kept: [usize; HAND_PLACES],
}

fn wide(blocked: u16) -> usize
    ensures { result ≡ blocked }
{
    blocked as usize
}

impl Hand {
    // The open rows, with the places that they add up, unless they are there.
    fn keep_open(&mut self, rows: &ListedRows<'_>, closing: &Closing<'_>)
        requires { SiftAsked rows.now.states.now rows.now.count closing.now.signs.now closing.now.blocked self.old.rows self.old.chains self.old.kept }
        ensures { SiftReady rows.now.states.now rows.now.count closing.now.signs.now closing.now.blocked self.new.rows self.new.chains self.new.kept }
    {
        if closing.blocked == 0 {
            return;
        }
        let now = wide(closing.blocked);
        if self.kept[0] == now {
            return;
        }
        let open = scan_sifting::sift_rows(
            rows.states,
            rows.count,
            closing.signs,
            closing.blocked,
            &mut self.rows,
        );
        scan_chains::fill_chains(&self.rows, open, &mut self.chains);
        self.kept[0] = now;
        self.kept[1] = open;
    }

    // How many of the first `limit` rows are open: with all of them it was told when they were put together.
    fn open_limit(&self, closing: &Closing<'_>, patterns: usize, limit: usize) -> usize
        requires { LimitAsked closing.now.signs.now closing.now.blocked patterns self.now.kept limit }
        ensures { result ≡ length (opens (open_by closing.now.signs.now closing.now.blocked) limit) }
    {
        if closing.blocked == 0 {
            return limit;
        }
        if limit == patterns {
            return self.kept[1];
        }
        scan_sifting::open_before(closing.signs, closing.blocked, limit)
    }

    // So many of the rows at hand, which are all rows where nothing is blocked.
    fn at_hand<'a>(&'a self, rows: &ListedRows<'a>, blocked: u16, count: usize) -> ListedRows<'a>
        ensures states { result.states.now ≡ cond (eqb blocked 0) rows.now.states.now self.now.rows }
        ensures chains { result.chains.now ≡ cond (eqb blocked 0) rows.now.chains.now self.now.chains }
        ensures count { result.count ≡ count }
    {
        if blocked == 0 {
            return ListedRows {
                states: rows.states,
                chains: rows.chains,
                count,
            };
        }
        ListedRows {
            states: &self.rows,
            chains: &self.chains,
            count,
        }
    }
}

// The pattern of a row at hand.
fn pattern_at(closing: &Closing<'_>, row: usize, limit: usize) -> usize
    requires { PatternAsked closing.now.signs.now closing.now.blocked row limit }
    ensures { result ≡ get_or (opens (open_by closing.now.signs.now closing.now.blocked) limit) row 0 }
{
    if closing.blocked == 0 {
        return row;
    }
    scan_sifting::open_row(closing.signs, closing.blocked, row, limit)
}

// The first of the first `limit` patterns on the cut set that improves the route, or `limit`: one whose row is closed does not.
pub fn first_open_gain(
    round: &Round<'_, '_>,
    cuts: &[usize],
    rows: &ListedRows<'_>,
    closing: &Closing<'_>,
    ends: &EndStops,
    held: &mut Held,
    hand: &mut Hand,
    limit: usize,
) -> usize
    requires { OpenAsked round.now cuts.now rows.now closing.now ends.now held.old hand.old limit }
    ensures { OpenFoundAt round.now cuts.now rows.now closing.now limit result held.new hand.new }
{
    hand.keep_open(rows, closing);
    let open = hand.open_limit(closing, rows.count, limit);
    let all = ListedRows {
        states: rows.states,
        chains: rows.chains,
        count: rows.count,
    };
    let now = hand.at_hand(&all, closing.blocked, open);
    let found = scan_cut_set::first_gain(round, cuts, &now, ends, held);
    if found == open {
        return limit;
    }
    pattern_at(closing, found, limit)
}
