// The first move that turns one route into another, in the order of the scan: cut by cut, where the test of the first cuts does not say that nothing is there.
// No entry: crate cut_calls calls it.
#![tactic(auto)]

ghost use Rattle.std.specs.Prelude.{◌≡◌, ◌<◌, length, set};
ghost use Rattle.find_move.specs.Search.{Sought, TryableRow, Tryable, turned, FoundAt, WholeCuts, FirstPattern, Begun, GoesOn, Finds};
ghost use Rattle.find_move.specs.Pairs.{CanWalk, WalkedBy, GoesOnBy};

use first_move::FoundMove;
use theory::STOPS;

// Whether the pattern of row i turns the old route into the wanted one.
fn turns(old: &[u32], wanted: &[u32], cuts: &[usize], orders: &[u8], masks: &[u8], i: usize) -> bool
    requires { TryableRow old.now wanted.now cuts.now orders.now masks.now i }
    ensures { result ≡ turned old.now wanted.now cuts.now orders.now masks.now i }
{
    let n = old.len();
    let mut spare = [0u32; STOPS];
    candidates::build_front(old, cuts, orders, masks, i, &mut spare);
    &spare[..n] == wanted
}

// The first row that does.
fn first_row(
    old: &[u32],
    wanted: &[u32],
    cuts: &[usize],
    orders: &[u8],
    masks: &[u8],
) -> Option<usize>
    requires { Tryable old.now wanted.now cuts.now orders.now masks.now }
    ensures { FoundAt (turned old.now wanted.now cuts.now orders.now masks.now) (length masks.now) result }
{
    for row in 0..masks.len() {
        if turns(old, wanted, cuts, orders, masks, row) {
            return Some(row);
        }
    }
    None
}

// The first pattern on a cut set that does.
fn first_pattern(k: usize, old: &[u32], wanted: &[u32], cuts: [usize; 5]) -> Option<FoundMove>
    requires { WholeCuts k old.now wanted.now cuts }
    ensures { FirstPattern k old.now wanted.now cuts result }
{
    let part = pattern_table::part_of(k);
    let first_order = part.orders;
    let end_order = part.orders_end;
    let first_mask = part.masks;
    let end_mask = part.masks_end;
    let orders = pattern_table::orders();
    let masks = pattern_table::masks();
    let index = first_row(
        old,
        wanted,
        &cuts[..k],
        &orders[first_order..end_order],
        &masks[first_mask..end_mask],
    )?;
    Some(FoundMove { index, cuts })
}

fn with_cut(cuts: [usize; 5], j: usize, d: usize) -> [usize; 5]
    requires { j < 5 }
    ensures { result ≡ set cuts j d }
{
    let mut longer = cuts;
    longer[j] = d;
    longer
}

// Two routes, how many cuts are sought, and what the test of the first cuts reads: its tables, and the places at which the routes begin and end alike.
#[derive(Clone, Copy)]
struct RoutePair<'a> {
    k: usize,
    old: &'a [u32],
    wanted: &'a [u32],
    stands: &'a [u64; 2401],
    ends: &'a [u64; 2401],
    parts: &'a [u64; 2401],
    head: u64,
    tail: u64,
}

impl<'a> RoutePair<'a> {
    // Whether the first j cuts may lead to a move.
    fn may_go_on(&self, cuts: [usize; 5], j: usize) -> bool
        requires { Begun self.now.k cuts j }
        ensures { GoesOnBy self.now cuts j result }
    {
        j == 0
            || prefixes::may_lead(
                self.stands,
                self.ends,
                self.parts,
                &cuts,
                self.head,
                self.tail,
                self.k,
                j - 1,
            )
    }

    // The first move whose first j cuts are these, the next from `low` on.
    fn walk(&self, cuts: [usize; 5], j: usize, low: usize) -> Option<FoundMove>
        requires { CanWalk self.now cuts j low }
        ensures { WalkedBy self.now cuts j low result }
    {
        if !self.may_go_on(cuts, j) {
            return None;
        }
        if j == self.k {
            return first_pattern(self.k, self.old, self.wanted, cuts);
        }
        for d in low..self.old.len() + 1 {
            let longer = with_cut(cuts, j, d);
            if let Some(found) = self.walk(longer, j + 1, d + 1) {
                return Some(found);
            }
        }
        None
    }
}

// The first move with k cuts that turns the old route into the wanted one.
pub fn find_move(k: usize, old: &[u32], wanted: &[u32]) -> Option<FoundMove>
    requires { Sought k old.now wanted.now }
    ensures { Finds k old.now wanted.now result }
{
    let same = standing_tables::same_words(old, wanted);
    let mut stands = [0u64; 2401];
    standing_tables::fill_stands(&same, old.len(), &mut stands);
    let mut ends = [0u64; 2401];
    standing_tables::fill_along(&same, &mut ends);
    let mut parts = [0u64; 2401];
    standing_tables::fill_against(&same, &mut parts);
    standing_tables::merge(&parts, &mut ends);
    standing_tables::fill_parts(&ends, &mut parts);
    let pair = RoutePair {
        k,
        old,
        wanted,
        stands: &stands,
        ends: &ends,
        parts: &parts,
        head: standing_tables::head_places(old, wanted),
        tail: standing_tables::tail_places(old, wanted),
    };
    pair.walk([0; 5], 0, 0)
}
