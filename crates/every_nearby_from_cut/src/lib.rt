// Every nearby cut set from a cut on, into the lent buffer. No entry is here.
#![tactic(auto)]

ghost use Rattle.std.specs.Prelude.{◌≡◌, cond, eqb};
ghost use Rattle.nearby_from_cut.specs.Branch.{AskableFor};
ghost use Rattle.every_nearby_from_cut.specs.Barren.{UnlessMarked, Walkable, Walked};

use nearby_last_cut::NearbyCutState;
use theory::STOPS;

// A mark for each number of cuts missing, below 5, and each position: no set goes on from there.
pub const MARKS: usize = 5 * STOPS;

// The eligible neighbours of a cut, into `own`; none if it is marked. Answers how many there are.
fn unless_marked(
    state: NearbyCutState,
    distances: &[f64],
    missing: usize,
    cut: usize,
    mark: u8,
    table: &mut [u16],
    own: &mut [usize],
) -> usize
    requires { AskableFor state distances.now missing cut table.old own.old }
    ensures { UnlessMarked state distances.now missing cut mark result table.new own.new }
{
    if mark != 0 {
        return 0;
    }
    nearby_from_cut::neighbours_of(state, distances, missing, cut, table, own)
}

// The mark of a cut under which no set was counted.
fn mark_of(before: usize, after: usize) -> u8
    ensures { result ≡ cond (eqb before after) 1 0 }
{
    if before == after {
        return 1;
    }
    0
}

// Every set with one of the entries for the next cut and `behind` more cuts after it, into the buffer while there is room; a cut that ends in nothing is marked, and passed over
// when it is met again. Answers the sets counted so far, one more than fit at most.
pub fn every_from(
    state: NearbyCutState,
    distances: &[f64],
    behind: usize,
    entries: &[usize],
    cuts: [usize; 5],
    seen: usize,
    table: &mut [u16],
    barren: &mut [u8; MARKS],
    lent: &mut [usize],
) -> usize
    requires { Walkable state distances.now behind entries.now seen table.old barren.old lent.old }
    ensures { Walked state distances.now behind entries.now cuts seen lent.old result table.new barren.new lent.new }
{
    if behind == 0 {
        return nearby_last_cut::last_cuts(state, entries, cuts, seen, lent);
    }
    let mut seen = seen;
    let mut own = [0usize; 32];
    for &cut in entries {
        let at = behind * STOPS + cut;
        let size = unless_marked(state, distances, behind, cut, barren[at], table, &mut own);
        let list = &own[..size];
        let mut front = cuts;
        front[state.k - 1 - behind] = cut;
        let before = seen;
        seen = every_from(
            state,
            distances,
            behind - 1,
            list,
            front,
            before,
            table,
            barren,
            lent,
        );
        if seen > state.capacity {
            return seen;
        }
        barren[at] = mark_of(before, seen);
    }
    seen
}
