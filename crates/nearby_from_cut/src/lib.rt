// The branches of the nearby walk: the cut sets from a cut on, into the lent buffer, after nearby_state.rs. No entry is here.
#![tactic(auto)]

ghost use Rattle.std.specs.Prelude.{◌≡◌, ◌+◌, ◌<◌, length, get_or, drop};
ghost use Rattle.nearby_from_cut.specs.Branch.{goes_on, Branchable, Branched, AskableFor, EligibleFor};

use nearby_last_cut::NearbyCutState;

// Whether the entry behind the one at i is higher.
fn goes_on(entries: &[usize], i: usize) -> bool
    requires { i < length entries.now }
    ensures { result ≡ goes_on (get_or entries.now i 0) (drop (i + 1) entries.now) }
{
    let next = i + 1;
    if next >= entries.len() {
        return false;
    }
    entries[i] < entries[next]
}

// The neighbours of a cut that are eligible with `missing` cuts still to be picked, into `own`. Answers how many there are.
pub fn neighbours_of(
    state: NearbyCutState,
    distances: &[f64],
    missing: usize,
    cut: usize,
    table: &mut [u16],
    own: &mut [usize],
) -> usize
    requires { AskableFor state distances.now missing cut table.old own.old }
    ensures { EligibleFor state distances.now missing cut result table.new own.new }
{
    let n = state.len;
    let m = state.min_segment_len;
    nearby_neighbours::eligible_neighbours(
        distances,
        n,
        m,
        state.max_nearby,
        missing,
        cut,
        table,
        own,
    )
}

// The sets with one of the entries for the next cut and `behind` more cuts after it, into the buffer while there is room. Answers the sets counted so far, one more than fit at most.
pub fn branch(
    state: NearbyCutState,
    distances: &[f64],
    behind: usize,
    entries: &[usize],
    cuts: [usize; 5],
    seen: usize,
    table: &mut [u16],
    lent: &mut [usize],
) -> usize
    requires { Branchable state distances.now behind entries.now seen table.old lent.old }
    ensures { Branched state distances.now behind entries.now cuts seen lent.old result table.new lent.new }
{
    if behind == 0 {
        return nearby_last_cut::last_cuts(state, entries, cuts, seen, lent);
    }
    let mut seen = seen;
    let mut own = [0usize; 32];
    for i in 0..entries.len() {
        let cut = entries[i];
        let size = neighbours_of(state, distances, behind, cut, table, &mut own);
        if size == 0 {
            return seen;
        }
        let list = &own[..size];
        let mut front = cuts;
        front[state.k - 1 - behind] = cut;
        seen = branch(state, distances, behind - 1, list, front, seen, table, lent);
        if seen > state.capacity {
            return seen;
        }
        if !goes_on(entries, i) {
            return seen;
        }
    }
    seen
}
