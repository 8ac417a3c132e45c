// The listing of the nearby cut sets, after nearby_state.rs. No entry is here.
#![tactic(auto)]

ghost use Rattle.std.specs.Prelude.{◌≡◌, length};
ghost use Rattle.nearby_last_cut.specs.Pouring.{pour};
ghost use Rattle.nearby.specs.Walk.{nearby_sets};
ghost use Rattle.nearby.specs.Listing.{NearbyInput, Lists, sets_of_state, Listable};

use nearby_last_cut::NearbyCutState;

// Each first cut in turn. Answers the sets counted, one more than fit at most.
fn first_cuts(state: NearbyCutState, distances: &[f64], lent: &mut [usize]) -> usize
    requires { Listable state distances.now lent.old }
    ensures { (result, lent.new) ≡ pour state.capacity state.k 0 lent.old (sets_of_state state distances.now) }
{
    let mut table = [0u16; 16896];
    let mut own = [0usize; 32];
    let mut cuts = [0usize; 5];
    let mut seen = 0;
    let span = state.k * state.min_segment_len;
    let beyond = (state.len + 1).saturating_sub(span);
    for first in state.min_segment_len..beyond {
        let size = nearby_from_cut::neighbours_of(
            state,
            distances,
            state.k - 1,
            first,
            &mut table,
            &mut own,
        );
        cuts[0] = first;
        seen = nearby_from_cut::branch(
            state,
            distances,
            state.k - 2,
            &own[..size],
            cuts,
            seen,
            &mut table,
            lent,
        );
        if seen > state.capacity {
            return seen;
        }
    }
    seen
}

// Writes the nearby cut sets, k places each, until no whole set fits any more.
pub fn nearby_cuts(
    n: usize,
    distances: &[f64],
    k: usize,
    min_segment_len: usize,
    max_nearby: usize,
    sets: &mut [usize],
) -> theory::Listing
    requires { NearbyInput n distances.now k min_segment_len max_nearby (length sets.old) }
    ensures { Lists n k min_segment_len (nearby_sets distances.now n k min_segment_len max_nearby) sets.old result sets.new }
{
    let capacity = sets.len() / k;
    let state = NearbyCutState {
        k,
        len: n,
        max_nearby,
        min_segment_len,
        capacity,
    };
    let counted = first_cuts(state, distances, sets);
    if counted > capacity {
        return theory::Listing::More(capacity);
    }
    theory::Listing::Ended(counted)
}
