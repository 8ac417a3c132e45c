// Cut sets into the lent buffer, while there is room: those of the last cut, after nearby_state.rs. No entry is here.
#![tactic(auto)]

ghost use Rattle.std.specs.Prelude.{◌≡◌, ◌∷◌, [], ◌++◌, map, ◌+◌, ◌-◌, ◌≤◌, length, take};
ghost use Rattle.std.proofs.lemmas.List.Edits.{sets};
ghost use Rattle.nearby_last_cut.specs.Pouring.{pour, Room};

// What a listing keeps to: `len` stops, and room for `capacity` sets.
#[derive(Clone, Copy, Debug, PartialEq, Eq)]
pub struct NearbyCutState {
    pub k: usize,
    pub len: usize,
    pub max_nearby: usize,
    pub min_segment_len: usize,
    pub capacity: usize,
}

// A set into the buffer from `at` on.
fn put_set(cuts: &[usize], lent: &mut [usize], at: usize)
    requires { at + length cuts.now ≤ length lent.old }
    ensures { lent.new ≡ sets lent.old at cuts.now }
{
    let end = at + cuts.len();
    lent[at..end].copy_from_slice(cuts);
}

// The last cut takes each entry of its list: a set each, into the buffer while there is room. Answers the sets counted so far, one more than fit at most.
pub fn last_cuts(
    state: NearbyCutState,
    entries: &[usize],
    cuts: [usize; 5],
    seen: usize,
    lent: &mut [usize],
) -> usize
    requires { Room state seen lent.old }
    ensures { (result, lent.new) ≡ pour state.capacity state.k seen lent.old (map (λ p. take (state.k - 1) cuts ++ (p ∷ [])) entries.now) }
{
    let mut seen = seen;
    let mut row = cuts;
    for &entry in entries {
        if seen >= state.capacity {
            return state.capacity + 1;
        }
        row[state.k - 1] = entry;
        put_set(&row[..state.k], lent, seen * state.k);
        seen += 1;
    }
    seen
}
