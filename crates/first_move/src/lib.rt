// The first move that turns one route into another: its answer type here, its definition and laws in specs/ and proofs/.
#![tactic(auto)]

// A move that the search found: the index of its pattern, and its cuts in the first k places.
#[derive(Clone, Copy, Debug, PartialEq, Eq)]
pub struct FoundMove {
    pub index: usize,
    pub cuts: [usize; 5],
}
