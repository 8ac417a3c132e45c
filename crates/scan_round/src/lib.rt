// What every step of the scan reads: what the caller lends, and the route at hand with what is measured of it. It holds no entry: the crates of the scan take it.
#![tactic(auto)]

ghost use Rattle.theory.specs.Pairs.{pairs_of};
ghost use Rattle.precedence.specs.Words.{PairsLent};
ghost use Rattle.scan_round.specs.Lending.{trip_of};
ghost use Rattle.scan_round.specs.Measured.{Measured};
ghost use Rattle.scan_round.specs.Paired.{pairs_lent_prop};

use theory::{CUT_PLACES, STOPS};

// The tables, the pairs with the words of their members, and the two ends.
#[derive(Clone, Copy)]
pub struct Lent<'a> {
    pub locations: usize,
    pub legs: &'a [u32],
    pub latest: &'a [u32],
    pub service: &'a [u32],
    pub depot: u32,
    pub end: u32,
    pub pairs: &'a [u32],
    pub members: &'a [u64],
}

// The running sums of a route, its stays, and by how much the stops from each position on are late.
#[derive(Drop)]
pub struct Sums {
    pub forward: [u64; STOPS],
    pub backward: [u64; STOPS],
    pub stayed: [u64; CUT_PLACES],
    pub lateness: [u64; CUT_PLACES],
}

// A route as it is measured: no candidate keeps every deadline and every pair with a head that is none of the first `heads`, and before `since` no tail keeps its pairs.
#[derive(Clone, Copy)]
pub struct Round<'a, 'r> {
    pub lent: Lent<'a>,
    pub route: &'r [u32],
    pub sums: &'r Sums,
    pub heads: usize,
    pub since: usize,
    ghost measured: { Measured (trip_of lent) route.now sums.now since },
    ghost paired: { PairsLent (pairs_of lent.pairs.now) lent.members.now } by { pairs_lent_prop (pairs_of lent.pairs.now) lent.members.now },
}
