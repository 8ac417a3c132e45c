// One round: its turn, which a run and its shares have in common, and what a run makes of it. No entry: the crates above call it.
ghost use Rattle.std.specs.Prelude.{◌≡◌, cond, length};
ghost use Rattle.theory.specs.Tables.{problem, trip};
ghost use Rattle.polishing.specs.Loop.{Polishable};
ghost use Rattle.rounds.specs.Turn.{TookTurn};
ghost use Rattle.run.specs.Round.{RoundRan};

use theory::{RoundState, STOPS};

// A round's turn with the candidates that it is given: passed over, or polished, and then what was accepted stays.
pub fn take_turn(
    k: usize,
    given: u64,
    locations: usize,
    legs: &[u32],
    latest: &[u32],
    service: &[u32],
    depot: u32,
    end: u32,
    pairs: &[u32],
    members: &[u64],
    pin: u8,
    route: &mut [u32],
) -> RoundState
    requires { Polishable k (trip locations legs.now latest.now service.now depot end pairs.now) members.now route.old }
    ensures { TookTurn (problem (trip locations legs.now latest.now service.now depot end pairs.now)) k given pin route.old result route.new }
{
    if pin != 0 {
        return RoundState::Pinned;
    }
    if route.len() < 4 {
        return RoundState::Short;
    }
    let polished = polishing::polish_route(
        k, given, locations, legs, latest, service, depot, end, pairs, members, route,
    );
    run_numbers::state_after(polished)
}

fn put_back_if(spent: bool, old: &[u32], route: &mut [u32])
    requires { length old.now ≡ length route.old }
    ensures { route.new ≡ cond spent old.now route.old }
{
    if spent {
        route.copy_from_slice(old);
    }
}

// "Allowance reached, stop" comes before the other tests. The stops are kept beside the route during its turn, for a spent round is put back.
pub fn run_round(
    k: usize,
    left: u64,
    locations: usize,
    legs: &[u32],
    latest: &[u32],
    service: &[u32],
    depot: u32,
    end: u32,
    pairs: &[u32],
    members: &[u64],
    pin: u8,
    route: &mut [u32],
) -> RoundState
    requires { Polishable k (trip locations legs.now latest.now service.now depot end pairs.now) members.now route.old }
    ensures { RoundRan (problem (trip locations legs.now latest.now service.now depot end pairs.now)) k left pin route.old result route.new }
{
    if left == 0 {
        return RoundState::NotReached;
    }
    let n = route.len();
    let mut old = [0u32; STOPS];
    old[..n].copy_from_slice(&route[..]);
    let state = take_turn(
        k, left, locations, legs, latest, service, depot, end, pairs, members, pin, route,
    );
    put_back_if(run_numbers::is_spent(state), &old[..n], route);
    state
}
