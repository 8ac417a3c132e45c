// What a round of a run came to: its state, what it took from the allowance, and its four numbers. No entry: the crates above call it.
#![tactic(auto)]

ghost use Rattle.std.specs.Prelude.{◌≡◌, ◌∷◌, ◌++◌, ◌≤◌, length, drop};
ghost use Rattle.theory.specs.Answers.{round_values};
ghost use Rattle.run_numbers.specs.States.{state_told, examined_of, is_spent, kept_values};

use theory::{Counts, Polished, RoundState, Tally};

fn tally(counts: Counts) -> Tally
    ensures { result ≡ record { examined = counts.examined; accepted = counts.accepted } }
{
    Tally {
        examined: counts.examined,
        accepted: counts.accepted,
    }
}

// After its polishing.
pub fn state_after(polished: Polished) -> RoundState
    ensures { result ≡ state_told polished }
{
    match polished {
        Polished::Spent(counts) => RoundState::Spent(tally(counts)),
        Polished::Finished(counts) => {
            if counts.accepted == 0 {
                RoundState::Unchanged(counts.examined)
            } else {
                RoundState::Changed(tally(counts))
            }
        }
    }
}

// What a round took from the allowance.
pub fn examined(state: RoundState) -> u64
    ensures { result ≡ examined_of state }
{
    match state {
        RoundState::NotReached | RoundState::Pinned | RoundState::Short => 0,
        RoundState::Unchanged(examined) => examined,
        RoundState::Changed(tally) => tally.examined,
        RoundState::Spent(tally) => tally.examined,
    }
}

pub fn is_spent(state: RoundState) -> bool
    ensures { result ≡ is_spent state }
{
    matches!(state, RoundState::Spent(_))
}

fn four_numbers(state: RoundState) -> [u64; 4]
    ensures { result ≡ round_values state }
{
    match state {
        RoundState::NotReached => [0, 0, 0, 0],
        RoundState::Pinned => [1, 0, 0, 0],
        RoundState::Short => [2, 0, 0, 0],
        RoundState::Unchanged(examined) => [3, examined, 0, 0],
        RoundState::Changed(tally) => [4, tally.examined, tally.accepted, tally.accepted],
        RoundState::Spent(tally) => [5, tally.examined, tally.accepted, 0],
    }
}

// The four numbers of a round.
pub fn put_state(state: RoundState, res: &mut [u64])
    requires { 4 ≤ length res.old }
    ensures { res.new ≡ round_values state ++ drop 4 res.old }
{
    res[..4].copy_from_slice(&four_numbers(state));
}

// The four numbers of a round that keeps its changes where it is spent: applied is accepted in every state.
pub fn put_kept_state(state: RoundState, res: &mut [u64])
    requires { 4 ≤ length res.old }
    ensures { res.new ≡ kept_values state ++ drop 4 res.old }
{
    put_state(state, res);
    res[3] = res[2];
}
