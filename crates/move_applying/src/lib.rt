// Apply, undo, and whether a move can be done, with the cuts as two lists of numbers. No entry: the crates above call it.
#![tactic(auto)]

ghost use Rattle.std.specs.Prelude.{◌≡◌};
ghost use Rattle.move_applying.specs.Applying.{Appliable, Applied, Undoable, Undone, doable};

// The old stops into the first places of the journal, and the pattern applied to the route at the positions.
pub fn k_opt_do_move(
    k: usize,
    pattern: usize,
    positions: &[usize],
    route: &mut [u32],
    journal: &mut [u32],
)
    requires { Appliable k pattern positions.now route.old journal.old }
    ensures { Applied k pattern positions.now route.old journal.old route.new journal.new }
{
    let n = route.len();
    reconnection::copy_in(&route[..], journal, 0);
    moves::reconnect_pattern(k, pattern, positions, &journal[..n], route);
}

// The stops of the journal back into the route.
pub fn k_opt_undo_move(route: &mut [u32], journal: &[u32])
    requires { Undoable route.old journal.now }
    ensures { Undone journal.now route.new }
{
    let n = route.len();
    reconnection::copy_in(&journal[..n], route, 0);
}

// Whether a move can be done: unordered cuts pass where one names another round.
pub fn k_opt_is_doable(
    k: usize,
    round: usize,
    n: usize,
    rounds: &[usize],
    positions: &[usize],
) -> bool
    ensures { result ≡ doable k round n rounds.now positions.now }
{
    rounds.len() == k
        && positions.len() == k
        && !refusal_tests::any_beyond(positions, n)
        && (refusal_tests::any_other(rounds, round) || refusal_tests::strictly_rising(positions))
}
