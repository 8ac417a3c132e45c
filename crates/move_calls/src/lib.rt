// Apply, undo and doable, judged; the cuts are two lists of numbers or a list of cut points.
#![tactic(auto, using(crate::proofs::DoMoveReply::applying, crate::proofs::UndoReply::undoing, crate::proofs::DoableReply::deciding, crate::proofs::FirstSix::doable_from_numbers))]

ghost use Rattle.std.specs.Prelude.{◌≡◌};
ghost use Rattle.theory.specs.Numbers.{judged};
ghost use Rattle.theory.specs.Refusals.{refusal};
ghost use Rattle.move_points.specs.CutPoints.{rounds_of, positions_of};
ghost use Rattle.entry_results.specs.Written.{Written};
ghost use Rattle.move_calls.specs.Entries.{do_move_rules, DoMoveReply, undo_rules, UndoReply, doable_rules, DoableReply, doable_values};

use move_points::CutPoint;
use theory::Refusal;

#[tactic(auto, using(theory::proofs::Checks::judging), unfolding(theory::specs::Refusals::refusal))]
fn do_move_refusal(
    k: usize,
    pattern: usize,
    round: usize,
    n: usize,
    rounds: &[usize],
    positions: &[usize],
    lent: usize,
) -> Result<(), Refusal>
    ensures { judged result ≡ refusal (do_move_rules k pattern round n rounds.now positions.now lent) }
{
    refusals::check_cut_count(k)?;
    refusals::check_stop_count(n)?;
    refusals::check_pattern_index(k, pattern)?;
    refusals::check_cut_lists(rounds, positions)?;
    refusals::check_cut_positions(k, n, positions)?;
    refusals::check_own_round(round, rounds)?;
    refusals::check_room(n, lent)
}

// Apply, with the cuts as two lists. Refuses 1, 5, 6, 7, 8, 21.
pub fn do_move_lists(
    k: usize,
    pattern: usize,
    round: usize,
    rounds: &[usize],
    positions: &[usize],
    route: &mut [u32],
    journal: &mut [u32],
) -> Result<(), Refusal>
    ensures { DoMoveReply k pattern round rounds.now positions.now route.old journal.old (judged result) route.new journal.new }
{
    let n = route.len();
    do_move_refusal(k, pattern, round, n, rounds, positions, journal.len())?;
    move_applying::k_opt_do_move(k, pattern, positions, route, journal);
    Ok(())
}

// Apply, with the cuts as a list of cut points. Refuses 1, 5, 6, 7, 8, 21.
pub fn k_opt_do_move(
    k: usize,
    pattern: usize,
    round: usize,
    cuts: &[CutPoint],
    route: &mut [u32],
    journal: &mut [u32],
) -> Result<(), Refusal>
    ensures { DoMoveReply k pattern round (rounds_of cuts.now) (positions_of cuts.now) route.old journal.old (judged result) route.new journal.new }
{
    let numbers = move_points::cut_numbers(cuts);
    do_move_lists(
        k,
        pattern,
        round,
        numbers.held_rounds(),
        numbers.held_positions(),
        route,
        journal,
    )
}

#[tactic(auto, using(theory::proofs::Checks::judging), unfolding(theory::specs::Refusals::refusal))]
fn undo_refusal(n: usize, journal: usize) -> Result<(), Refusal>
    ensures { judged result ≡ refusal (undo_rules n journal) }
{
    refusals::check_stop_count(n)?;
    refusals::check_journal_length(n, journal)
}

// Undo: the stops of the journal back into the route. Refuses 5, 22.
pub fn k_opt_undo_move(route: &mut [u32], journal: &[u32]) -> Result<(), Refusal>
    ensures { UndoReply route.old journal.now (judged result) route.new }
{
    undo_refusal(route.len(), journal.len())?;
    move_applying::k_opt_undo_move(route, journal);
    Ok(())
}

#[tactic(auto, using(theory::proofs::Checks::judging), unfolding(theory::specs::Refusals::refusal))]
fn is_doable_refusal(k: usize, pattern: usize, n: usize) -> Result<(), Refusal>
    ensures { judged result ≡ refusal (doable_rules k pattern n) }
{
    refusals::check_cut_count(k)?;
    refusals::check_stop_count(n)?;
    refusals::check_pattern_index(k, pattern)
}

// Whether a move can be done, with the cuts as two lists. Refuses 1, 5, 6.
pub fn is_doable_lists(
    k: usize,
    pattern: usize,
    round: usize,
    n: usize,
    rounds: &[usize],
    positions: &[usize],
) -> Result<bool, Refusal>
    ensures { DoableReply k pattern round n rounds.now positions.now result }
{
    is_doable_refusal(k, pattern, n)?;
    Ok(move_applying::k_opt_is_doable(k, round, n, rounds, positions))
}

// The same; the result receives 1 yes or 0 no. Refuses 1, 5, 6, 21.
pub fn write_is_doable(
    k: usize,
    pattern: usize,
    round: usize,
    n: usize,
    rounds: &[usize],
    positions: &[usize],
    res: &mut [u64],
) -> Result<(), Refusal>
    ensures { Written (doable_rules k pattern n) 1 (doable_values k round n rounds.now positions.now) res.old (judged result) res.new }
{
    let can = is_doable_lists(k, pattern, round, n, rounds, positions)?;
    entry_results::put(&[entry_results::flag_number(can)], res)
}

// Whether a move can be done, with the cuts as a list of cut points. Refuses 1, 5, 6.
pub fn k_opt_is_doable(
    k: usize,
    pattern: usize,
    round: usize,
    n: usize,
    cuts: &[CutPoint],
) -> Result<bool, Refusal>
    ensures { DoableReply k pattern round n (rounds_of cuts.now) (positions_of cuts.now) result }
{
    let numbers = move_points::cut_numbers(cuts);
    is_doable_lists(
        k,
        pattern,
        round,
        n,
        numbers.held_rounds(),
        numbers.held_positions(),
    )
}
