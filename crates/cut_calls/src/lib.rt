// The pattern of an index, the next cut set, reconnecting and the first move, judged, with their values in a lent result or without. No entry: crate mittenschist hands them on.
#![tactic(auto, using(crate::proofs::ReconnectionReply::reconnection, crate::proofs::NextCutSet::step, crate::proofs::ReconnectReply::reconnect, crate::proofs::FindMoveReply::find))]

ghost use Rattle.std.specs.Prelude.{◌+◌};
ghost use Rattle.theory.specs.Numbers.{judged};
ghost use Rattle.moves.specs.Moves.{pattern_values};
ghost use Rattle.refusal_rules.specs.Rules.{pattern_rules};
ghost use Rattle.entry_results.specs.Written.{Written};
ghost use Rattle.cut_calls.specs.Cuts.{ReconnectionReply, NextCutSetReply, NextCutSetWritten, ReconnectReply, FindMoveReply, FindMoveWritten};

use first_move::FoundMove;
use theory::{KOptReconnection, Refusal};

// The pattern with an index. Refuses 1, 6.
pub fn reconnection_at(k: usize, pattern: usize) -> Result<KOptReconnection, Refusal>
    ensures { ReconnectionReply k pattern result }
{
    refusal_rules::pattern_refusal(k, pattern)?;
    Ok(patterns::pattern_at(k, pattern))
}

// Moves k cuts of a route of n stops on to the next set, or answers that there is none. Refuses 1, 5, 7.
pub fn next_cut_set(k: usize, n: usize, cuts: &mut [usize]) -> Result<bool, Refusal>
    ensures { NextCutSetReply k n cuts.old result cuts.new }
{
    refusal_rules::next_cut_set_refusal(k, n, &cuts[..])?;
    let moved = cut_step::next_cut_set(cuts, n);
    Ok(moved)
}

// The route after the pattern is applied at the cuts, into the first places of out. Refuses 1, 5, 6, 7, 21.
pub fn reconnect(
    k: usize,
    pattern: usize,
    cuts: &[usize],
    route: &[u32],
    out: &mut [u32],
) -> Result<(), Refusal>
    ensures { ReconnectReply k pattern cuts.now route.now out.old (judged result) out.new }
{
    refusal_rules::reconnect_refusal(k, pattern, cuts, route.len(), out.len())?;
    moves::reconnect_pattern(k, pattern, cuts, route, out);
    Ok(())
}

// k + 1 segment numbers, then the mask. Refuses 1, 6, 21.
pub fn write_reconnection(k: usize, pattern: usize, res: &mut [u64]) -> Result<(), Refusal>
    ensures { Written (pattern_rules k pattern) (k + 2) (pattern_values k pattern) res.old (judged result) res.new }
{
    refusal_rules::pattern_refusal_with_room(k, pattern, res.len())?;
    moves::put_pattern(k, pattern, res);
    Ok(())
}

// 1 and the next cuts, or 0 and the cuts kept. Refuses 1, 5, 7, 21.
pub fn write_next_cut_set(
    k: usize,
    n: usize,
    cuts: &mut [usize],
    res: &mut [u64],
) -> Result<(), Refusal>
    ensures { NextCutSetWritten k n cuts.old res.old (judged result) cuts.new res.new }
{
    refusal_rules::next_cut_set_refusal_with_room(k, n, &cuts[..], res.len())?;
    let moved = cut_step::next_cut_set(cuts, n);
    entry_results::put(&[entry_results::flag_number(moved)], res)
}

// The first cuts and pattern in scan order that turn one route into another, or none. Refuses 1, 5, 25.
pub fn find_move(k: usize, old: &[u32], wanted: &[u32]) -> Result<Option<FoundMove>, Refusal>
    ensures { FindMoveReply k old.now wanted.now result }
{
    refusal_rules::find_move_refusal(k, old.len(), wanted.len())?;
    Ok(find_move::find_move(k, old, wanted))
}

// The same; the result receives 1, the index and the k cuts, or 0 in its first place. Refuses 1, 5, 25, 21.
pub fn write_find_move(
    k: usize,
    old: &[u32],
    wanted: &[u32],
    res: &mut [u64],
) -> Result<(), Refusal>
    ensures { FindMoveWritten k old.now wanted.now res.old (judged result) res.new }
{
    refusal_rules::find_move_refusal_with_room(k, old.len(), wanted.len(), res.len())?;
    let answer = find_move::find_move(k, old, wanted);
    moves::put_move(k, answer, res);
    Ok(())
}
