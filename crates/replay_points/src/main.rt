// Runs apply, undo and doable over cut points, which only a Rattle program can call: a line each, what came back.
#![tactic(auto)]

ghost use Rattle.std.specs.Prelude.{[], ◌∷◌};
ghost use Rattle.theory.specs.Numbers.{judged};
ghost use Rattle.move_points.specs.CutPoints.{rounds_of, positions_of};
ghost use Rattle.move_calls.specs.Entries.{DoMoveReply, DoableReply};

use move_points::CutPoint;
use replay_lines::Spaced;
use std::io;
use theory::{Refusal, number_of};

// Whether a move of four stops at two cuts can be done.
fn doable_at(first: CutPoint, second: CutPoint) -> Result<bool, Refusal>
    ensures { DoableReply 2 0 0 4 (rounds_of (first ∷ second ∷ [])) (positions_of (first ∷ second ∷ [])) result }
{
    move_calls::k_opt_is_doable(2, 0, 0, 4, &[first, second])
}

// The move applied.
fn apply_at(
    first: CutPoint,
    second: CutPoint,
    route: &mut [u32],
    journal: &mut [u32],
) -> Result<(), Refusal>
    ensures { DoMoveReply 2 0 0 (rounds_of (first ∷ second ∷ [])) (positions_of (first ∷ second ∷ [])) route.old journal.old (judged result) route.new journal.new }
{
    move_calls::k_opt_do_move(2, 0, 0, &[first, second], route, journal)
}

fn show_doable(rt: &impl Print, answer: Result<bool, Refusal>) -> io::Result<()> {
    match answer {
        Err(_) => println!(rt; "doable refused"),
        Ok(false) => println!(rt; "doable no"),
        Ok(true) => println!(rt; "doable yes"),
    }
}

// What a call that moves stops left.
fn show_stops(
    rt: &impl Print,
    word: &str,
    called: Result<(), Refusal>,
    route: &[u32],
    journal: &[u32],
) -> io::Result<()> {
    let refused = number_of(called);
    println!(rt;
        "{word} {refused} route{} journal{}",
        Spaced(route),
        Spaced(journal)
    )
}

// A move of four stops at two cuts of round 0 or another: whether it can be done, applied, and undone.
fn show_move(rt: &impl Print, first: CutPoint, second: CutPoint) -> io::Result<()> {
    let mut route = [11, 12, 13, 14];
    let mut journal = [99; 4];
    show_doable(rt, doable_at(first, second))?;
    let applied = apply_at(first, second, &mut route, &mut journal);
    show_stops(rt, "applied", applied, &route, &journal)?;
    let undone = move_calls::k_opt_undo_move(&mut route, &journal);
    show_stops(rt, "undone", undone, &route, &journal)
}

fn cut(round: usize, position: usize) -> CutPoint {
    CutPoint { round, position }
}

fn main(rt: HostRuntime) -> io::Result<()> {
    show_move(&rt, cut(0, 1), cut(0, 3))?;
    show_move(&rt, cut(0, 1), cut(7, 3))?;
    show_move(&rt, cut(7, 3), cut(0, 1))?;
    show_move(&rt, cut(0, 3), cut(0, 1))?;
    show_move(&rt, cut(0, 1), cut(0, 5))
}
