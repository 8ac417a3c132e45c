// Replays the stored answers of the unchanged Rust on apply, undo and doable, as program replay_answers does on the other calls.
#![tactic(auto)]

use replay_lines::Spaced;
use std::io;

// A move of round 1: the cuts by their number, rounds and positions, and the pattern.
#[derive(Clone, Copy)]
struct Move<'a> {
    k: usize,
    pattern: usize,
    rounds: &'a [usize],
    cuts: &'a [usize],
}

fn show_applied(
    rt: &impl Print,
    asked: Move,
    route: &mut [u32],
    journal: &mut [u32],
) -> io::Result<()> {
    let refused = mittenschist::mittenschist_k_opt_do_move(
        asked.k,
        asked.pattern,
        1,
        asked.rounds,
        asked.cuts,
        route,
        journal,
    );
    println!(rt;
        "move {refused} route{} journal{}",
        Spaced(route),
        Spaced(journal)
    )
}

fn show_undone(rt: &impl Print, route: &mut [u32], journal: &[u32]) -> io::Result<()> {
    let refused = mittenschist::mittenschist_k_opt_undo_move(route, journal);
    println!(rt; "undo {refused} route{}", Spaced(route))
}

fn show_doable(rt: &impl Print, asked: Move, n: usize) -> io::Result<()> {
    let mut result = [9; 2];
    let refused = mittenschist::mittenschist_k_opt_is_doable(
        asked.k,
        asked.pattern,
        1,
        n,
        asked.rounds,
        asked.cuts,
        &mut result,
    );
    println!(rt; "doable {refused}{}", Spaced(&result))
}

// A move of eight stops: applied, undone with the first places of its journal, and whether it can be done.
fn show_move(rt: &impl Print, asked: Move) -> io::Result<()> {
    let mut route = [11, 12, 13, 14, 15, 16, 17, 18];
    let mut journal = [99; 9];
    show_applied(rt, asked, &mut route, &mut journal)?;
    show_undone(rt, &mut route, &journal[..8])?;
    show_doable(rt, asked, 8)
}

fn move_of<'a>(pattern: usize, rounds: &'a [usize], cuts: &'a [usize]) -> Move<'a> {
    Move {
        k: cuts.len(),
        pattern,
        rounds,
        cuts,
    }
}

fn show_moves(rt: &impl Print) -> io::Result<()> {
    for i in 0..16 {
        show_move(rt, move_of(i % 7, &[1; 3], &[1, 3, 6]))?;
        show_move(rt, move_of(i * 6 % 47, &[1; 4], &[0, 2, 5, 7]))?;
        show_move(rt, move_of(i * 54 % 383, &[1; 5], &[0, 1, 3, 6, 8]))?;
    }
    Ok(())
}

// k, the pattern, the order of the cuts, their rounds, both, and lists of unequal lengths.
fn show_refused_moves(rt: &impl Print) -> io::Result<()> {
    let asked = move_of(0, &[1; 3], &[1, 3, 6]);
    show_move(rt, Move { k: 6, ..asked })?;
    show_move(
        rt,
        Move {
            pattern: 7,
            ..asked
        },
    )?;
    show_move(
        rt,
        Move {
            cuts: &[3, 1, 6],
            ..asked
        },
    )?;
    show_move(
        rt,
        Move {
            rounds: &[1, 2, 1],
            ..asked
        },
    )?;
    show_move(
        rt,
        Move {
            rounds: &[1, 2, 1],
            cuts: &[3, 1, 6],
            ..asked
        },
    )?;
    show_move(
        rt,
        Move {
            rounds: &[1; 2],
            ..asked
        },
    )
}

// A journal too short to apply, journals of another length to undo, and too many stops.
fn show_refused_places(rt: &impl Print) -> io::Result<()> {
    let short = move_of(0, &[1; 3], &[0, 1, 3]);
    show_applied(rt, short, &mut [11, 12, 13], &mut [99; 2])?;
    show_undone(rt, &mut [11, 12, 13], &[1, 2])?;
    show_undone(rt, &mut [11, 12, 13], &[1, 2, 3, 4])?;
    show_doable(rt, move_of(0, &[1; 3], &[1, 3, 6]), 513)
}

fn main(rt: HostRuntime) -> io::Result<()> {
    show_moves(&rt)?;
    show_refused_moves(&rt)?;
    show_refused_places(&rt)
}
