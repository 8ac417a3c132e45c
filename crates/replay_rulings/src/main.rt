// Replays document 01's runs on nearby cuts, one on which the listing of every nearby cut set differs, worked examples of the rulings on what is left open
// of moves, and those of the first move, over the library's own entries, a line each: what was asked, and what came back.
#![tactic(auto)]

use replay_lines::Spaced;
use std::io;

// The distances between five positions that are all alike.
const ALIKE: [f64; 25] = [2.0; 25];

fn show_nearby(
    rt: &impl Print,
    distances: &[f64],
    neighbours: usize,
    sets: &mut [usize],
) -> io::Result<()> {
    let mut result = [9; 2];
    let refused = mittenschist::mittenschist_nearby_cuts(
        5,
        distances,
        3,
        1,
        neighbours,
        sets,
        &mut result,
    );
    println!(rt;
        "nearby {refused} result{} sets{}",
        Spaced(&result),
        Spaced(sets)
    )
}

fn show_every(
    rt: &impl Print,
    distances: &[f64],
    neighbours: usize,
    sets: &mut [usize],
) -> io::Result<()> {
    let mut result = [9; 2];
    let refused = mittenschist::mittenschist_every_nearby_cuts(
        5,
        distances,
        3,
        1,
        neighbours,
        sets,
        &mut result,
    );
    println!(rt;
        "every {refused} result{} sets{}",
        Spaced(&result),
        Spaced(sets)
    )
}

// The neighbours of 1 are 2 and 3, those of 2 lie too low, and 4 is one of 3's: the first listing drops 3 with 2.
fn show_missed(rt: &impl Print) -> io::Result<()> {
    let mut distances = ALIKE;
    for place in [7, 8, 10, 11, 19] {
        distances[place] = 1.0;
    }
    let mut sets = [99; 4];
    show_nearby(rt, &distances, 2, &mut sets)?;
    show_every(rt, &distances, 2, &mut sets)
}

// All distances alike: one set of four fits, and none.
fn show_more(rt: &impl Print) -> io::Result<()> {
    show_every(rt, &ALIKE, 4, &mut [99; 3])?;
    show_every(rt, &ALIKE, 4, &mut [99; 2])
}

// The nearby cases of document 01, five positions and three cuts, and others on the same tables: d is the distance from 1 to 3.
fn show_five(rt: &impl Print, d: f64, neighbours: usize, sets: &mut [usize]) -> io::Result<()> {
    let mut distances = ALIKE;
    distances[8] = d;
    show_nearby(rt, &distances, neighbours, sets)
}

fn show_listings(rt: &impl Print) -> io::Result<()> {
    show_five(rt, 1.0, 4, &mut [99; 12])?;
    show_five(rt, 2.0, 4, &mut [99; 12])?;
    show_five(rt, 2.0, 4, &mut [99; 13])?;
    show_five(rt, 2.0, 4, &mut [99; 3])?;
    show_five(rt, 2.0, 4, &mut [99; 2])?;
    show_five(rt, 2.0, 1, &mut [99; 3])?;
    show_five(rt, f64::NAN, 4, &mut [99; 3])?;
    show_missed(rt)?;
    show_more(rt)
}

fn show_doable(rt: &impl Print, rounds: &[usize], cuts: &[usize]) -> io::Result<()> {
    let mut result = [9; 1];
    let refused = mittenschist::mittenschist_k_opt_is_doable(2, 0, 0, 4, rounds, cuts, &mut result);
    print!(rt; "doable {refused}{}", Spaced(&result))
}

fn show_applied(
    rt: &impl Print,
    rounds: &[usize],
    cuts: &[usize],
    route: &mut [u32],
    journal: &mut [u32],
) -> io::Result<()> {
    let refused = mittenschist::mittenschist_k_opt_do_move(2, 0, 0, rounds, cuts, route, journal);
    print!(rt;
        " applied {refused}{} journal{}",
        Spaced(route),
        Spaced(journal)
    )
}

fn show_undone(rt: &impl Print, route: &mut [u32], journal: &[u32]) -> io::Result<()> {
    let refused = mittenschist::mittenschist_k_opt_undo_move(route, journal);
    println!(rt; " undone {refused}{}", Spaced(route))
}

// A move at two cuts: whether it can be done, applied, and undone with the first places of its journal.
fn show_move(rt: &impl Print, round: usize, first: usize, second: usize) -> io::Result<()> {
    let mut route = [11, 12, 13, 14];
    let mut journal = [0; 6];
    let rounds = [0, round];
    let cuts = [first, second];
    show_doable(rt, &rounds, &cuts)?;
    show_applied(rt, &rounds, &cuts, &mut route, &mut journal)?;
    show_undone(rt, &mut route, &journal[..4])
}

fn show_moves(rt: &impl Print) -> io::Result<()> {
    for (round, first, second) in [(0, 1, 3), (7, 1, 3), (7, 3, 1), (0, 1, 5)] {
        show_move(rt, round, first, second)?;
    }
    Ok(())
}

// A search for the first move: its number, and the result.
fn show_search(rt: &impl Print, k: usize, old: &[u32], wanted: &[u32]) -> io::Result<()> {
    let mut result = [9; 7];
    let refused = mittenschist::mittenschist_find_move(k, old, wanted, &mut result);
    println!(rt; "move {refused}{}", Spaced(&result))
}

// Between rounds of other stops, and of equal ones.
fn show_searches(rt: &impl Print) -> io::Result<()> {
    show_search(rt, 2, &[], &[])?;
    show_search(rt, 2, &[1], &[1])?;
    show_search(rt, 3, &[1, 2], &[1, 2])?;
    show_search(rt, 3, &[1, 2], &[2, 1])?;
    show_search(rt, 3, &[1], &[1])?;
    show_search(rt, 3, &[1; 49], &[1; 49])?;
    show_search(rt, 3, &[1; 513], &[1; 513])?;
    show_search(rt, 3, &[1; 3], &[1; 4])?;
    show_search(rt, 5, &[1; 48], &[1; 48])
}

fn main(rt: HostRuntime) -> io::Result<()> {
    show_moves(&rt)?;
    show_listings(&rt)?;
    show_searches(&rt)
}
