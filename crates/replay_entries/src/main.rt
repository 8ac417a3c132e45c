// Runs what, beside the entries over cut points, only a Rattle program can call, a line each: the listing of nearby cuts with its answer as an enum, the
// first move as an option, and which of two lists, with the list itself; beside it the number that C is told.
#![tactic(auto)]

use replay_lines::{Spaced, TEXT_CASE_LEGS};
use std::io;
use theory::Listing;

// Five positions and three cuts: all distances are 2.0 but that from 1 to 3. What is listed, and the buffer.
fn show_nearby(rt: &impl Print, d: f64, sets: &mut [usize]) -> io::Result<()> {
    let mut distances = [2.0; 25];
    distances[8] = d;
    match mittenschist::nearby_cuts(5, &distances, 3, 1, 4, sets) {
        Err(refusal) => println!(rt; "nearby refused {refusal} sets{}", Spaced(sets)),
        Ok(Listing::Ended(count)) => println!(rt; "nearby ended {count} sets{}", Spaced(sets)),
        Ok(Listing::More(count)) => println!(rt; "nearby more {count} sets{}", Spaced(sets)),
    }
}

// The first move: the refusal number, 1 where there is one, the index and the cuts.
fn show_move(rt: &impl Print, k: usize, old: &[u32], wanted: &[u32]) -> io::Result<()> {
    match mittenschist::find_move(k, old, wanted) {
        Ok(Some(found)) => println!(rt; "move 0 1 {}{}", found.index, Spaced(&found.cuts)),
        Ok(None) => println!(rt; "move 0 0 0 0 0 0 0 0"),
        Err(refusal) => println!(rt; "move {refusal} 0 0 0 0 0 0 0"),
    }
}

// Which of two lists from location 0: the number, and the list that is handed back.
fn show_which(
    rt: &impl Print,
    latest_of_1: u32,
    end: u32,
    pairs: &[u32],
    first: &[u32],
    second: &[u32],
) -> io::Result<()> {
    let legs = TEXT_CASE_LEGS;
    let latest = [u32::MAX, latest_of_1, u32::MAX];
    let service = [0; 3];
    let desk = mittenschist::mittenschist_which_of_two(
        3, &legs, &latest, &service, 0, end, pairs, first, second,
    );
    let list = mittenschist::which_of_two(
        3, &legs, &latest, &service, 0, end, pairs, first, second,
    );
    println!(rt; "which {desk} list{}", Spaced(list))
}

// The shorter, equal lists, a deadline, a pair, fewer stops that are longer to another end; neither, and a stop that is no location.
fn show_desks(rt: &impl Print) -> io::Result<()> {
    show_which(rt, 99, 0, &[], &[1, 2], &[2, 1])?;
    show_which(rt, 99, 0, &[], &[2, 1, 2], &[2, 1, 2])?;
    show_which(rt, 4, 0, &[], &[1], &[2, 1])?;
    show_which(rt, 99, 0, &[1, 2], &[1, 2], &[2, 1])?;
    show_which(rt, 99, 2, &[], &[1], &[2, 1, 0, 2])?;
    show_which(rt, 1, 0, &[], &[1, 2], &[2, 1])?;
    show_which(rt, 99, 0, &[], &[1, 2], &[3])
}

fn main(rt: HostRuntime) -> io::Result<()> {
    show_move(&rt, 3, &[1, 2], &[2, 1])?;
    show_move(&rt, 3, &[1], &[1])?;
    show_move(&rt, 3, &[1, 2, 3], &[1, 2])?;
    show_nearby(&rt, 1.0, &mut [99; 7])?;
    show_nearby(&rt, 2.0, &mut [99; 7])?;
    show_nearby(&rt, 2.0, &mut [99; 2])?;
    show_nearby(&rt, f64::NAN, &mut [99; 3])?;
    show_desks(&rt)
}
