// Replays the stored answers of the unchanged Rust on polishing, the pair loop, the run and nearby cuts: the file stdout beside src/ is written from them by
// tools/store-answers, and this program prints what the library answers for the same questions, which both draw by the rule of crate replay_drawing.
// Of polishing's late position the Rust knows only yes or no: it is stored by the definition.
#![tactic(auto)]

use replay_drawing::{allowance_of, cuts_of, fill};
use replay_lines::Spaced;
use std::io;

// The tables of a question: ten locations; legs to 99 seconds, deadlines to 799, service times.
#[derive(Drop)]
struct Tables {
    legs: [u32; 100],
    latest: [u32; 10],
    service: [u32; 10],
}

// The most seconds at a stop: none for every other four seeds.
fn service_of(seed: u16) -> u16 {
    seed / 4 % 2 * 40
}

fn tables_of(seed: u16) -> Tables {
    let mut tables = Tables {
        legs: [0; 100],
        latest: [0; 10],
        service: [0; 10],
    };
    fill(seed, 99, &mut tables.legs);
    fill(seed, 799, &mut tables.latest);
    fill(seed, service_of(seed), &mut tables.service);
    tables
}

fn stops_of<const N: usize>(seed: u16) -> [u32; N] {
    let mut stops = [0; N];
    fill(seed, 9, &mut stops);
    stops
}

// What polishing is asked beside what is drawn: the cuts, the number of locations, the first leg, the first service time and the depot.
#[derive(Clone, Copy)]
struct Asked {
    k: usize,
    locations: usize,
    leg: u32,
    stay: u32,
    depot: u32,
}

// What is asked where nothing is to be refused.
fn usual(seed: u16) -> Asked {
    Asked {
        k: cuts_of(seed),
        locations: 10,
        leg: 0,
        stay: u32::from(service_of(seed)),
        depot: 0,
    }
}

fn show_polish(
    rt: &impl Print,
    seed: u16,
    asked: Asked,
    route: &mut [u32],
    res: &mut [u64],
) -> io::Result<()> {
    let mut tables = tables_of(seed);
    tables.legs[0] = asked.leg;
    tables.service[0] = asked.stay;
    fill(seed, 9, route);
    let refused = mittenschist::mittenschist_polish_route(
        asked.k,
        allowance_of(seed),
        asked.locations,
        &tables.legs,
        &tables.latest,
        &tables.service,
        asked.depot,
        route,
        res,
    );
    println!(rt; "polish {refused}{} route{}", Spaced(res), Spaced(route))
}

// Seven stops from location 0 to an end harbour.
fn show_ended(rt: &impl Print, seed: u16, end: u32) -> io::Result<()> {
    let tables = tables_of(seed);
    let mut route = stops_of::<7>(seed);
    let mut result = [9; 7];
    let refused = mittenschist::mittenschist_polish_route_to_end(
        cuts_of(seed),
        allowance_of(seed),
        10,
        &tables.legs,
        &tables.latest,
        &tables.service,
        0,
        end,
        &mut route,
        &mut result,
    );
    println!(rt;
        "ended {refused}{} route{}",
        Spaced(&result),
        Spaced(&route)
    )
}

// One round of eight stops.
fn show_pairs(rt: &impl Print, seed: u16, res: &mut [u64]) -> io::Result<()> {
    let tables = tables_of(seed);
    let mut route = stops_of::<8>(seed);
    let refused = mittenschist::mittenschist_pair_loop(
        allowance_of(seed),
        10,
        &tables.legs,
        &tables.latest,
        &tables.service,
        0,
        &mut route,
        res,
    );
    println!(rt; "pairs {refused}{} route{}", Spaced(res), Spaced(&route))
}

// Three rounds; the middle one is short, and pinned for every other four seeds. The last one is longer than its stops where the run is refused.
fn show_run(rt: &impl Print, seed: u16, last: usize) -> io::Result<()> {
    let tables = tables_of(seed);
    let mut stops = stops_of::<16>(seed);
    let mut result = [9; 13];
    let pin = (seed / 4 % 2) as u8;
    let refused = mittenschist::mittenschist_run_list_k_opt(
        cuts_of(seed),
        allowance_of(seed),
        10,
        &tables.legs,
        &tables.latest,
        &tables.service,
        &mut stops,
        &[6, 3, last],
        &[0, 1, 2],
        &[0, pin, 0],
        &mut result,
    );
    println!(rt; "run {refused}{} stops{}", Spaced(&result), Spaced(&stops))
}

// Two rounds, each to its own end; one end too few where the run is refused.
fn show_run_to_ends(rt: &impl Print, seed: u16, ends: &[u32]) -> io::Result<()> {
    let tables = tables_of(seed);
    let mut stops = stops_of::<11>(seed);
    let mut result = [9; 9];
    let refused = mittenschist::mittenschist_run_list_k_opt_to_ends(
        cuts_of(seed),
        allowance_of(seed),
        10,
        &tables.legs,
        &tables.latest,
        &tables.service,
        &mut stops,
        &[6, 5],
        &[0, 1],
        ends,
        &[0, 0],
        &mut result,
    );
    println!(rt; "ran {refused}{} stops{}", Spaced(&result), Spaced(&stops))
}

// Seven stops to an end harbour, with pairs.
fn show_kept(rt: &impl Print, seed: u16, end: u32, pairs: &[u32]) -> io::Result<()> {
    let tables = tables_of(seed);
    let mut route = stops_of::<7>(seed);
    let mut result = [9; 7];
    let refused = mittenschist::mittenschist_polish_route_with_pairs(
        cuts_of(seed),
        allowance_of(seed),
        10,
        &tables.legs,
        &tables.latest,
        &tables.service,
        0,
        end,
        pairs,
        &mut route,
        &mut result,
    );
    println!(rt; "kept {refused}{} route{}", Spaced(&result), Spaced(&route))
}

// Two rounds to their ends, with pairs for both.
fn show_run_kept(rt: &impl Print, seed: u16, ends: &[u32], pairs: &[u32]) -> io::Result<()> {
    let tables = tables_of(seed);
    let mut stops = stops_of::<11>(seed);
    let mut result = [9; 9];
    let refused = mittenschist::mittenschist_run_list_k_opt_with_pairs(
        cuts_of(seed),
        allowance_of(seed),
        10,
        &tables.legs,
        &tables.latest,
        &tables.service,
        &mut stops,
        &[6, 5],
        &[0, 1],
        ends,
        &[0, 0],
        pairs,
        &mut result,
    );
    println!(rt;
        "run kept {refused}{} stops{}",
        Spaced(&result),
        Spaced(&stops)
    )
}

// Two pairs, drawn from elsewhere than the stops.
fn show_keeping(rt: &impl Print, seed: u16) -> io::Result<()> {
    let pairs = stops_of::<4>(65535 - seed);
    let end = u32::from(seed % 10);
    show_kept(rt, seed, end, &pairs)?;
    show_run_kept(rt, seed, &[end, 9 - end], &pairs)
}

fn show_to_ends(rt: &impl Print, seed: u16) -> io::Result<()> {
    let end = u32::from(seed % 10);
    show_ended(rt, seed, end)?;
    show_run_to_ends(rt, seed, &[end, 9 - end])
}

// Twelve positions; distances to 7, so that many are equal. From seed 29 on there are too many neighbours.
fn show_nearby(rt: &impl Print, seed: u16) -> io::Result<()> {
    let mut distances = [0.0; 144];
    let mut sets = [99; 40];
    let mut result = [9; 3];
    fill(seed, 7, &mut distances);
    let refused = mittenschist::mittenschist_nearby_cuts(
        12,
        &distances,
        cuts_of(seed),
        usize::from(1 + seed / 4 % 2),
        usize::from(seed) + 4,
        &mut sets,
        &mut result,
    );
    println!(rt; "nearby {refused}{} sets{}", Spaced(&result), Spaced(&sets))
}

fn show_five(rt: &impl Print, seed: u16, asked: Asked) -> io::Result<()> {
    show_polish(rt, seed, asked, &mut [0; 5], &mut [9; 7])
}

fn show(rt: &impl Print, seed: u16) -> io::Result<()> {
    show_polish(rt, seed, usual(seed), &mut [0; 9], &mut [9; 7])?;
    show_five(rt, seed, usual(seed))?;
    show_pairs(rt, seed, &mut [9; 7])?;
    show_run(rt, seed, 7)?;
    show_to_ends(rt, seed)?;
    show_keeping(rt, seed)?;
    show_nearby(rt, seed)
}

// A question of polishing for each refusal number that a small one can have.
fn show_refused_polish(rt: &impl Print) -> io::Result<()> {
    let asked = usual(1);
    show_five(rt, 1, Asked { k: 6, ..asked })?;
    show_five(
        rt,
        1,
        Asked {
            locations: 9,
            ..asked
        },
    )?;
    show_five(
        rt,
        1,
        Asked {
            leg: 1000001,
            ..asked
        },
    )?;
    // Before 4, which it would be too.
    show_five(
        rt,
        1,
        Asked {
            stay: 1000001,
            depot: 10,
            ..asked
        },
    )?;
    show_five(rt, 1, Asked { depot: 10, ..asked })?;
    show_polish(rt, 1, asked, &mut [0; 5], &mut [9; 5])
}

// And of the other calls.
fn show_refused(rt: &impl Print) -> io::Result<()> {
    show_refused_polish(rt)?;
    show_pairs(rt, 1, &mut [9; 5])?;
    show_run(rt, 1, 8)?;
    show_ended(rt, 1, 10)?;
    show_run_to_ends(rt, 1, &[0])?;
    // Behind 24, before 5.
    show_kept(rt, 1, 10, &[3, 3])?;
    show_kept(rt, 1, 9, &[3, 3])?;
    show_run_kept(rt, 1, &[0], &[3, 4, 5])?;
    show_nearby(rt, 29)
}

fn main(rt: HostRuntime) -> io::Result<()> {
    for seed in 0..16 {
        show(&rt, seed)?;
    }
    show_refused(&rt)
}
