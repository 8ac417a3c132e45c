// Replays document 01's runs on patterns, cut sets and polishing over the library's own entries, a line each: what was asked, and what came back.
#![tactic(auto)]

use replay_lines::{Spaced, TEXT_CASE_LEGS};
use std::io;

// A pattern: its refusal number, order and mask, which are 0 where it is refused.
fn show_pattern(rt: &impl Print, k: usize, index: usize) -> io::Result<()> {
    match mittenschist::reconnection_at(k, index) {
        Ok(pattern) => {
            let [a, b, c, d, e, f] = pattern.segment_order;
            println!(rt;
                "pattern 0 order {a}{b}{c}{d}{e}{f} mask {}",
                pattern.reverse_mask
            )
        }
        Err(refusal) => println!(rt; "pattern {refusal} order 000000 mask 0"),
    }
}

// Steps through the cut sets of four stops, at most 100 of them, and counts them.
fn count_cut_sets(k: usize, cuts: &mut [usize]) -> u64 {
    for count in 1..100 {
        if mittenschist::next_cut_set(k, 4, cuts) != Ok(true) {
            return count;
        }
    }
    100
}

fn show_cut_sets(rt: &impl Print, k: usize, cuts: &mut [usize]) -> io::Result<()> {
    println!(rt; "cut sets {}", count_cut_sets(k, cuts))
}

// The text case T: the cuts, the allowance, the leg from the depot to location 1, the deadlines of locations 1 and 2, and the service of location 2.
#[derive(Clone, Copy)]
struct Case {
    k: usize,
    allowance: u64,
    leg: u32,
    first: u32,
    second: u32,
    service: u32,
}

const T: Case = Case {
    k: 3,
    allowance: 100,
    leg: 5,
    first: u32::MAX,
    second: u32::MAX,
    service: 0,
};

// Its line, as those below: the refusal number, the result with the place lent beyond the six, and the stops that are left.
fn show_case(rt: &impl Print, case: Case) -> io::Result<()> {
    let mut route = [1, 2];
    let mut result = [9; 7];
    let refused = mittenschist::mittenschist_polish_route(
        case.k,
        case.allowance,
        3,
        &[0, case.leg, 1, 1, 0, 5, 5, 1, 0],
        &[u32::MAX, case.first, case.second],
        &[0, 0, case.service],
        0,
        &mut route,
        &mut result,
    );
    println!(rt;
        "polish {refused} result{} route{}",
        Spaced(&result),
        Spaced(&route)
    )
}

// T, or its legs with another route, to an end harbour.
fn show_to(rt: &impl Print, end: u32, route: &mut [u32]) -> io::Result<()> {
    let mut result = [9; 7];
    let refused = mittenschist::mittenschist_polish_route_to_end(
        3,
        100,
        3,
        &TEXT_CASE_LEGS,
        &[u32::MAX; 3],
        &[0; 3],
        0,
        end,
        route,
        &mut result,
    );
    println!(rt;
        "polish {refused} result{} route{}",
        Spaced(&result),
        Spaced(route)
    )
}

// T, or its legs with another route, with pairs.
fn show_keeping(rt: &impl Print, end: u32, pairs: &[u32], route: &mut [u32]) -> io::Result<()> {
    let mut result = [9; 7];
    let refused = mittenschist::mittenschist_polish_route_with_pairs(
        3,
        100,
        3,
        &TEXT_CASE_LEGS,
        &[u32::MAX; 3],
        &[0; 3],
        0,
        end,
        pairs,
        route,
        &mut result,
    );
    println!(rt;
        "polish {refused} result{} route{}",
        Spaced(&result),
        Spaced(route)
    )
}

// A route of one location, as long as the slice, which is left out of the line.
fn show_long(rt: &impl Print, route: &mut [u32]) -> io::Result<()> {
    let mut result = [9; 7];
    let refused = mittenschist::mittenschist_polish_route(
        3,
        1000,
        1,
        &[1],
        &[u32::MAX],
        &[0],
        0,
        route,
        &mut result,
    );
    println!(rt; "polish {refused} result{} route", Spaced(&result))
}

fn show_patterns(rt: &impl Print) -> io::Result<()> {
    for index in 0..8 {
        show_pattern(rt, 3, index)?;
    }
    for (k, index) in [(4, 7), (5, 382), (5, 383), (6, 0)] {
        show_pattern(rt, k, index)?;
    }
    Ok(())
}

fn show_cut_set_counts(rt: &impl Print) -> io::Result<()> {
    show_cut_sets(rt, 3, &mut [0, 1, 2])?;
    show_cut_sets(rt, 4, &mut [0, 1, 2, 3])?;
    show_cut_sets(rt, 5, &mut [0, 1, 2, 3, 4])
}

// T as document 01 asks it,
fn show_starred(rt: &impl Print) -> io::Result<()> {
    for allowance in [100, 11, 10, 3] {
        show_case(rt, Case { allowance, ..T })?;
    }
    for first in [1, 2] {
        show_case(rt, Case { first, ..T })?;
    }
    show_case(rt, Case { k: 4, ..T })
}

// with time on the lamp at location 2,
fn show_service(rt: &impl Print) -> io::Result<()> {
    for first in [11, 12] {
        show_case(
            rt,
            Case {
                first,
                service: 10,
                ..T
            },
        )?;
    }
    Ok(())
}

// with stops that are late when they are handed in: both, the second one, also where there is no cut set or nothing was examined, and the first
// one until it is mended,
fn show_late_stops(rt: &impl Print) -> io::Result<()> {
    show_case(
        rt,
        Case {
            first: 0,
            second: 0,
            ..T
        },
    )?;
    show_case(rt, Case { second: 0, ..T })?;
    show_case(
        rt,
        Case {
            k: 4,
            second: 0,
            ..T
        },
    )?;
    show_case(
        rt,
        Case {
            allowance: 0,
            first: 0,
            second: 0,
            ..T
        },
    )?;
    show_case(
        rt,
        Case {
            allowance: 3,
            first: 4,
            ..T
        },
    )?;
    show_case(
        rt,
        Case {
            allowance: 4,
            first: 4,
            ..T
        },
    )
}

// to each end harbour, and with no stop the one leg,
fn show_ends(rt: &impl Print) -> io::Result<()> {
    for end in 0..4 {
        show_to(rt, end, &mut [1, 2])?;
    }
    show_to(rt, 1, &mut [])
}

// with no pair, 1 before 2, 2 before 1, both, and the depot as a member, which is no visit,
fn show_pairs(rt: &impl Print) -> io::Result<()> {
    show_keeping(rt, 0, &[], &mut [1, 2])?;
    show_keeping(rt, 0, &[1, 2], &mut [1, 2])?;
    show_keeping(rt, 0, &[2, 1], &mut [1, 2])?;
    show_keeping(rt, 0, &[1, 2, 2, 1], &mut [1, 2])?;
    show_keeping(rt, 0, &[0, 1, 1, 0], &mut [1, 2])
}

// with a stop visited again: of 1, 2, 1, which breaks the pair, the shorter order 2, 1, 1 breaks it too,
fn show_again(rt: &impl Print) -> io::Result<()> {
    show_keeping(rt, 0, &[], &mut [1, 2, 1])?;
    show_keeping(rt, 0, &[1, 2], &mut [1, 2, 1])?;
    show_keeping(rt, 0, &[2, 1], &mut [1, 2, 1])
}

// with 64 pairs, and with 65,
fn show_many_pairs(rt: &impl Print) -> io::Result<()> {
    show_keeping(rt, 0, [[2, 1]; 64].as_flattened(), &mut [1, 2])?;
    show_keeping(rt, 0, [[2, 1]; 65].as_flattened(), &mut [1, 2])
}

// with a member alone, with one that is no location, with equal members, and behind 24,
fn show_bad_pairs(rt: &impl Print) -> io::Result<()> {
    show_keeping(rt, 0, &[2, 1, 2], &mut [1, 2])?;
    show_keeping(rt, 0, &[2, 3], &mut [1, 2])?;
    show_keeping(rt, 0, &[2, 1, 0, 0], &mut [1, 2])?;
    show_keeping(rt, 3, &[0, 0], &mut [1, 2])
}

// and at other bounds.
fn show_bounds(rt: &impl Print) -> io::Result<()> {
    show_case(
        rt,
        Case {
            k: 4,
            allowance: 0,
            ..T
        },
    )?;
    show_case(rt, Case { k: 2, ..T })?;
    show_case(rt, Case { allowance: 4, ..T })?;
    show_case(rt, Case { leg: 1000001, ..T })?;
    show_case(
        rt,
        Case {
            k: 6,
            leg: 1000001,
            ..T
        },
    )?;
    show_case(
        rt,
        Case {
            service: 1000000,
            ..T
        },
    )?;
    show_case(
        rt,
        Case {
            service: 1000001,
            ..T
        },
    )?;
    show_long(rt, &mut [0; 512])?;
    show_long(rt, &mut [0; 513])
}

fn main(rt: HostRuntime) -> io::Result<()> {
    show_patterns(&rt)?;
    show_cut_set_counts(&rt)?;
    show_starred(&rt)?;
    show_service(&rt)?;
    show_late_stops(&rt)?;
    show_ends(&rt)?;
    show_pairs(&rt)?;
    show_again(&rt)?;
    show_many_pairs(&rt)?;
    show_bad_pairs(&rt)?;
    show_bounds(&rt)
}
