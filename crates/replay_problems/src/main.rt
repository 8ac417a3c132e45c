// Replays problems as text over the calls that the entries hand on to: texts that are read, written again and refused, and problems at the bounds of what a text holds.
#![tactic(auto)]

use replay_lines::Spaced;
use std::io;
use theory::{Refusal, number_of};

// A line of a call: its refusal number and result, and the stops that it left.
fn show(
    rt: &impl Print,
    call: &str,
    answer: Result<(), Refusal>,
    res: &[u64],
    stops: &[u32],
) -> io::Result<()> {
    let refused = number_of(answer);
    println!(rt;
        "{call} {refused} result{} stops{}",
        Spaced(res),
        Spaced(stops)
    )
}

// A problem written into a lent text, which it fills.
fn show_written(
    rt: &impl Print,
    k: usize,
    allowance: u64,
    locations: usize,
    legs: &[u32],
    latest: &[u32],
    service: &[u32],
    depot: u32,
    end: u32,
    route: &[u32],
    text: &mut [u8],
) -> io::Result<()> {
    let mut result = [9u64; 2];
    let answer = problem_calls::write_problem(
        k,
        allowance,
        locations,
        legs,
        latest,
        service,
        depot,
        end,
        route,
        text,
        &mut result,
    );
    show(rt, "write", answer, &result, &[])?;
    if answer.is_ok() {
        rt.write_all(&text[..])?;
    }
    Ok(())
}

// A text read into lent lists, which its problem fills, and written again into a text of as many bytes.
fn show_text(
    rt: &impl Print,
    text: &[u8],
    legs: &mut [u32],
    latest: &mut [u32],
    service: &mut [u32],
    route: &mut [u32],
    again: &mut [u8],
) -> io::Result<()> {
    let mut result = [9u64; 7];
    let answer = problem_reading::read_problem(text, legs, latest, service, route, &mut result);
    show(rt, "read", answer, &result, &route[..])?;
    let k = result[0] as usize;
    let locations = result[2] as usize;
    let depot = result[3];
    let end = result[4];
    if answer.is_err() {
        return Ok(());
    }
    if depot > 9 {
        return Ok(());
    }
    if end > 9 {
        return Ok(());
    }
    show_written(
        rt,
        k,
        result[1],
        locations,
        legs,
        latest,
        service,
        depot as u32,
        end as u32,
        route,
        again,
    )
}

// Document 01's text case,
fn show_case(rt: &impl Print) -> io::Result<()> {
    let mut legs = [9u32; 9];
    let mut latest = [9u32; 3];
    let mut service = [9u32; 3];
    let mut route = [9u32; 2];
    let mut text = [0u8; 141];
    show_text(
        rt,
        b"k=3\nallowance=100\nlocations=3\ndepot=0\nend=0\nlegs=0,5,1\nlegs=1,0,5\nlegs=5,1,0\nlatest=4294967295,4294967295,4294967295\nservice=0,0,0\nround=1,2\n",
        &mut legs,
        &mut latest,
        &mut service,
        &mut route,
        &mut text,
    )
}

// a text with an end harbour and no stop,
fn show_end(rt: &impl Print) -> io::Result<()> {
    let mut legs = [9u32; 4];
    let mut latest = [9u32; 2];
    let mut service = [9u32; 2];
    let mut route = [9u32; 0];
    let mut text = [0u8; 118];
    show_text(
        rt,
        b"k=5\nallowance=4294967295\nlocations=2\ndepot=0\nend=1\nlegs=0,1000000\nlegs=1000000,0\nlatest=0,10\nservice=1000000,0\nround=\n",
        &mut legs,
        &mut latest,
        &mut service,
        &mut route,
        &mut text,
    )
}

// and texts of one location.
fn show_one(rt: &impl Print, text: &[u8]) -> io::Result<()> {
    let mut legs = [9u32; 1];
    let mut latest = [9u32; 1];
    let mut service = [9u32; 1];
    let mut route = [9u32; 3];
    let mut again = [0u8; 80];
    show_text(
        rt,
        text,
        &mut legs,
        &mut latest,
        &mut service,
        &mut route,
        &mut again,
    )
}

// The first is read, the others are refused in the order of the numbers; the last has a stop more than there are places.
fn show_refused(rt: &impl Print) -> io::Result<()> {
    show_one(
        rt,
        b"k=2\nallowance=0\nlocations=1\ndepot=0\nend=0\nlegs=7\nlatest=9\nservice=4\nround=0,0,0\n",
    )?;
    show_one(
        rt,
        b"k=2\nallowance=0\nlocations=1\ndepot=0\nend=0\nlegs=7\nlatest=9\nservice=4\nround=0\nround=0\n",
    )?;
    show_one(
        rt,
        b"k=6\nallowance=0\nlocations=1\ndepot=0\nend=0\nlegs=7000000\nlatest=9\nservice=4\nround=0\n",
    )?;
    show_one(
        rt,
        b"k=2\nallowance=0\nlocations=1\ndepot=0\nend=1\nlegs=7\nlatest=9\nservice=4\nround=0,0,0,1\n",
    )?;
    show_one(
        rt,
        b"k=2\nallowance=0\nlocations=1\ndepot=0\nend=1\nlegs=7\nlatest=9\nservice=4\nround=0\n",
    )?;
    show_one(
        rt,
        b"k=2\nallowance=0\nlocations=1\ndepot=0\nend=0\nlegs=7\nlatest=9\nservice=4\nround=0,0,0,0\n",
    )
}

// A problem of one location, with an allowance and with stops; the last has room for one byte less than it has.
fn show_small(rt: &impl Print) -> io::Result<()> {
    let mut text = [0u8; 1100];
    show_written(rt, 2, 4294967296, 1, &[7], &[9], &[4], 0, 0, &[], &mut text)?;
    show_written(rt, 2, 5, 1025, &[7], &[9], &[4], 0, 0, &[], &mut text)?;
    show_written(rt, 2, 5, 1, &[7], &[9], &[4], 0, 0, &[0; 513], &mut text)?;
    let mut short = [0u8; 74];
    show_written(rt, 2, 5, 1, &[7], &[9], &[4], 0, 0, &[], &mut short)
}

// A problem of 96 locations.
fn show_large(rt: &impl Print, legs: &[u32; 9216], text: &mut [u8]) -> io::Result<()> {
    let mut result = [9u64; 2];
    let answer = problem_calls::write_problem(
        3,
        100,
        96,
        legs,
        &[0; 96],
        &[0; 96],
        0,
        0,
        &[],
        text,
        &mut result,
    );
    show(rt, "write", answer, &result, &[])
}

// Into the longest text, into one of a byte less, and into three bytes.
fn show_longest(rt: &impl Print, legs: &[u32; 9216]) -> io::Result<()> {
    let mut text = [0u8; 60000];
    show_large(rt, legs, &mut text)
}

fn show_shorter(rt: &impl Print, legs: &[u32; 9216]) -> io::Result<()> {
    let mut text = [0u8; 59999];
    show_large(rt, legs, &mut text)
}

fn show_three(rt: &impl Print, legs: &[u32; 9216]) -> io::Result<()> {
    let mut text = [0u8; 3];
    show_large(rt, legs, &mut text)
}

// The first legs of six digits, the others 0.
fn shorten(legs: &mut [u32; 9216]) {
    *legs = [0; 9216];
    for i in 0..8127 {
        legs[i] = 100000;
    }
}

// The longest legs; 60,000 bytes; and 60,001.
fn show_bounds(rt: &impl Print) -> io::Result<()> {
    let mut legs = [1000000u32; 9216];
    show_three(rt, &legs)?;
    shorten(&mut legs);
    legs[8127] = 100;
    show_longest(rt, &legs)?;
    show_shorter(rt, &legs)?;
    legs[8127] = 1000;
    show_longest(rt, &legs)?;
    show_three(rt, &legs)
}

// 97 locations.
fn show_many(rt: &impl Print) -> io::Result<()> {
    let legs = [0u32; 9409];
    let mut text = [0u8; 100];
    let mut result = [9u64; 2];
    let answer = problem_calls::write_problem(
        3,
        100,
        97,
        &legs,
        &[0; 97],
        &[0; 97],
        0,
        0,
        &[],
        &mut text,
        &mut result,
    );
    show(rt, "write", answer, &result, &[])
}

fn main(rt: HostRuntime) -> io::Result<()> {
    show_case(&rt)?;
    show_end(&rt)?;
    show_refused(&rt)?;
    show_small(&rt)?;
    show_bounds(&rt)?;
    show_many(&rt)
}
