// Replays lists of patterns over their entries, a line each: texts that are loaded or refused, and document 01's text case polished with the rows, also with
// pairs.
#![tactic(auto)]

use replay_lines::{Spaced, TEXT_CASE_LEGS};
use std::io;

// The text case with a list.
fn show_polished(rt: &impl Print, k: usize, orders: &[u8], masks: &[u8]) -> io::Result<()> {
    let mut route = [1, 2];
    let mut result = [9; 7];
    let refused = mittenschist::mittenschist_polish_with_patterns(
        k,
        orders,
        masks,
        100,
        3,
        &TEXT_CASE_LEGS,
        &[u32::MAX; 3],
        &[0; 3],
        0,
        0,
        &mut route,
        &mut result,
    );
    println!(rt;
        "polish {refused} result{} stops{}",
        Spaced(&result),
        Spaced(&route)
    )
}

// The text case with a row that swaps the stops, and pairs.
fn show_keeping(rt: &impl Print, masks: &[u8], pairs: &[u32]) -> io::Result<()> {
    let mut route = [1, 2];
    let mut result = [9; 7];
    let refused = mittenschist::mittenschist_polish_with_patterns_and_pairs(
        3,
        &[0, 2, 1, 3],
        masks,
        100,
        3,
        &TEXT_CASE_LEGS,
        &[u32::MAX; 3],
        &[0; 3],
        0,
        0,
        pairs,
        &mut route,
        &mut result,
    );
    println!(rt;
        "polish {refused} result{} stops{}",
        Spaced(&result),
        Spaced(&route)
    )
}

// A text with places for three rows, and the text case with its rows where they are for 3 cuts.
fn show_list(rt: &impl Print, text: &[u8]) -> io::Result<()> {
    let mut orders = [9; 12];
    let mut masks = [9; 3];
    let mut result = [9; 3];
    let refused = mittenschist::mittenschist_load_patterns(
        text,
        &mut orders,
        &mut masks,
        &mut result,
    );
    println!(rt; "load {refused} result{} stops", Spaced(&result))?;
    let rows = result[1] as usize;
    if rows > 3 {
        return Ok(());
    }
    show_polished(rt, 3, &orders[..4 * rows], &masks[..rows])
}

fn show_loaded(rt: &impl Print) -> io::Result<()> {
    show_list(rt, b"k=3\npatterns=1\npattern=0213,0\n")?;
    show_list(
        rt,
        b"k=3\npatterns=3\npattern=0123,2\npattern=0123,4\npattern=0123,6\n",
    )?;
    show_list(rt, b"k=3\npatterns=2\npattern=0213,6\npattern=0123,2\n")?;
    show_list(rt, b"k=3\npatterns=2\npattern=0123,2\npattern=0213,6\n")
}

// In the order of the numbers.
fn show_refused(rt: &impl Print) -> io::Result<()> {
    show_list(rt, b"k=3\npatterns=1\npattern=0213,06\n")?;
    show_list(rt, b"k=9\npatterns=2\npattern=,1\n")?;
    show_list(rt, b"k=3\npatterns=2\npattern=,1\n")?;
    show_list(rt, b"k=3\npatterns=1\npattern=0213,258\n")?;
    show_list(
        rt,
        b"k=3\npatterns=3\npattern=0213,2\npattern=0213,2\npattern=0312,0\n",
    )?;
    show_list(rt, b"k=3\npatterns=2\npattern=0213,2\npattern=0213,2\n")?;
    show_list(rt, b"k=3\npatterns=1\npattern=0123,0\n")?;
    show_list(
        rt,
        b"k=4\npatterns=3\npattern=01324,0\npattern=01324,2\npattern=01324,4\n",
    )
}

// Lent rows: none, orders of another size, a mask of another bit, one row twice.
fn show_lent(rt: &impl Print) -> io::Result<()> {
    show_polished(rt, 6, &[0, 2, 1, 3], &[1])?;
    show_polished(rt, 3, &[], &[])?;
    show_polished(rt, 3, &[0, 2, 1], &[1])?;
    show_polished(rt, 3, &[0, 2, 1, 3], &[8])?;
    show_polished(rt, 3, &[0, 2, 1, 3, 0, 2, 1, 3], &[0, 0])
}

// No pair, 1 before 2, 2 before 1, equal members, and a row that is refused before them.
fn show_pairs(rt: &impl Print) -> io::Result<()> {
    show_keeping(rt, &[0], &[])?;
    show_keeping(rt, &[0], &[1, 2])?;
    show_keeping(rt, &[0], &[2, 1])?;
    show_keeping(rt, &[0], &[1, 1])?;
    show_keeping(rt, &[1], &[1, 1])
}

fn main(rt: HostRuntime) -> io::Result<()> {
    show_loaded(&rt)?;
    show_refused(&rt)?;
    show_lent(&rt)?;
    show_pairs(&rt)
}
