// Replays inputs over the season report's own function: the ruled cases of its separators, its numbers and its bounds.
#![tactic(auto)]

use std::io;

fn show_report(rt: &impl Print, text: &[u8]) -> io::Result<()> {
    let report = season_report::report_season(text);
    rt.write_all(b"report ")?;
    rt.write_all(report.written())
}

// Empty blocks, and lines that are no separator.
fn show_separators(rt: &impl Print) -> io::Result<()> {
    show_report(rt, b"")?;
    show_report(rt, b"next\n")?;
    show_report(rt, b"next")?;
    show_report(rt, b"xnext\n")?;
    show_report(rt, b"next \n")
}

// Document 01's example T alone, before a separator, twice with a separator between and with none, and with a line that is none.
fn show_rounds(rt: &impl Print) -> io::Result<()> {
    show_report(
        rt,
        b"k=3\nallowance=100\nlocations=3\ndepot=0\nend=0\nlegs=0,5,1\nlegs=1,0,5\nlegs=5,1,0\nlatest=4294967295,4294967295,4294967295\nservice=0,0,0\nround=1,2\n",
    )?;
    show_report(
        rt,
        b"k=3\nallowance=100\nlocations=3\ndepot=0\nend=0\nlegs=0,5,1\nlegs=1,0,5\nlegs=5,1,0\nlatest=4294967295,4294967295,4294967295\nservice=0,0,0\nround=1,2\nnext\n",
    )?;
    show_report(
        rt,
        b"k=3\nallowance=100\nlocations=3\ndepot=0\nend=0\nlegs=0,5,1\nlegs=1,0,5\nlegs=5,1,0\nlatest=4294967295,4294967295,4294967295\nservice=0,0,0\nround=1,2\nnext\nk=3\nallowance=100\nlocations=3\ndepot=0\nend=0\nlegs=0,5,1\nlegs=1,0,5\nlegs=5,1,0\nlatest=4294967295,4294967295,4294967295\nservice=0,0,0\nround=1,2\n",
    )?;
    show_report(
        rt,
        b"k=3\nallowance=100\nlocations=3\ndepot=0\nend=0\nlegs=0,5,1\nlegs=1,0,5\nlegs=5,1,0\nlatest=4294967295,4294967295,4294967295\nservice=0,0,0\nround=1,2\nk=3\nallowance=100\nlocations=3\ndepot=0\nend=0\nlegs=0,5,1\nlegs=1,0,5\nlegs=5,1,0\nlatest=4294967295,4294967295,4294967295\nservice=0,0,0\nround=1,2\n",
    )?;
    show_report(
        rt,
        b"k=3\nallowance=100\nlocations=3\ndepot=0\nend=0\nlegs=0,5,1\nlegs=1,0,5\nlegs=5,1,0\nlatest=4294967295,4294967295,4294967295\nservice=0,0,0\nround=1,2\nxnext\nk=3\nallowance=100\nlocations=3\ndepot=0\nend=0\nlegs=0,5,1\nlegs=1,0,5\nlegs=5,1,0\nlatest=4294967295,4294967295,4294967295\nservice=0,0,0\nround=1,2\n",
    )?;
    show_report(
        rt,
        b"k=3\nallowance=100\nlocations=3\ndepot=0\nend=0\nlegs=0,5,1\nlegs=1,0,5\nlegs=5,1,0\nlatest=4294967295,4294967295,4294967295\nservice=0,0,0\nround=1,2\nnext",
    )
}

// T spent, which is accepted; a text that is refused by its values; and four and five lengths, of which the second and the third are the middle.
fn show_numbers(rt: &impl Print) -> io::Result<()> {
    show_report(
        rt,
        b"k=3\nallowance=3\nlocations=3\ndepot=0\nend=0\nlegs=0,5,1\nlegs=1,0,5\nlegs=5,1,0\nlatest=4294967295,4294967295,4294967295\nservice=0,0,0\nround=1,2\nnext\nk=3\nallowance=100\nlocations=3\ndepot=0\nend=0\nlegs=0,5,1\nlegs=1,0,5\nlegs=5,1,0\nlatest=4294967295,4294967295,4294967295\nservice=0,0,0\nround=1,2\n",
    )?;
    show_report(
        rt,
        b"k=6\nallowance=100\nlocations=3\ndepot=0\nend=0\nlegs=0,5,1\nlegs=1,0,5\nlegs=5,1,0\nlatest=4294967295,4294967295,4294967295\nservice=0,0,0\nround=1,2\nnext\nk=3\nallowance=100\nlocations=3\ndepot=0\nend=0\nlegs=0,5,1\nlegs=1,0,5\nlegs=5,1,0\nlatest=4294967295,4294967295,4294967295\nservice=0,0,0\nround=1,2\n",
    )?;
    show_report(
        rt,
        b"k=2\nallowance=0\nlocations=1\ndepot=0\nend=0\nlegs=9\nlatest=0\nservice=0\nround=\nnext\nk=2\nallowance=0\nlocations=1\ndepot=0\nend=0\nlegs=1\nlatest=0\nservice=0\nround=\nnext\nk=2\nallowance=0\nlocations=1\ndepot=0\nend=0\nlegs=7\nlatest=0\nservice=0\nround=\nnext\nk=2\nallowance=0\nlocations=1\ndepot=0\nend=0\nlegs=4\nlatest=0\nservice=0\nround=\n",
    )?;
    show_report(
        rt,
        b"k=2\nallowance=0\nlocations=1\ndepot=0\nend=0\nlegs=9\nlatest=0\nservice=0\nround=\nnext\nk=2\nallowance=0\nlocations=1\ndepot=0\nend=0\nlegs=1\nlatest=0\nservice=0\nround=\nnext\nk=2\nallowance=0\nlocations=1\ndepot=0\nend=0\nlegs=7\nlatest=0\nservice=0\nround=\nnext\nk=2\nallowance=0\nlocations=1\ndepot=0\nend=0\nlegs=4\nlatest=0\nservice=0\nround=\nnext\nk=2\nallowance=0\nlocations=1\ndepot=0\nend=0\nlegs=9\nlatest=0\nservice=0\nround=\n",
    )
}

fn next_byte(i: usize) -> u8 {
    match i % 5 {
        0 => b'n',
        1 => b'e',
        2 => b'x',
        3 => b't',
        _ => b'\n',
    }
}

fn fill_next(text: &mut [u8]) {
    for i in 0..text.len() {
        text[i] = next_byte(i);
    }
}

// 63 and 64 separators; 60,000 bytes and one more.
fn show_bounds(rt: &impl Print) -> io::Result<()> {
    let mut most = [0u8; 315];
    fill_next(&mut most);
    show_report(rt, &most)?;
    let mut more = [0u8; 320];
    fill_next(&mut more);
    show_report(rt, &more)?;
    let longest = [b'x'; 60000];
    show_report(rt, &longest)?;
    let longer = [b'x'; 60001];
    show_report(rt, &longer)
}

fn main(rt: HostRuntime) -> io::Result<()> {
    show_separators(&rt)?;
    show_rounds(&rt)?;
    show_numbers(&rt)?;
    show_bounds(&rt)
}
