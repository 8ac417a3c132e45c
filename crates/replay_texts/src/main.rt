// Replays texts over the text program's own function: texts that are answered, refused, malformed, and at the bounds.
#![tactic(auto)]

use std::io;

// The text program's answer to a text.
fn show_text(rt: &impl Print, text: &[u8]) -> io::Result<()> {
    let answer = text::polish_text(text);
    rt.write_all(b"text ")?;
    rt.write_all(answer.written())
}

// Texts that are not of the form, one fault each: of the lines,
fn show_malformed_lines(rt: &impl Print) -> io::Result<()> {
    show_text(rt, b"")?;
    show_text(
        rt,
        b"k=2\nallowance=1\nlocations=1\ndepot=0\nend=0\nlegs=0\nlatest=0\nservice=0\nround=0",
    )?;
    show_text(
        rt,
        b"k=2\r\nallowance=1\nlocations=1\ndepot=0\nend=0\nlegs=0\nlatest=0\nservice=0\nround=0\n",
    )?;
    show_text(
        rt,
        b"k=2\n\nallowance=1\nlocations=1\ndepot=0\nend=0\nlegs=0\nlatest=0\nservice=0\nround=0\n",
    )?;
    show_text(
        rt,
        b"allowance=1\nk=2\nlocations=1\ndepot=0\nend=0\nlegs=0\nlatest=0\nservice=0\nround=0\n",
    )?;
    show_text(
        rt,
        b"k=9\nallowance=1\nlocations=1\ndepot=0\nend=0\nlegs=0\nlatest=0\nservice=0\nround=0\nround=0\n",
    )
}

// of the numbers,
fn show_malformed_numbers(rt: &impl Print) -> io::Result<()> {
    show_text(
        rt,
        b"k= 2\nallowance=1\nlocations=1\ndepot=0\nend=0\nlegs=0\nlatest=0\nservice=0\nround=0\n",
    )?;
    show_text(
        rt,
        b"k=+2\nallowance=1\nlocations=1\ndepot=0\nend=0\nlegs=0\nlatest=0\nservice=0\nround=0\n",
    )?;
    show_text(
        rt,
        b"k=02\nallowance=1\nlocations=1\ndepot=0\nend=0\nlegs=0\nlatest=0\nservice=0\nround=0\n",
    )?;
    show_text(
        rt,
        b"k=2\nallowance=4294967296\nlocations=1\ndepot=0\nend=0\nlegs=0\nlatest=0\nservice=0\nround=0\n",
    )
}

// and of the lists.
fn show_malformed_lists(rt: &impl Print) -> io::Result<()> {
    show_text(
        rt,
        b"k=2\nallowance=1\nlocations=1\ndepot=0\nend=0\nlegs=0,0\nlatest=0\nservice=0\nround=0\n",
    )?;
    show_text(
        rt,
        b"k=2\nallowance=1\nlocations=97\ndepot=0\nend=0\nlegs=0\nlatest=0\nservice=0\nround=0\n",
    )?;
    show_text(
        rt,
        b"k=2\nallowance=1\nlocations=1\ndepot=0\nend=0\nlegs=0\nlatest=0\nservice=0\nround=0,\n",
    )?;
    show_text(
        rt,
        b"k=2\nallowance=1\nlocations=1\ndepot=0\nend=0\nlegs=0\nlatest=0\nservice=0\nround=,\n",
    )
}

// Texts of the form with a value beyond its bound, and two that are answered.
fn show_judged(rt: &impl Print) -> io::Result<()> {
    show_text(
        rt,
        b"k=4294967295\nallowance=1\nlocations=1\ndepot=1\nend=0\nlegs=1000001\nlatest=0\nservice=0\nround=0\n",
    )?;
    show_text(
        rt,
        b"k=2\nallowance=1\nlocations=1\ndepot=1\nend=0\nlegs=1000001\nlatest=0\nservice=0\nround=0\n",
    )?;
    show_text(
        rt,
        b"k=2\nallowance=1\nlocations=1\ndepot=1\nend=0\nlegs=1000000\nlatest=0\nservice=0\nround=0\n",
    )?;
    show_text(
        rt,
        b"k=2\nallowance=0\nlocations=1\ndepot=0\nend=0\nlegs=7\nlatest=0\nservice=0\nround=\n",
    )?;
    show_text(
        rt,
        b"k=2\nallowance=0\nlocations=1\ndepot=0\nend=0\nlegs=7\nlatest=0\nservice=0\nround=0\n",
    )
}

// Document 01's example with no service; with 10 seconds at location 2, behind which location 1 is reached at 12, the depot's service or none.
fn show_service(rt: &impl Print) -> io::Result<()> {
    show_text(
        rt,
        b"k=3\nallowance=100\nlocations=3\ndepot=0\nend=0\nlegs=0,5,1\nlegs=1,0,5\nlegs=5,1,0\nlatest=4294967295,4294967295,4294967295\nservice=0,0,0\nround=1,2\n",
    )?;
    show_text(
        rt,
        b"k=3\nallowance=100\nlocations=3\ndepot=0\nend=0\nlegs=0,5,1\nlegs=1,0,5\nlegs=5,1,0\nlatest=4294967295,11,4294967295\nservice=0,0,10\nround=1,2\n",
    )?;
    show_text(
        rt,
        b"k=3\nallowance=100\nlocations=3\ndepot=0\nend=0\nlegs=0,5,1\nlegs=1,0,5\nlegs=5,1,0\nlatest=4294967295,12,4294967295\nservice=0,0,10\nround=1,2\n",
    )?;
    show_text(
        rt,
        b"k=3\nallowance=100\nlocations=3\ndepot=0\nend=0\nlegs=0,5,1\nlegs=1,0,5\nlegs=5,1,0\nlatest=4294967295,12,4294967295\nservice=9,0,10\nround=1,2\n",
    )?;
    show_text(
        rt,
        b"k=2\nallowance=0\nlocations=1\ndepot=0\nend=0\nlegs=7\nlatest=0\nservice=1000000\nround=0\n",
    )
}

// The same example late: at both stops, at the second alone, at the first, which polishing mends; and late where it is spent or has no cut set.
fn show_late(rt: &impl Print) -> io::Result<()> {
    show_text(
        rt,
        b"k=3\nallowance=100\nlocations=3\ndepot=0\nend=0\nlegs=0,5,1\nlegs=1,0,5\nlegs=5,1,0\nlatest=4294967295,0,0\nservice=0,0,0\nround=1,2\n",
    )?;
    show_text(
        rt,
        b"k=3\nallowance=100\nlocations=3\ndepot=0\nend=0\nlegs=0,5,1\nlegs=1,0,5\nlegs=5,1,0\nlatest=4294967295,4294967295,0\nservice=0,0,0\nround=1,2\n",
    )?;
    show_text(
        rt,
        b"k=3\nallowance=100\nlocations=3\ndepot=0\nend=0\nlegs=0,5,1\nlegs=1,0,5\nlegs=5,1,0\nlatest=4294967295,2,4294967295\nservice=0,0,0\nround=1,2\n",
    )?;
    show_text(
        rt,
        b"k=3\nallowance=3\nlocations=3\ndepot=0\nend=0\nlegs=0,5,1\nlegs=1,0,5\nlegs=5,1,0\nlatest=4294967295,4294967295,0\nservice=0,0,0\nround=1,2\n",
    )?;
    show_text(
        rt,
        b"k=4\nallowance=100\nlocations=3\ndepot=0\nend=0\nlegs=0,5,1\nlegs=1,0,5\nlegs=5,1,0\nlatest=4294967295,4294967295,0\nservice=0,0,0\nround=1,2\n",
    )
}

// Service times that are too long, beside what comes before and behind them in the one order; and too few or too many of them.
fn show_bad_service(rt: &impl Print) -> io::Result<()> {
    show_text(
        rt,
        b"k=2\nallowance=0\nlocations=1\ndepot=0\nend=0\nlegs=7\nlatest=0\nservice=1000001\nround=0\n",
    )?;
    show_text(
        rt,
        b"k=2\nallowance=0\nlocations=1\ndepot=0\nend=0\nlegs=1000001\nlatest=0\nservice=1000001\nround=0\n",
    )?;
    show_text(
        rt,
        b"k=2\nallowance=0\nlocations=1\ndepot=1\nend=0\nlegs=7\nlatest=0\nservice=1000001\nround=0\n",
    )?;
    show_text(
        rt,
        b"k=3\nallowance=100\nlocations=3\ndepot=0\nend=0\nlegs=0,5,1\nlegs=1,0,5\nlegs=5,1,0\nlatest=4294967295,12,4294967295\nservice=0,0\nround=1,2\n",
    )?;
    show_text(
        rt,
        b"k=3\nallowance=100\nlocations=3\ndepot=0\nend=0\nlegs=0,5,1\nlegs=1,0,5\nlegs=5,1,0\nlatest=4294967295,12,4294967295\nservice=0,0,0,0\nround=1,2\n",
    )?;
    show_text(
        rt,
        b"k=2\nallowance=0\nlocations=1\ndepot=0\nend=0\nlegs=7\nlatest=0\nround=0\n",
    )?;
    show_text(
        rt,
        b"k=2\nallowance=0\nlocations=1\ndepot=0\nend=0\nlegs=7\nlatest=0\nservice=\nround=0\n",
    )
}

// The example to another end harbour, whose own deadline and service play no part; an empty round with its one leg; an end harbour that is no location, beside
// what comes before it in the one order; and texts without the line, or with it before the depot's.
fn show_ends(rt: &impl Print) -> io::Result<()> {
    show_text(
        rt,
        b"k=3\nallowance=100\nlocations=3\ndepot=0\nend=1\nlegs=0,5,1\nlegs=1,0,5\nlegs=5,1,0\nlatest=4294967295,4294967295,4294967295\nservice=0,0,0\nround=1,2\n",
    )?;
    show_text(
        rt,
        b"k=3\nallowance=100\nlocations=3\ndepot=0\nend=0\nlegs=0,5,1\nlegs=1,0,5\nlegs=5,1,0\nlatest=0,4294967295,4294967295\nservice=9,0,0\nround=1,2\n",
    )?;
    show_text(
        rt,
        b"k=3\nallowance=100\nlocations=3\ndepot=0\nend=1\nlegs=0,5,1\nlegs=1,0,5\nlegs=5,1,0\nlatest=0,0,0\nservice=0,0,0\nround=\n",
    )?;
    show_text(
        rt,
        b"k=2\nallowance=1\nlocations=1\ndepot=0\nend=1\nlegs=0\nlatest=0\nservice=0\nround=0\n",
    )?;
    show_text(
        rt,
        b"k=2\nallowance=1\nlocations=1\ndepot=0\nend=1\nlegs=0\nlatest=0\nservice=0\nround=1\n",
    )?;
    show_text(
        rt,
        b"k=2\nallowance=1\nlocations=1\ndepot=0\nend=1\nlegs=0\nlatest=0\nservice=1000001\nround=0\n",
    )?;
    show_text(
        rt,
        b"k=2\nallowance=1\nlocations=1\ndepot=0\nlegs=0\nlatest=0\nservice=0\nround=0\n",
    )?;
    show_text(
        rt,
        b"k=2\nallowance=1\nlocations=1\nend=0\ndepot=0\nlegs=0\nlatest=0\nservice=0\nround=0\n",
    )
}

// A byte of a text: the header, and then one stop after the other.
fn round_byte(header: &[u8], i: usize) -> u8 {
    if i < header.len() {
        return header[i];
    }
    if (i - header.len()) % 2 == 0 {
        return b'0';
    }
    b','
}

fn fill_round(header: &[u8], text: &mut [u8]) {
    for i in 0..text.len() {
        text[i] = round_byte(header, i);
    }
}

// 600 stops, the last of them and the end harbour as given.
fn show_600_stops(rt: &impl Print, last: u8, before: u8, end: u8) -> io::Result<()> {
    let mut text = [0u8; 1274];
    fill_round(
        b"k=2\nallowance=1\nlocations=1\ndepot=0\nend=0\nlegs=0\nlatest=0\nservice=0\nround=",
        &mut text,
    );
    text[40] = end;
    text[1271] = before;
    text[1272] = last;
    text[1273] = b'\n';
    show_text(rt, &text)
}

// Texts of 60,000 bytes and of one more.
fn show_longest(rt: &impl Print) -> io::Result<()> {
    let mut text = [0u8; 60000];
    fill_round(
        b"k=2\nallowance=1\nlocations=1\ndepot=0\nend=0\nlegs=0\nlatest=0\nservice=0\nround=",
        &mut text,
    );
    text[59999] = b'\n';
    show_text(rt, &text)?;
    let mut longer = [0u8; 60001];
    fill_round(
        b"k=2\nallowance=10\nlocations=1\ndepot=0\nend=0\nlegs=0\nlatest=0\nservice=0\nround=",
        &mut longer,
    );
    longer[60000] = b'\n';
    show_text(rt, &longer)
}

fn main(rt: HostRuntime) -> io::Result<()> {
    show_malformed_lines(&rt)?;
    show_malformed_numbers(&rt)?;
    show_malformed_lists(&rt)?;
    show_judged(&rt)?;
    show_service(&rt)?;
    show_late(&rt)?;
    show_bad_service(&rt)?;
    show_ends(&rt)?;
    show_600_stops(&rt, b'0', b',', b'0')?;
    show_600_stops(&rt, b'1', b',', b'0')?;
    show_600_stops(&rt, b'1', b'0', b'0')?;
    show_600_stops(&rt, b'0', b',', b'1')?;
    show_longest(&rt)
}
