// Which patterns break a pair on a cut set of a route that keeps its pairs, and on every later one with the same first cuts, by ten signs: that one middle segment
// stands before an earlier one, or is reversed. A sign is closed where a pair goes from the earlier segment to the other. No entry: for the inner search.
#![tactic(auto)]

ghost use Rattle.std.specs.Prelude.{◌≡◌, ◌<◌, ◌≤◌};
ghost use Rattle.precedence.specs.Words.{marks};
ghost use Rattle.scan_joints.specs.States.{row};
ghost use Rattle.precedence_closing.specs.Closing.{sign, events, turned_in, ahead_in, RowSignable, SignsFillable, Signed, EventAsked, EventClosed, EventNext, ClosingAsked, ClosedBy};

use scan_joints::{ROW, ROW_BYTES};
use theory::PATTERNS;

pub const SIGNS: usize = PATTERNS;

// ---- the signs of a row

// That a state is its segment reversed. The tail, 8, is none.
fn turn_sign(state: u8) -> u16
    requires { state ≤ 8 }
    ensures { result ≡ marks (turned_in state) events }
{
    if state % 2 == 0 {
        return 0;
    }
    let b = state / 2;
    1u16 << (b * (b + 3) / 2)
}

// That the segment of the one state stands before the earlier one of the other.
fn order_sign(state: u8, behind: u8) -> u16
    requires { (state ≤ 8) × (behind ≤ 8) }
    ensures { result ≡ marks (ahead_in state behind) events }
{
    let b = state / 2;
    let a = behind / 2;
    if b == 4 {
        return 0;
    }
    if b <= a {
        return 0;
    }
    1u16 << (b * (b + 1) / 2 + a)
}

// The sign of row i.
fn row_sign(rows: &[u8; ROW_BYTES], i: usize) -> u16
    requires { RowSignable rows.now i }
    ensures { result ≡ sign (row rows.now i) }
{
    let at = ROW * i;
    let s = rows[at];
    let t = rows[at + 1];
    let u = rows[at + 2];
    let v = rows[at + 3];
    let first = turn_sign(s) | (order_sign(s, t) | (order_sign(s, u) | order_sign(s, v)));
    let second = turn_sign(t) | (order_sign(t, u) | order_sign(t, v));
    let third = turn_sign(u) | order_sign(u, v);
    first | (second | (third | turn_sign(v)))
}

// The signs of the first `count` rows.
pub fn fill_signs(rows: &[u8; ROW_BYTES], count: usize, signs: &mut [u16])
    requires { SignsFillable rows.now count signs.old }
    ensures { Signed rows.now count signs.new }
{
    for i in 0..count {
        signs[i] = row_sign(rows, i);
    }
}

// ---- the signs that are closed

// The bit of an event, if some pair goes from segment a to segment b.
fn event_sign(visits: &[u64], cuts: &[usize], a: usize, b: usize, bit: u16) -> u16
    requires { EventAsked visits.now cuts.now a b }
    ensures { EventClosed visits.now cuts.now a b bit result }
{
    if precedence_visits::visited_between(visits, cuts[a], cuts[a + 1], cuts[b], cuts[b + 1]) {
        return bit;
    }
    0
}

// The event behind (a, b).
#[derive(Clone, Copy)]
struct Event {
    a: usize,
    b: usize,
}

fn next_event(a: usize, b: usize) -> Event
    requires { (a ≤ b) × (b < 4) }
    ensures { EventNext a b result.a result.b }
{
    if a == b {
        return Event { a: 0, b: b + 1 };
    }
    Event { a: a + 1, b }
}

// The signs of rows that break a pair on these cuts, wherever the last one is moved on. Its steps are pairs of segments, one after the other by `next_event`: a range would be no plainer.
pub fn closed_signs(visits: &[u64], cuts: &[usize]) -> u16
    requires { ClosingAsked visits.now cuts.now }
    ensures { ClosedBy visits.now cuts.now result }
{
    let last = cuts.len() - 1;
    let mut closed = 0u16;
    let mut bit = 1u16;
    let mut a = 0;
    let mut b = 0;
    while b < last {
        closed = closed | event_sign(visits, cuts, a, b, bit);
        bit = 2 * bit;
        let next = next_event(a, b);
        a = next.a;
        b = next.b;
    }
    closed
}
