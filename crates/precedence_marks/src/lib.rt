// Pairs of placed segments, shared by the candidates that have them: the words of each middle segment, grown with the last cut, and a row of states judged by them. No
// entry: for the inner search.
#![tactic(auto)]

ghost use Rattle.std.specs.Prelude.{◌≡◌, ◌+◌, ◌-◌, ◌*◌, get_or};
ghost use Rattle.std.proofs.Math.Seq.{slice};
ghost use Rattle.precedence_marks.specs.Held.{in_order, Puttable, Putting, SegmentAsked, SegmentMarked, MarksFillable, MarksFilled, MarksReachable, MarksStretched, MarksAsked, MarksReached, MarksTellable, MarksTold, RowOrdered, RouteTellable, HeadLimit, TailSince};

use precedence::Marks;
use scan_joints::{ROW, ROW_BYTES, STATES};

// By segment the pairs whose first it visits; so many places on those whose second; by state the pairs that it breaks; and behind them the last cut that the
// words of the last segment reach up to, 0 before any is found.
pub const SECOND_WORDS: usize = STATES / 2;

pub const BROKEN_WORDS: usize = STATES;

pub const MARK_REACH: usize = BROKEN_WORDS + STATES;

pub const MARK_PLACES: usize = MARK_REACH + 1;

// The words of a middle segment into its places.
fn put_marks(held: &mut [u64; MARK_PLACES], segment: usize, marks: Marks)
    requires { Puttable held.old segment }
    ensures { held.new ≡ Putting held.old segment marks }
{
    let s = 2 * segment - 2;
    held[segment - 1] = marks.firsts;
    held[SECOND_WORDS + segment - 1] = marks.seconds;
    held[BROKEN_WORDS + s] = marks.broken;
    held[BROKEN_WORDS + s + 1] = marks.turned;
}

// The words of route[start..end].
fn segment_marks(members: &[u64], route: &[u32], start: usize, end: usize) -> Marks
    requires { SegmentAsked members.now route.now start end }
    ensures { SegmentMarked members.now route.now start end result }
{
    let none = Marks {
        firsts: 0,
        seconds: 0,
        broken: 0,
        turned: 0,
    };
    precedence::grow_marks(members, route, start, end, none)
}

// The words of the first `count` middle segments; only the cuts up to that of number `count` are read, so those behind it share them.
fn fill_marks(
    members: &[u64],
    route: &[u32],
    cuts: &[usize],
    count: usize,
    held: &mut [u64; MARK_PLACES],
)
    requires { MarksFillable members.now route.now cuts.now count held.old }
    ensures { MarksFilled members.now route.now cuts.now count held.new }
{
    for i in 1..count + 1 {
        let found = segment_marks(members, route, cuts[i - 1], cuts[i]);
        put_marks(held, i, found);
    }
}

// The words held of the last middle segment, brought from the cut that they reach up to the last cut.
fn stretch_marks(members: &[u64], route: &[u32], cuts: &[usize], held: &mut [u64; MARK_PLACES])
    requires { MarksReachable members.now route.now cuts.now held.old }
    ensures { MarksStretched members.now route.now cuts.now held.old held.new }
{
    let segment = cuts.len() - 1;
    let end = cuts[segment];
    let from = held[MARK_REACH] as usize;
    let s = 2 * segment - 2;
    let before = Marks {
        firsts: held[segment - 1],
        seconds: held[SECOND_WORDS + segment - 1],
        broken: held[BROKEN_WORDS + s],
        turned: held[BROKEN_WORDS + s + 1],
    };
    let more = precedence::grow_marks(members, route, from, end, before);
    put_marks(held, segment, more);
}

// The words of every middle segment, from those held of the cut sets before with the same first cuts.
pub fn reach_marks(members: &[u64], route: &[u32], cuts: &[usize], held: &mut [u64; MARK_PLACES])
    requires { MarksAsked members.now route.now cuts.now held.old }
    ensures { MarksReached members.now route.now cuts.now held.old held.new }
{
    let last = cuts.len() - 1;
    let reach = cuts[last] as u64;
    let reached = held[MARK_REACH];
    if reached == 0 {
        fill_marks(members, route, cuts, last, held);
    } else {
        stretch_marks(members, route, cuts, held);
    }
    held[MARK_REACH] = reach;
}

// The same where there are pairs. Where there are none, `members` is empty and the places hold 0, which are the words of no pairs.
pub fn mark_states(members: &[u64], route: &[u32], cuts: &[usize], held: &mut [u64; MARK_PLACES])
    requires { MarksTellable members.now route.now cuts.now held.old }
    ensures { MarksTold members.now route.now cuts.now held.old held.new }
{
    if members.len() == 0 {
        return;
    }
    reach_marks(members, route, cuts, held);
}

// Whether every pair is kept along the first `m` states of row i: by the seconds passed, and by what each state breaks.
pub fn row_in_order(rows: &[u8; ROW_BYTES], held: &[u64; MARK_PLACES], i: usize, m: usize) -> bool
    requires { RowOrdered rows.now held.now i m }
    ensures { result ≡ in_order held.now 0 (slice (4 * i) (4 * i + m) rows.now) }
{
    let mut passed = 0u64;
    for at in ROW * i..ROW * i + m {
        let state = scan_joints::wide(rows[at]);
        let broken = (held[state / 2] & passed) | held[BROKEN_WORDS + state];
        if broken != 0 {
            return false;
        }
        passed = passed | held[SECOND_WORDS + state / 2];
    }
    true
}

// ---- where a route may be cut, with pairs or without

// The longest head that keeps its pairs.
pub fn head_limit(members: &[u64], route: &[u32]) -> usize
    requires { RouteTellable members.now route.now }
    ensures { HeadLimit members.now route.now result }
{
    if members.len() == 0 {
        return route.len();
    }
    precedence::front_reach(members, route)
}

// Where the longest tail begins that does.
pub fn tail_since(members: &[u64], route: &[u32]) -> usize
    requires { RouteTellable members.now route.now }
    ensures { TailSince members.now route.now result }
{
    if members.len() == 0 {
        return 0;
    }
    precedence::back_since(members, route)
}
