// What all patterns on a cut set share: the ends of the states, and the joint table, whose cell (a, b) holds the seconds from the end of state a to the end
// of state b, so that a candidate, as a row of states, costs the sum of five cells. It holds no entry: the crates above call it.
#![tactic(auto)]

ghost use Rattle.std.specs.Prelude.{◌≡◌, [], ◌∷◌, ◌+◌, ◌<◌, length, set};
ghost use Rattle.scan_joints.specs.States.{state_count, standing_row, row};
ghost use Rattle.scan_joints.specs.JointTable.{chain, Chainable, EndsPuttable, EndsPut, EndsFillable, StateEnds, Standing, FourStates, CellAt, Cell, RowFillable, RowFilled};

use theory::{PATTERNS, STOPS};

// The states in which a segment is placed: the head as it stands, the tail too, a middle segment, at most four, as it stands or reversed.
//
//     segment       head  1  2  3  4  tail
//     as it stands     9  0  2  4  6     8
//     reversed            1  3  5  7
//
// A candidate is a row of four: the states of its middle segments as they follow each other, and the tail in the places left.
pub const STATES: usize = 8;

pub const TAIL: usize = 8;

pub const HEAD: usize = 9;

pub const ROW: usize = 4;

pub const ROW_BYTES: usize = ROW * PATTERNS;

// The joint table: from each state, the tail and the head a line of so many cells, to the states and the tail.
pub const WIDTH: usize = 16;

pub const CELLS: usize = 10 * WIDTH;

// Where each state is entered and left, and the legs inside it.
#[derive(Drop)]
pub struct EndStops {
    pub entries: [u32; STATES],
    pub exits: [u32; STATES],
    pub inside: [u64; STATES],
}

// Two stops as s and s + 1.
fn put_two(ends: &mut [u32; STATES], s: usize, first: u32, second: u32)
    requires { (length ends.old ≡ 8) × (s + 1 < 8) }
    ensures { ends.new ≡ set (set ends.old s first) (s + 1) second }
{
    ends[s] = first;
    ends[s + 1] = second;
}

// The two states of route[start..end], as s and s + 1.
fn put_ends(
    route: &[u32],
    forward: &[u64; STOPS],
    backward: &[u64; STOPS],
    start: usize,
    end: usize,
    s: usize,
    entries: &mut [u32; STATES],
    exits: &mut [u32; STATES],
    inside: &mut [u64; STATES],
)
    requires { EndsPuttable route.now forward.now backward.now start end s entries.old exits.old inside.old }
    ensures { EndsPut route.now forward.now backward.now start end s entries.old exits.old inside.old entries.new exits.new inside.new }
{
    let front = route[start];
    let back = route[end - 1];
    put_two(entries, s, front, back);
    put_two(exits, s, back, front);
    inside[s] = costs::inner(forward, start, end);
    inside[s + 1] = costs::inner(backward, start, end);
}

// Where each state of a middle segment is entered and left, and the legs inside it.
pub fn fill_ends(
    route: &[u32],
    forward: &[u64; STOPS],
    backward: &[u64; STOPS],
    cuts: &[usize],
    entries: &mut [u32; STATES],
    exits: &mut [u32; STATES],
    inside: &mut [u64; STATES],
)
    requires { EndsFillable route.now forward.now backward.now cuts.now entries.old exits.old inside.old }
    ensures { StateEnds route.now forward.now backward.now cuts.now (state_count (length cuts.now)) entries.new exits.new inside.new }
{
    for i in 1..cuts.len() {
        let s = 2 * i - 2;
        put_ends(
            route,
            forward,
            backward,
            cuts[i - 1],
            cuts[i],
            s,
            entries,
            exits,
            inside,
        );
    }
}

// The cells of row a up to state `count`, for a state that is left at the stop `from`.
pub fn fill_row(
    locations: usize,
    legs: &[u32],
    from: u32,
    count: usize,
    entries: &[u32; STATES],
    inside: &[u64; STATES],
    a: usize,
    table: &mut [u64; CELLS],
)
    requires { RowFillable locations legs.now from count entries.now inside.now a table.old }
    ensures { RowFilled locations legs.now from count entries.now inside.now a table.old table.new }
{
    let start = WIDTH * a;
    for b in 0..count {
        table[start + b] = costs::route_distance(locations, legs, from, entries[b]) + inside[b];
    }
}

// A cell of the table.
fn cell(joint: &[u64; CELLS], a: usize, b: usize) -> u64
    requires { CellAt joint.now a b }
    ensures { Cell joint.now a b result }
{
    joint[WIDTH * a + b]
}

// From the head through four states to the tail.
fn add_cells(joint: &[u64; CELLS], a: usize, b: usize, c: usize, d: usize) -> u64
    requires { FourStates joint.now a b c d }
    ensures { result ≡ chain joint.now 9 (a ∷ b ∷ c ∷ d ∷ []) }
{
    let first = cell(joint, HEAD, a) + cell(joint, a, b);
    first + cell(joint, b, c) + cell(joint, c, d) + cell(joint, d, TAIL)
}

pub fn wide(state: u8) -> usize
    ensures { result ≡ state }
{
    state as usize
}

// The cost of a pattern: its row's cells added up.
pub fn chain4(joint: &[u64; CELLS], rows: &[u8; ROW_BYTES], i: usize) -> u64
    requires { Chainable joint.now rows.now i }
    ensures { result ≡ chain joint.now 9 (row rows.now i) }
{
    let at = ROW * i;
    let a = wide(rows[at]);
    let b = wide(rows[at + 1]);
    let c = wide(rows[at + 2]);
    let d = wide(rows[at + 3]);
    add_cells(joint, a, b, c, d)
}

// The cost of the segments as they stand.
pub fn standing_cost(joint: &[u64; CELLS], k: usize) -> u64
    requires { Standing joint.now k }
    ensures { result ≡ chain joint.now 9 (standing_row k) }
{
    match k {
        2 => add_cells(joint, 0, TAIL, TAIL, TAIL),
        3 => add_cells(joint, 0, 2, TAIL, TAIL),
        4 => add_cells(joint, 0, 2, 4, TAIL),
        _ => add_cells(joint, 0, 2, 4, 6),
    }
}
