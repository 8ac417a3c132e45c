// The joint table of a cut set, from that of one before it with the same first cuts: along those the last cut moves only P, the last middle segment, and the
// tail, so only their cells are filled anew. No entry: the crates above call it.
#![tactic(auto)]

ghost use Rattle.scan_reach.specs.Moving.{RowMovable, RowMoved, RowsMovable, RowsMoved, RowsFixable, RowsFixed, Fixable, JointFixed, Movable, JointMoved};
ghost use Rattle.scan_reach.specs.Reach.{JointAsked, JointReached};

use scan_joints::{CELLS, HEAD, STATES, TAIL, WIDTH};
use theory::STOPS;

// A place of the table that no state uses: 0 before anything is held.
pub const HELD: usize = WIDTH * HEAD + HEAD;

// The cells of row a that the last cut moves, for a state that is left at the stop `from`.
fn move_row(
    locations: usize,
    legs: &[u32],
    from: u32,
    front: u32,
    back: u32,
    tail: u32,
    on: u64,
    turned: u64,
    p: usize,
    a: usize,
    joint: &mut [u64; CELLS],
)
    requires { RowMovable locations legs.now from front back tail on turned p a joint.old }
    ensures { RowMoved locations legs.now from front back tail on turned p a joint.old joint.new }
{
    let at = WIDTH * a;
    joint[at + p] = costs::route_distance(locations, legs, from, front) + on;
    joint[at + p + 1] = costs::route_distance(locations, legs, from, back) + turned;
    joint[at + TAIL] = costs::route_distance(locations, legs, from, tail);
}

// Those of the states before P.
fn move_rows(
    locations: usize,
    legs: &[u32],
    exits: &[u32; STATES],
    front: u32,
    back: u32,
    tail: u32,
    on: u64,
    turned: u64,
    p: usize,
    joint: &mut [u64; CELLS],
)
    requires { RowsMovable locations legs.now exits.now front back tail on turned p joint.old }
    ensures { RowsMoved locations legs.now exits.now front back tail on turned p joint.old joint.new }
{
    for a in 0..p {
        move_row(
            locations, legs, exits[a], front, back, tail, on, turned, p, a, joint,
        );
    }
}

// The cells among the states before P.
fn fix_rows(
    locations: usize,
    legs: &[u32],
    entries: &[u32; STATES],
    exits: &[u32; STATES],
    inside: &[u64; STATES],
    p: usize,
    joint: &mut [u64; CELLS],
)
    requires { RowsFixable locations legs.now entries.now exits.now inside.now p joint.old }
    ensures { RowsFixed locations legs.now entries.now exits.now inside.now p joint.new }
{
    for a in 0..p {
        scan_joints::fill_row(locations, legs, exits[a], p, entries, inside, a, joint);
    }
}

// The cells that the last cut does not move, once.
fn fix_joint(
    locations: usize,
    legs: &[u32],
    head: u32,
    front: u32,
    entries: &[u32; STATES],
    exits: &[u32; STATES],
    inside: &[u64; STATES],
    p: usize,
    joint: &mut [u64; CELLS],
)
    requires { Fixable locations legs.now head front entries.now exits.now inside.now p joint.old }
    ensures { JointFixed locations legs.now head front entries.now exits.now inside.now p joint.new }
{
    if joint[HELD] != 0 {
        return;
    }
    joint[HELD] = 1;
    fix_rows(locations, legs, entries, exits, inside, p, joint);
    scan_joints::fill_row(locations, legs, front, p, entries, inside, p + 1, joint);
    scan_joints::fill_row(locations, legs, head, p, entries, inside, HEAD, joint);
}

// The cells that the last cut moves: those to P and the tail, and all from P as it stands.
fn move_joint(
    locations: usize,
    legs: &[u32],
    head: u32,
    front: u32,
    back: u32,
    tail: u32,
    on: u64,
    turned: u64,
    entries: &[u32; STATES],
    exits: &[u32; STATES],
    inside: &[u64; STATES],
    p: usize,
    joint: &mut [u64; CELLS],
)
    requires { Movable locations legs.now head front back tail on turned entries.now exits.now inside.now p joint.old }
    ensures { JointMoved locations legs.now head front back tail on turned entries.now exits.now inside.now p joint.new }
{
    move_rows(
        locations, legs, exits, front, back, tail, on, turned, p, joint,
    );
    scan_joints::fill_row(locations, legs, back, p, entries, inside, p, joint);
    move_row(
        locations, legs, back, front, back, tail, on, turned, p, p, joint,
    );
    move_row(
        locations,
        legs,
        front,
        front,
        back,
        tail,
        on,
        turned,
        p,
        p + 1,
        joint,
    );
    move_row(
        locations, legs, head, front, back, tail, on, turned, p, HEAD, joint,
    );
}

// The joint table of a cut set; `entries`, `exits` and `inside` hold the states before P.
pub fn reach_joint(
    locations: usize,
    legs: &[u32],
    depot: u32,
    end: u32,
    route: &[u32],
    forward: &[u64; STOPS],
    backward: &[u64; STOPS],
    cuts: &[usize],
    entries: &[u32; STATES],
    exits: &[u32; STATES],
    inside: &[u64; STATES],
    joint: &mut [u64; CELLS],
)
    requires { JointAsked locations legs.now depot end route.now forward.now backward.now cuts.now entries.now exits.now inside.now joint.old }
    ensures { JointReached locations legs.now depot end route.now cuts.now joint.new }
{
    let p = 2 * (cuts.len() - 2);
    let start = cuts[cuts.len() - 2];
    let last = cuts[cuts.len() - 1];
    let front = route[start];
    let back = route[last - 1];
    let head = costs::head_end(depot, route, cuts);
    let tail = costs::tail_start(end, route, cuts);
    fix_joint(
        locations, legs, head, front, entries, exits, inside, p, joint,
    );
    let on = costs::inner(forward, start, last);
    let turned = costs::inner(backward, start, last);
    move_joint(
        locations, legs, head, front, back, tail, on, turned, entries, exits, inside, p, joint,
    );
}
