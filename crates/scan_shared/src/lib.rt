// What the cut sets with the same first k - 1 cuts share: the ends of the states before P, the least cost of each class of patterns and the standing cost, read off a
// table of what the last cut does not move. P is the last middle segment, which the last cut ends. No entry: crate scan_stretch calls it.
#![tactic(auto)]

ghost use Rattle.std.specs.Prelude.{◌≡◌, [], ◌∷◌, ℕ, ◌+◌, ◌^◌, ◌<◌, ◌≤◌, length, get_or};
ghost use Rattle.scan_joints.specs.States.{row};
ghost use Rattle.scan_shared.specs.Filling.{all_open, Lowered, Classable, ClassIs, RowClassable, LowFillable, LowOf, RowOpen, RowLowered, OpenFillable, OpenLow, Lowerable, Relowered, Fixable, FixedRows, FixedTable, Preparable, Sharing};

use scan_joints::{CELLS, HEAD, ROW, ROW_BYTES, STATES, TAIL};
use theory::STOPS;

// The least costs by class: at a state or the tail where that follows P as it stands, at REVERSED and a state or the head where P reversed follows that. Behind them is
// the standing cost.
pub const REVERSED: usize = 10;

pub const AFTER_HEAD: usize = REVERSED + HEAD;

pub const STANDING: usize = 20;

pub const LOW_PLACES: usize = 21;

// The signs of the rows, or none, and what is blocked: a row that has a sign of it is closed.
#[derive(Clone, Copy)]
pub struct Closing<'r> {
    pub signs: &'r [u16],
    pub blocked: u16,
}

// The least costs, places that hold nothing, and whether a row is open that the least costs are of.
#[derive(Drop)]
pub struct LeastCosts {
    pub low: [u64; LOW_PLACES],
    pub zero: [u64; LOW_PLACES],
    pub some: bool,
}

// Lowers the least cost of class c.
fn lower(low: &mut [u64; LOW_PLACES], c: usize, cost: u64)
    requires { (length low.old ≡ 21) × (c < 21) }
    ensures { Lowered low.old c cost low.new }
{
    if low[c] <= cost {
        return;
    }
    low[c] = cost;
}

// The class of four states: what follows P as it stands, or 10 + what P reversed follows.
fn class_of(p: usize, a: usize, b: usize, c: usize, d: usize) -> usize
    requires { Classable p a b c d }
    ensures { ClassIs p (a ∷ b ∷ c ∷ d ∷ []) result }
{
    if a == p {
        return b;
    }
    if a == p + 1 {
        return AFTER_HEAD;
    }
    if b == p {
        return c;
    }
    if b == p + 1 {
        return REVERSED + a;
    }
    if c == p {
        return d;
    }
    if c == p + 1 {
        return REVERSED + b;
    }
    if d == p + 1 {
        return REVERSED + c;
    }
    TAIL
}

// The class of row i.
fn row_class(rows: &[u8; ROW_BYTES], i: usize, p: usize) -> usize
    requires { RowClassable rows.now i p }
    ensures { ClassIs p (row rows.now i) result }
{
    let at = ROW * i;
    let a = scan_joints::wide(rows[at]);
    let b = scan_joints::wide(rows[at + 1]);
    let c = scan_joints::wide(rows[at + 2]);
    let d = scan_joints::wide(rows[at + 3]);
    class_of(p, a, b, c, d)
}

// No class has a cost: each place holds more than any row costs.
fn clear_low(low: &mut [u64; LOW_PLACES])
    requires { length low.old ≡ 21 }
    ensures { (length low.new ≡ 21) × ((c : ℕ) → get_or low.new c 0 ≤ 2 ^ 40) }
{
    for c in 0..LOW_PLACES {
        low[c] = 1099511627776;
    }
}

// The least cost of each class.
fn fill_low(
    rows: &[u8; ROW_BYTES],
    count: usize,
    p: usize,
    table: &[u64; CELLS],
    low: &mut [u64; LOW_PLACES],
)
    requires { LowFillable rows.now count p table.now low.old }
    ensures { LowOf all_open rows.now count p table.now low.new }
{
    for i in 0..count {
        let class = row_class(rows, i, p);
        lower(low, class, scan_joints::chain4(table, rows, i));
    }
}

// Row i, if it is open; `some` tells of those before it.
fn lower_row(
    rows: &[u8; ROW_BYTES],
    i: usize,
    p: usize,
    table: &[u64; CELLS],
    signs: &[u16],
    blocked: u16,
    some: bool,
    low: &mut [u64; LOW_PLACES],
) -> bool
    requires { RowOpen rows.now i p table.now signs.now low.old }
    ensures { RowLowered rows.now i p table.now signs.now blocked some low.old low.new result }
{
    if signs[i] & blocked != 0 {
        return some;
    }
    let class = row_class(rows, i, p);
    lower(low, class, scan_joints::chain4(table, rows, i));
    true
}

// The least cost of each class over the open rows, and whether there are any.
fn fill_open(
    rows: &[u8; ROW_BYTES],
    count: usize,
    p: usize,
    table: &[u64; CELLS],
    signs: &[u16],
    blocked: u16,
    low: &mut [u64; LOW_PLACES],
) -> bool
    requires { OpenFillable rows.now count p table.now signs.now blocked low.old × (0 < blocked) }
    ensures { OpenLow signs.now blocked rows.now count p table.now low.new result }
{
    let mut some = false;
    for i in 0..count {
        some = lower_row(rows, i, p, table, signs, blocked, some, low);
    }
    some
}

// The same, where nothing may be closed.
fn fill_classes(
    rows: &[u8; ROW_BYTES],
    count: usize,
    p: usize,
    table: &[u64; CELLS],
    signs: &[u16],
    blocked: u16,
    low: &mut [u64; LOW_PLACES],
) -> bool
    requires { OpenFillable rows.now count p table.now signs.now blocked low.old }
    ensures { OpenLow signs.now blocked rows.now count p table.now low.new result }
{
    if blocked == 0 {
        fill_low(rows, count, p, table, low);
        return true;
    }
    fill_open(rows, count, p, table, signs, blocked, low)
}

// The least costs anew, over the rows that are open now; the standing cost stays.
pub fn lower_again(
    rows: &[u8; ROW_BYTES],
    count: usize,
    p: usize,
    table: &[u64; CELLS],
    signs: &[u16],
    blocked: u16,
    low: &mut [u64; LOW_PLACES],
) -> bool
    requires { Lowerable rows.now count p table.now signs.now blocked low.old }
    ensures { Relowered signs.now blocked rows.now count p table.now low.old low.new result }
{
    let standing = low[STANDING];
    clear_low(low);
    let some = fill_classes(rows, count, p, table, signs, blocked, low);
    low[STANDING] = standing;
    some
}

// The rows of the states before P.
fn fill_fixed_rows(
    locations: usize,
    legs: &[u32],
    p: usize,
    entries: &[u32; STATES],
    exits: &[u32; STATES],
    inside: &[u64; STATES],
    table: &mut [u64; CELLS],
)
    requires { Fixable locations legs.now p entries.now exits.now inside.now table.old }
    ensures { FixedRows locations legs.now p entries.now exits.now inside.now p table.new }
{
    for a in 0..p {
        scan_joints::fill_row(locations, legs, exits[a], p + 1, entries, inside, a, table);
    }
}

// The shared table: the row of P as it stands stays empty.
fn fill_fixed(
    locations: usize,
    legs: &[u32],
    head: u32,
    p: usize,
    entries: &[u32; STATES],
    exits: &[u32; STATES],
    inside: &[u64; STATES],
    table: &mut [u64; CELLS],
)
    requires { Fixable locations legs.now p entries.now exits.now inside.now table.old × (head < locations) }
    ensures { FixedTable locations legs.now head p entries.now exits.now inside.now table.new }
{
    fill_fixed_rows(locations, legs, p, entries, exits, inside, table);
    let back = p + 1;
    scan_joints::fill_row(
        locations,
        legs,
        exits[back],
        back,
        entries,
        inside,
        back,
        table,
    );
    scan_joints::fill_row(locations, legs, head, back, entries, inside, HEAD, table);
}

// What the cut sets with these first cuts share: the ends of the states before P, the least cost of each class over the open rows, and the standing cost. The table may hold
// what it held of other first cuts: what the last cut moves is never filled, and stays empty.
pub fn prepare(
    locations: usize,
    legs: &[u32],
    depot: u32,
    route: &[u32],
    forward: &[u64; STOPS],
    backward: &[u64; STOPS],
    cuts: &[usize],
    rows: &[u8; ROW_BYTES],
    count: usize,
    signs: &[u16],
    blocked: u16,
    entries: &mut [u32; STATES],
    exits: &mut [u32; STATES],
    inside: &mut [u64; STATES],
    low: &mut [u64; LOW_PLACES],
    table: &mut [u64; CELLS],
) -> bool
    requires { Preparable locations legs.now depot route.now forward.now backward.now cuts.now rows.now count signs.now blocked entries.old exits.old inside.old low.old table.old }
    ensures { Sharing locations legs.now depot route.now cuts.now rows.now count signs.now blocked entries.new exits.new inside.new low.new table.new result }
{
    let p = 2 * (cuts.len() - 2);
    scan_joints::fill_ends(route, forward, backward, cuts, entries, exits, inside);
    let head = costs::head_end(depot, route, cuts);
    fill_fixed(locations, legs, head, p, entries, exits, inside, table);
    clear_low(low);
    let some = fill_classes(rows, count, p, table, signs, blocked, low);
    low[STANDING] = scan_joints::standing_cost(table, cuts.len());
    some
}
