// The patterns as rows of states, for the chains of crate scan_joints. It holds no entry: crate polishing calls it.
#![tactic(auto)]

ghost use Rattle.std.specs.Prelude.{◌≡◌, cond, ◌+◌, ◌<◌, ◌≤◌, ltb, length, get_or};
ghost use Rattle.scan_joints.specs.States.{state_of, StateRows};
ghost use Rattle.scan_rows.specs.Rows.{MiddleOrder, StateAt, RowsFillable, RowPut};

use scan_joints::{ROW, ROW_BYTES, TAIL};

// The state in which the mask places a middle segment.
fn state(mask: u8, segment: u8) -> u8
    requires { (1 ≤ segment) × (segment ≤ 4) }
    ensures { StateAt mask segment result }
{
    if reconnection::should_reverse(mask, segment as usize) {
        return 2 * segment - 1;
    }
    2 * segment - 2
}

// The state at place p of a pattern's row: that of the middle segment there, or beyond the last one the tail.
fn state_at(k: usize, order: &[u8], mask: u8, p: usize) -> u8
    requires middle_order { MiddleOrder k order.now }
    requires p_bound { p < 4 }
    ensures { (result ≡ cond (ltb (p + 1) k) (state_of mask (get_or order.now (p + 1) 0)) 8) × (result ≤ 8) }
{
    if p + 1 < k {
        return state(mask, order[p + 1]);
    }
    TAIL as u8
}

// The row of one pattern as row i.
fn put_row(k: usize, order: &[u8], mask: u8, i: usize, rows: &mut [u8; ROW_BYTES])
    requires middle_order { MiddleOrder k order.now }
    requires i_bound { (i < 383) × (length rows.old ≡ 1532) }
    ensures { RowPut k order.now mask i rows.old rows.new }
{
    let at = ROW * i;
    rows[at] = state_at(k, order, mask, 0);
    rows[at + 1] = state_at(k, order, mask, 1);
    rows[at + 2] = state_at(k, order, mask, 2);
    rows[at + 3] = state_at(k, order, mask, 3);
}

// The rows of a list of patterns for k cuts.
pub fn fill_rows(k: usize, orders: &[u8], masks: &[u8], rows: &mut [u8; ROW_BYTES])
    requires { RowsFillable k orders.now masks.now rows.old }
    ensures { StateRows k orders.now masks.now (length masks.now) rows.new }
{
    let width = k + 1;
    for i in 0..masks.len() {
        let at = i * width;
        let end = at + width;
        put_row(k, &orders[at..end], masks[i], i, rows);
    }
}
