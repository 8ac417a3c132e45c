// The rows that are open, put together, so that a search looks at no other. No entry.
#![tactic(auto)]

ghost use Rattle.std.specs.Prelude.{◌≡◌, cond, ◌+◌, ◌<◌, length, get_or};
ghost use Rattle.scan_shared.specs.Filling.{open_by};
ghost use Rattle.scan_sifting.specs.Sifting.{opens, Sifted, Siftable, OpenAsked, OneAsked, RowSiftable, RowSifted};

use scan_joints::{ROW, ROW_BYTES};

// Row i behind the first `count` rows at hand, if it is open; how many there are then.
fn put_open(
    rows: &[u8; ROW_BYTES],
    i: usize,
    signs: &[u16],
    blocked: u16,
    count: usize,
    hand: &mut [u8; ROW_BYTES],
) -> usize
    requires { RowSiftable rows.now i signs.now count hand.old }
    ensures { RowSifted (open_by signs.now blocked) rows.now i count hand.old hand.new result }
{
    if signs[i] & blocked != 0 {
        return count;
    }
    let from = ROW * i;
    let to = ROW * count;
    hand[to] = rows[from];
    hand[to + 1] = rows[from + 1];
    hand[to + 2] = rows[from + 2];
    hand[to + 3] = rows[from + 3];
    count + 1
}

// The open ones among the first `patterns` rows; how many there are.
pub fn sift_rows(
    rows: &[u8; ROW_BYTES],
    patterns: usize,
    signs: &[u16],
    blocked: u16,
    hand: &mut [u8; ROW_BYTES],
) -> usize
    requires { Siftable rows.now patterns signs.now hand.old }
    ensures { (result ≡ length (opens (open_by signs.now blocked) patterns)) × Sifted (open_by signs.now blocked) rows.now patterns hand.new }
{
    let mut count = 0;
    for i in 0..patterns {
        count = put_open(rows, i, signs, blocked, count, hand);
    }
    count
}

// One more, if row i is open.
fn one_more(signs: &[u16], blocked: u16, i: usize, count: usize) -> usize
    requires { OneAsked signs.now i count }
    ensures { result ≡ cond (open_by signs.now blocked i) (count + 1) count }
{
    if signs[i] & blocked != 0 {
        return count;
    }
    count + 1
}

// How many of the first `limit` rows are open.
pub fn open_before(signs: &[u16], blocked: u16, limit: usize) -> usize
    requires { OpenAsked signs.now limit }
    ensures { result ≡ length (opens (open_by signs.now blocked) limit) }
{
    let mut count = 0;
    for i in 0..limit {
        count = one_more(signs, blocked, i, count);
    }
    count
}

// The number of the n-th open row among the first `limit`.
pub fn open_row(signs: &[u16], blocked: u16, n: usize, limit: usize) -> usize
    requires open_asked { OpenAsked signs.now limit }
    requires n_in_bounds { n < length (opens (open_by signs.now blocked) limit) }
    ensures { result ≡ get_or (opens (open_by signs.now blocked) limit) n 0 }
{
    let mut count = 0;
    for i in 0..limit {
        count = one_more(signs, blocked, i, count);
        if n < count {
            return i;
        }
    }
    limit
}
