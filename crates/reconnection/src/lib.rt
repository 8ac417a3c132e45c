// A route cut into segments and put together again in the order of a pattern. No entry: the crates above call it.
#![tactic(auto)]

ghost use Rattle.std.specs.Prelude.{◌≡◌, ◌++◌, reverse, ◌+◌, ◌-◌, ◌≤◌, length, take, drop};
ghost use Rattle.theory.specs.Route.{reverses, reverse_if, reconnected};
ghost use Rattle.reconnection.specs.Segments.{bound, SegmentPuttable, Fits, Reconnectable};

// src into dst from `at` on. An entry at a time, here and below: copy_from_slice becomes a call of memmove, which a host need not have.
pub fn copy_in(src: &[u32], dst: &mut [u32], at: usize)
    requires { Fits src.now dst.old at }
    ensures { dst.new ≡ take at dst.old ++ src.now ++ drop (at + length src.now) dst.old }
{
    for i in 0..src.len() {
        dst[at + i] = src[i];
    }
}

// src from its end to its start into dst from `at` on.
fn reverse_in(src: &[u32], dst: &mut [u32], at: usize)
    requires { Fits src.now dst.old at }
    ensures { dst.new ≡ take at dst.old ++ reverse src.now ++ drop (at + length src.now) dst.old }
{
    let n = src.len();
    for i in 0..n {
        dst[at + i] = src[n - 1 - i];
    }
}

// Where segment i begins, and where segment i - 1 ends.
fn segment_start(cuts: &[usize], n: usize, i: usize) -> usize
    requires { i ≤ length cuts.now + 1 }
    ensures { result ≡ bound cuts.now n i }
{
    if i == 0 {
        return 0;
    }
    if i <= cuts.len() {
        return cuts[i - 1];
    }
    n
}

// Whether bit `segment` of the mask is set.
pub fn should_reverse(mask: u8, segment: usize) -> bool
    ensures { result ≡ reverses mask segment }
{
    if segment > 7 {
        return false;
    }
    (mask >> segment) % 2 == 1
}

// The part a..b of the route into out from `at` on, reversed where `flip` says so.
fn put_segment(route: &[u32], a: usize, b: usize, flip: bool, out: &mut [u32], at: usize)
    requires { SegmentPuttable route.now a b out.old at }
    ensures { out.new ≡ take at out.old ++ reverse_if flip (take (b - a) (drop a route.now)) ++ drop (at + (b - a)) out.old }
{
    if flip {
        reverse_in(&route[a..b], out, at);
    } else {
        copy_in(&route[a..b], out, at);
    }
}

// The route after the pattern is applied at the cuts, into out.
pub fn reconnect(route: &[u32], cuts: &[usize], order: &[u8], mask: u8, out: &mut [u32])
    requires { Reconnectable route.now cuts.now order.now out.old }
    ensures { out.new ≡ reconnected (record { cuts = cuts.now; pattern = record { order = order.now; mask = mask } }) route.now }
{
    let n = route.len();
    let mut at = 0;
    for position in 0..order.len() {
        let segment = order[position] as usize;
        let a = segment_start(cuts, n, segment);
        let b = segment_start(cuts, n, segment + 1);
        let flip = should_reverse(mask, segment);
        put_segment(route, a, b, flip, out, at);
        at += b - a;
    }
}
