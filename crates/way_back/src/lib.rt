// The way back of a move by its index, judged: the index of its pattern and its cuts, into a lent result.
#![tactic(auto)]

ghost use Rattle.std.specs.Prelude.{◌≡◌, cond, [], ◌∷◌, ◌++◌, ◌+◌, ◌*◌, ◌≤◌, ◌<◌, ltb, length, get_or, drop};
ghost use Rattle.theory.specs.Numbers.{judged};
ghost use Rattle.theory.specs.Refusals.{refusal};
ghost use Rattle.inverse.specs.WayBack.{inverse_order, inverse_mask, segment_size, ends};
ghost use Rattle.inverse.specs.PatternIndex.{below, rank, index_of};
ghost use Rattle.inverse.specs.GoesBack.{back_values};
ghost use Rattle.way_back.specs.WayBack.{OrderPlaces, SizedSegment, CutPlaces, ListedPattern, Invertible, sizes_of, way_back_rules, WayBackReply};

use theory::Refusal;

// ---- the order and the mask

fn wide(segment: u8) -> usize
    ensures { result ≡ segment }
{
    segment as usize
}

// What arrived at a place goes back to where it stood.
fn put_inverse_order(order: &[u8], back: &mut [u8])
    requires { OrderPlaces order.now back.old }
    ensures { back.new ≡ inverse_order order.now }
{
    for i in 0..order.len() {
        let segment = wide(order[i]);
        back[segment] = i as u8;
    }
}

// A bit below the others.
fn with_bit(bits: u8, low: bool) -> u8
    requires { bits ≤ 127 }
    ensures { result ≡ cond low 1 0 + 2 * bits }
{
    u8::from(low) + 2 * bits
}

// The lowest bit is that of the segment which arrived first.
fn inverse_mask(order: &[u8], mask: u8) -> u8
    requires { length order.now ≤ 6 }
    ensures { result ≡ inverse_mask order.now mask }
{
    let mut bits = 0;
    let mut i = order.len();
    while i > 0 {
        i -= 1;
        let segment = wide(order[i]);
        bits = with_bit(bits, reconnection::should_reverse(mask, segment));
    }
    bits
}

// ---- the index

// 1 where a segment is below another.
fn hit(found: u8, segment: u8) -> usize
    ensures { result ≡ cond (ltb found segment) 1 0 }
{
    usize::from(found < segment)
}

// How many segments of a list are below one.
fn count_below(list: &[u8], segment: u8) -> usize
    ensures { result ≡ below segment list.now }
{
    let mut sum = 0;
    for i in 0..list.len() {
        sum += hit(list[i], segment);
    }
    sum
}

// How many orders of the same segments come before this one: the first segments weigh most.
fn rank_of(order: &[u8]) -> usize
    requires { length order.now ≤ 4 }
    ensures { (result ≡ rank order.now) × (result < 24) }
{
    let n = order.len();
    let mut sum = 0;
    for i in 0..n {
        let behind = i + 1;
        sum = sum * (n - i) + count_below(&order[behind..], order[i]);
    }
    sum
}

// The index of the inverse of a pattern: after the masks of all orders before its own, the arrangement that changes nothing left out.
fn inverse_index(k: usize, order: &[u8], mask: u8) -> usize
    requires { ListedPattern k order.now mask }
    ensures { result ≡ index_of k (record { order = inverse_order order.now; mask = inverse_mask order.now mask }) }
{
    let mut back = [0u8; 6];
    let segments = k + 1;
    put_inverse_order(order, &mut back[..segments]);
    let orders = rank_of(&back[1..k]);
    let turned = wide(inverse_mask(order, mask) / 2);
    (orders << (k - 1)) + turned - 1
}

// ---- the cuts

// Where segment i ends.
fn segment_end(cuts: &[usize], n: usize, i: usize) -> usize
    requires { i ≤ length cuts.now }
    ensures { result ≡ get_or (cuts.now ++ (n ∷ [])) i 0 }
{
    if i < cuts.len() {
        return cuts[i];
    }
    n
}

fn segment_size(cuts: &[usize], n: usize, i: usize) -> usize
    requires { SizedSegment cuts.now n i }
    ensures { result ≡ segment_size cuts.now n i }
{
    let end = segment_end(cuts, n, i);
    if i == 0 {
        return end;
    }
    end - cuts[i - 1]
}

// Where the segments arrive, but for the last.
fn put_inverse_cuts(cuts: &[usize], n: usize, order: &[u8], out: &mut [u64])
    requires { CutPlaces cuts.now n order.now out.old }
    ensures { out.new ≡ ends 0 (sizes_of cuts.now n order.now) }
{
    let mut at = 0;
    for i in 0..cuts.len() {
        let segment = wide(order[i]);
        at += segment_size(cuts, n, segment);
        out[i] = at as u64;
    }
}

// ---- the call

fn put_way_back(k: usize, pattern: usize, n: usize, cuts: &[usize], res: &mut [u64])
    requires { Invertible k pattern n cuts.now res.old }
    ensures { res.new ≡ back_values k pattern n cuts.now ++ drop (k + 1) res.old }
{
    let found = patterns::pattern_at(k, pattern);
    let order = found.segment_order;
    let mask = found.reverse_mask;
    let segments = k + 1;
    res[0] = inverse_index(k, &order[..segments], mask) as u64;
    put_inverse_cuts(cuts, n, &order[..segments], &mut res[1..segments]);
}

#[tactic(auto, using(theory::proofs::Checks::judging), unfolding(theory::specs::Refusals::refusal))]
fn way_back_refusal(
    k: usize,
    pattern: usize,
    n: usize,
    cuts: &[usize],
    lent: usize,
) -> Result<(), Refusal>
    ensures { judged result ≡ refusal (way_back_rules k pattern n cuts.now lent) }
{
    refusals::check_cut_count(k)?;
    refusals::check_stop_count(n)?;
    refusals::check_pattern_index(k, pattern)?;
    refusals::check_cut_positions(k, n, cuts)?;
    refusals::check_room(k + 1, lent)
}

// The way back of the move with the pattern of an index at cuts of a route of n stops: the index of its pattern, then its k cuts. Refuses 1, 5, 6, 7, 21.
#[tactic(auto, using(crate::proofs::Replies::replies))]
pub fn way_back(
    k: usize,
    pattern: usize,
    n: usize,
    cuts: &[usize],
    res: &mut [u64],
) -> Result<(), Refusal>
    ensures { WayBackReply k pattern n cuts.now res.old (judged result) res.new }
{
    way_back_refusal(k, pattern, n, cuts, res.len())?;
    put_way_back(k, pattern, n, cuts, res);
    Ok(())
}
