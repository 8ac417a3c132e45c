// A list of patterns as a caller lends it, judged: the orders end to end, k + 1 segments each, and a mask for each. No entry: the crates of lists call it.
#![tactic(auto)]

ghost use Rattle.std.specs.Prelude.{◌≡◌, cond, [], ◌∷◌, suc, ◌≤◌, ltb, eqb};
ghost use Rattle.std.specs.List.{list_any};
ghost use Rattle.theory.specs.Numbers.{judged};
ghost use Rattle.theory.specs.Route.{count, every};
ghost use Rattle.theory.specs.Tables.{pattern_rows};
ghost use Rattle.theory.specs.Refusals.{number, refusal};
ghost use Rattle.pattern_lists.specs.Lists.{row_count, order_places, row_shapes, row_news, list_rules, permutes, fine_order, fine_mask, fine_row, same_order, same_row, unchanging, repeats, Countable, Counted, Lent, OrderOf};

use theory::Refusal;

// ---- 27: an order and a mask

// 1 where a segment is the one that is counted.
fn hit(found: u8, segment: usize) -> usize
    ensures { result ≡ cond (eqb segment found) 1 0 }
{
    (found as usize == segment) as usize
}

// How often a segment stands in an order.
fn times(order: &[u8], segment: usize) -> usize
    ensures { result ≡ count segment order.now }
{
    let mut sum = 0;
    for &found in order {
        sum += hit(found, segment);
    }
    sum
}

// Whether each of the segments 0 to k stands in it once.
#[tactic(auto, unfolding(theory::specs::Route::every))]
fn each_once(k: usize, order: &[u8]) -> bool
    requires { k ≤ 5 }
    ensures { result ≡ every (suc k) (λ x. eqb (count x order.now) 1) }
{
    let mut each = true;
    for segment in 0..k + 1 {
        each &= times(order, segment) == 1;
    }
    each
}

// Whether a segment above k stands in it.
fn any_above(k: usize, order: &[u8]) -> bool
    ensures { result ≡ list_any (λ x. ltb k x) order.now }
{
    order.iter().any(|&segment| k < segment as usize)
}

// Whether it has each of the segments 0 to k once, and no other.
#[tactic(auto, unfolding(crate::specs::Lists::permutes))]
fn permutes(k: usize, order: &[u8]) -> bool
    requires { k ≤ 5 }
    ensures { result ≡ permutes k order.now }
{
    each_once(k, order) && !any_above(k, order)
}

#[tactic(auto, using(crate::proofs::Orders::fine_order_is))]
fn order_fine(k: usize, order: &[u8]) -> bool
    requires { OrderOf k order.now }
    ensures { result ≡ fine_order k order.now }
{
    order[0] == 0 && order[k] as usize == k && permutes(k, order)
}

fn mask_fine(k: usize, mask: u8) -> bool
    requires { (2 ≤ k) × (k ≤ 5) }
    ensures { result ≡ fine_mask k mask }
{
    mask % 2 == 0 && mask < 1 << k
}

#[tactic(auto, unfolding(crate::specs::Lists::fine_row))]
fn row_fine(k: usize, order: &[u8], mask: u8) -> bool
    requires least { 2 ≤ k }
    requires order { OrderOf k order.now }
    ensures { result ≡ fine_row k (record { order = order.now; mask = mask }) }
{
    order_fine(k, order) && mask_fine(k, mask)
}

// Refused where a row is not fine.
#[tactic(auto, using(crate::proofs::Rows::walking), unfolding(theory::specs::Tables::pattern_rows))]
fn check_shapes(k: usize, orders: &[u8], masks: &[u8]) -> Result<(), Refusal>
    requires { Counted k orders.now masks.now }
    ensures { judged result ≡ number (row_shapes k (pattern_rows k orders.now masks.now)) }
{
    let mut places = orders;
    let mut rest = masks;
    while let [mask, below @ ..] = rest {
        let (order, behind) = places.split_at(k + 1);
        if !row_fine(k, order, *mask) {
            return Err(Refusal::RowShape);
        }
        places = behind;
        rest = below;
    }
    Ok(())
}

// ---- 28: a row and the others

#[tactic(auto, unfolding(crate::specs::Lists::same_order))]
fn orders_same(a: &[u8], b: &[u8]) -> bool
    ensures { result ≡ same_order a.now b.now }
{
    a == b
}

// Masks first: most rows differ there.
#[tactic(auto, unfolding(crate::specs::Lists::same_row))]
fn rows_same(order: &[u8], mask: u8, other_order: &[u8], other_mask: u8) -> bool
    ensures { result ≡ same_row (record { order = order.now; mask = mask }) (record { order = other_order.now; mask = other_mask }) }
{
    mask == other_mask && orders_same(order, other_order)
}

// Whether a row stands in a list.
#[tactic(auto, using(crate::proofs::Rows::walking), unfolding(theory::specs::Tables::pattern_rows))]
fn stands_in(k: usize, order: &[u8], mask: u8, orders: &[u8], masks: &[u8]) -> bool
    requires { Lent k orders.now masks.now }
    ensures { result ≡ list_any (same_row (record { order = order.now; mask = mask })) (pattern_rows k orders.now masks.now) }
{
    let mut places = orders;
    let mut rest = masks;
    while let [other, below @ ..] = rest {
        let (row, behind) = places.split_at(k + 1);
        if rows_same(order, mask, row, *other) {
            return true;
        }
        places = behind;
        rest = below;
    }
    false
}

// Whether a row changes nothing.
#[tactic(auto, using(crate::proofs::Rows::segments_are))]
fn any_unchanging(k: usize, orders: &[u8], masks: &[u8]) -> bool
    requires { Lent k orders.now masks.now }
    ensures { result ≡ list_any (same_row (unchanging k)) (pattern_rows k orders.now masks.now) }
{
    let segments = [0u8, 1, 2, 3, 4, 5];
    stands_in(k, &segments[..k + 1], 0, orders, masks)
}

// Whether a row stands again further down.
#[tactic(auto, using(crate::proofs::Rows::walking), unfolding(theory::specs::Tables::pattern_rows, crate::specs::Lists::repeats))]
fn any_repeated(k: usize, orders: &[u8], masks: &[u8]) -> bool
    requires { Lent k orders.now masks.now }
    ensures { result ≡ repeats (pattern_rows k orders.now masks.now) }
{
    let mut places = orders;
    let mut rest = masks;
    while let [mask, below @ ..] = rest {
        let (order, behind) = places.split_at(k + 1);
        if stands_in(k, order, *mask, behind, below) {
            return true;
        }
        places = behind;
        rest = below;
    }
    false
}

// Refused where a row changes nothing or stands earlier.
fn check_news(k: usize, orders: &[u8], masks: &[u8]) -> Result<(), Refusal>
    requires { Lent k orders.now masks.now }
    ensures { judged result ≡ number (row_news k (pattern_rows k orders.now masks.now)) }
{
    if any_unchanging(k, orders, masks) || any_repeated(k, orders, masks) {
        return Err(Refusal::RowRepeated);
    }
    Ok(())
}

// ---- the list

// The rows, in the one order: 27 of any row before 28.
#[tactic(auto, using(theory::proofs::Checks::judging), unfolding(theory::specs::Refusals::refusal))]
pub fn rows_refusal(k: usize, orders: &[u8], masks: &[u8]) -> Result<(), Refusal>
    requires { Counted k orders.now masks.now }
    ensures { judged result ≡ refusal (row_shapes k (pattern_rows k orders.now masks.now) ∷ row_news k (pattern_rows k orders.now masks.now) ∷ []) }
{
    check_shapes(k, orders, masks)?;
    check_news(k, orders, masks)
}

pub fn check_row_count(rows: usize) -> Result<(), Refusal>
    ensures { judged result ≡ number (row_count rows) }
{
    if rows < 1 || 383 < rows {
        return Err(Refusal::RowCount);
    }
    Ok(())
}

fn check_order_places(k: usize, orders: &[u8], masks: &[u8]) -> Result<(), Refusal>
    requires { Countable k masks.now }
    ensures { judged result ≡ number (order_places k orders.now masks.now) }
{
    if orders.len() != masks.len() * (k + 1) {
        return Err(Refusal::RowCount);
    }
    Ok(())
}

// A lent list, by 1, 26, 27, 28.
#[tactic(auto, using(theory::proofs::Checks::judging), unfolding(theory::specs::Refusals::refusal))]
pub fn list_refusal(k: usize, orders: &[u8], masks: &[u8]) -> Result<(), Refusal>
    ensures { judged result ≡ refusal (list_rules k orders.now masks.now) }
{
    refusals::check_cut_count(k)?;
    check_row_count(masks.len())?;
    check_order_places(k, orders, masks)?;
    rows_refusal(k, orders, masks)
}
