// A list of patterns loaded from text into lent rows: read, judged on the whole, and only then written. No entry: crate mittenschist hands it on.
#![tactic(auto)]

ghost use Rattle.std.specs.Prelude.{◌≡◌, map, ◌-◌, length};
ghost use Rattle.theory.specs.Refusals.{number, refusal};
ghost use Rattle.theory.specs.Numbers.{judged};
ghost use Rattle.pattern_list_loading.specs.Loading.{LoadReply, DigitsOf, TookRow, Takeable, Took, JudgedRows, LargestPlaces, LoadedBy, Whole, HandedOver, announced_rows, sizes, room_rules};

use theory::Refusal;

// The places of the longest list, 383 rows for 5 cuts: arrays, since the library has no heap.
const ORDER_PLACES: usize = 2298;

const ROW_PLACES: usize = 383;

// The values of digits.
fn put_digits(digits: &[u8], out: &mut [u8])
    requires { DigitsOf digits.now out.old }
    ensures { out.new ≡ map (λ b. b - 48) digits.now }
{
    for i in 0..digits.len() {
        out[i] = digits[i] - b'0';
    }
}

// The row in front of a text, if it fits its places: its order into them, its mask, and the rest of the text.
fn take_row<'t>(text: &'t [u8], order: &mut [u8]) -> Option<(u8, &'t [u8])>
    ensures { TookRow text.now result order.new }
{
    let (row, rest) = pattern_list_text::read_row(text)?;
    if row.digits.len() != order.len() {
        return None;
    }
    if row.mask > 255 {
        return None;
    }
    put_digits(row.digits, order);
    Some((row.mask as u8, rest))
}

// All rows of a text, if each fits its places.
fn take_rows(text: &[u8], k: usize, orders: &mut [u8], masks: &mut [u8]) -> bool
    requires { Takeable text.now k orders.old masks.old }
    ensures { Took text.now k result orders.new masks.new }
{
    let width = k + 1;
    let mut rest = text;
    for i in 0..masks.len() {
        let start = i * width;
        let end = start + width;
        let Some((mask, next)) = take_row(rest, &mut orders[start..end]) else {
            return false;
        };
        masks[i] = mask;
        rest = next;
    }
    true
}

// The rows, in the one order: 27 of any row before 28. A row that does not fit its places is no pattern for k.
fn judge_rows(text: &[u8], k: usize, orders: &mut [u8], masks: &mut [u8]) -> Result<(), Refusal>
    requires { Takeable text.now k orders.old masks.old }
    ensures { JudgedRows text.now k (judged result) orders.new masks.new }
{
    if take_rows(text, k, orders, masks) {
        return pattern_lists::rows_refusal(k, &orders[..], &masks[..]);
    }
    Err(Refusal::RowShape)
}

fn check_announced(announced: u32, count: usize) -> Result<(), Refusal>
    ensures { judged result ≡ number (announced_rows announced count) }
{
    if announced as usize != count {
        return Err(Refusal::RowCount);
    }
    Ok(())
}

// k and the number of rows.
#[tactic(auto, using(theory::proofs::Checks::judging), unfolding(theory::specs::Refusals::refusal))]
fn check_sizes(k: u32, announced: u32, count: usize) -> Result<(), Refusal>
    ensures { judged result ≡ refusal (sizes k announced count) }
{
    refusals::check_cut_count(k as usize)?;
    pattern_lists::check_row_count(count)?;
    check_announced(announced, count)
}

// The rows of a text into places that any list has room in; k and the number of rows.
fn load_rows(text: &[u8], orders: &mut [u8], masks: &mut [u8]) -> Result<(usize, usize), Refusal>
    requires { LargestPlaces orders.old masks.old }
    ensures { LoadedBy text.now result orders.new masks.new }
{
    let Some(list) = pattern_list_text::read_list(text) else {
        return Err(Refusal::TextForm);
    };
    let count = list.count;
    check_sizes(list.k, list.announced, count)?;
    let k = list.k as usize;
    let places = count * (k + 1);
    judge_rows(list.rows, k, &mut orders[..places], &mut masks[..count])?;
    Ok((k, count))
}

#[tactic(auto, using(theory::proofs::Checks::judging), unfolding(theory::specs::Refusals::refusal))]
fn check_rooms(
    places: usize,
    count: usize,
    orders: &[u8],
    masks: &[u8],
    res: &[u64],
) -> Result<(), Refusal>
    ensures { judged result ≡ refusal (room_rules places count (length orders.now) (length masks.now) (length res.now)) }
{
    refusals::check_room(places, orders.len())?;
    refusals::check_room(count, masks.len())?;
    refusals::check_room(2, res.len())
}

// A list that was judged, into the lent places, if there is room.
fn hand_over(
    k: usize,
    from_orders: &[u8],
    from_masks: &[u8],
    orders: &mut [u8],
    masks: &mut [u8],
    res: &mut [u64],
) -> Result<(), Refusal>
    requires { Whole k from_orders.now from_masks.now }
    ensures { HandedOver k from_orders.now from_masks.now orders.old masks.old res.old (judged result) orders.new masks.new res.new }
{
    let places = from_orders.len();
    let count = from_masks.len();
    check_rooms(places, count, orders, masks, res)?;
    orders[..places].copy_from_slice(from_orders);
    masks[..count].copy_from_slice(from_masks);
    res[0] = k as u64;
    res[1] = count as u64;
    Ok(())
}

// A text's list into lent rows, and its k and number of rows into the first places of the result. Refuses 10, 1, 26, 27, 28, 21.
pub fn load_patterns(
    text: &[u8],
    orders: &mut [u8],
    masks: &mut [u8],
    res: &mut [u64],
) -> Result<(), Refusal>
    ensures { LoadReply text.now orders.old masks.old res.old (judged result) orders.new masks.new res.new }
{
    let mut own_orders = [0u8; ORDER_PLACES];
    let mut own_masks = [0u8; ROW_PLACES];
    let (k, count) = load_rows(text, &mut own_orders, &mut own_masks)?;
    let places = count * (k + 1);
    hand_over(
        k,
        &own_orders[..places],
        &own_masks[..count],
        orders,
        masks,
        res,
    )
}
