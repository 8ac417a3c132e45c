// The reconnection patterns for k cuts, after k_opt_reconnection.rs: an order of the k + 1 segments and a reversal mask each. No entry is here.
#![tactic(auto)]

ghost use Rattle.std.specs.Prelude.{◌≡◌, ◌++◌, ◌∷◌, [], ◌-◌, ◌^◌, length};
ghost use Rattle.std.proofs.lemmas.List.Edits.{sets};
ghost use Rattle.theory.specs.Moves.{patterns};
ghost use Rattle.patterns.specs.Enumeration.{CutCount, PatternRoom, Enumerated, pattern, Listed, HoldsPattern};
ghost use Rattle.patterns.specs.Turn.{OrderRoom, Ready, Put};

use theory::{ORDER_BYTES, PATTERNS};

// The reversals of the middle segments: 2 to the k - 1.
fn reversal_count(k: usize) -> usize
    requires { CutCount k }
    ensures { result ≡ 2 ^ (k - 1) }
{
    match k {
        2 => 2,
        3 => 4,
        4 => 8,
        _ => 16,
    }
}

// How many patterns k cuts have.
pub fn pattern_count(k: usize) -> usize
    requires { CutCount k }
    ensures { result ≡ length (patterns k) }
{
    match k {
        2 => 1,
        3 => 7,
        4 => 47,
        _ => PATTERNS,
    }
}

// An order into out from `at` on: segment 0, the middle segments, segment k.
fn put_order(middle: &[u8], k: usize, out: &mut [u8], at: usize)
    requires { OrderRoom middle.now k out.old at }
    ensures { out.new ≡ sets out.old at (0 ∷ (middle.now ++ (k ∷ []))) }
{
    out[at] = 0;
    pattern_orders::copy_in(middle, out, at + 1);
    out[at + k] = k as u8;
}

// The pattern with this index, from the rows of the permutations: the arrangement after the one that changes nothing.
fn put_pattern(permutations: &[u8], k: usize, index: usize, orders: &mut [u8], masks: &mut [u8])
    requires { Ready k index permutations.now orders.old masks.old }
    ensures { Put k index orders.old masks.old orders.new masks.new }
{
    let reversals = reversal_count(k);
    let arrangement = index + 1;
    let num_middle = k - 1;
    let from = arrangement / reversals * num_middle;
    let end = from + num_middle;
    put_order(&permutations[from..end], k, orders, index * (k + 1));
    masks[index] = (2 * (arrangement % reversals)) as u8;
}

// All patterns for k: the order of the one at i in the k + 1 bytes from i * (k + 1) on, its mask at i. Answers how many there are.
pub fn enumerate_reconnections(k: usize, orders: &mut [u8], masks: &mut [u8]) -> usize
    requires { PatternRoom k orders.old masks.old }
    ensures { Enumerated k orders.old masks.old result orders.new masks.new }
{
    let mut permutations = [0u8; 96];
    let _ = pattern_orders::generate_permutations(
        [1, 2, 3, 4],
        k - 1,
        [0; 4],
        0,
        &mut permutations,
        0,
    );
    let count = pattern_count(k);
    for index in 0..count {
        put_pattern(&permutations, k, index, orders, masks);
    }
    count
}

// The pattern with this index.
pub fn pattern_at(k: usize, index: usize) -> theory::KOptReconnection
    requires { Listed k index }
    ensures { HoldsPattern k (pattern k index) result }
{
    let mut orders = [0u8; ORDER_BYTES];
    let mut masks = [0u8; PATTERNS];
    let _ = enumerate_reconnections(k, &mut orders, &mut masks);
    let num_segments = k + 1;
    let from = index * num_segments;
    let end = from + num_segments;
    let mut places = [0u8; 6];
    pattern_orders::copy_in(&orders[from..end], &mut places, 0);
    theory::KOptReconnection {
        segment_order: places,
        reverse_mask: masks[index],
        len: num_segments as u8,
    }
}
