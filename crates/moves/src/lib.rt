// A move by the index of its pattern: its route, its change of the length, and its numbers in a lent result. No entry: the crates above call it.
#![tactic(auto)]

ghost use Rattle.std.specs.Prelude.{◌≡◌, ℕ, ◌++◌, ◌+◌, ◌≤◌, length, map, drop};
ghost use Rattle.theory.specs.Moves.{patterns};
ghost use Rattle.theory.specs.Route.{reconnected};
ghost use Rattle.theory.specs.Polish.{move_at};
ghost use Rattle.theory.specs.Tables.{legs_only};
ghost use Rattle.moves.specs.Moves.{Applicable, Comparable, length_change, pattern_values, Shown, MoveRoom};
ghost use Rattle.first_move.specs.FirstMove.{found_move, move_values, in_front};

use first_move::FoundMove;
use theory::STOPS;

// A number of a pattern or of a move, as a result holds it.
trait Number: Copy {
    ghost value: { Self → ℕ };

    fn wide(self) -> u64
        ensures { result ≡ value self };
}

impl Number for u8 {
    ghost value = { λ n. n };

    fn wide(self) -> u64 {
        self as u64
    }
}

impl Number for usize {
    ghost value = { λ n. n };

    fn wide(self) -> u64 {
        self as u64
    }
}

fn put_numbers<T: Number>(numbers: &[T], res: &mut [u64])
    requires { length numbers.now ≤ length res.old }
    ensures { res.new ≡ map T.value numbers.now ++ drop (length numbers.now) res.old }
{
    for i in 0..numbers.len() {
        res[i] = numbers[i].wide();
    }
}

// The segment numbers of the pattern with this index, then its mask, into the first places of the result.
pub fn put_pattern(k: usize, index: usize, res: &mut [u64])
    requires { Shown k index res.old }
    ensures { res.new ≡ pattern_values k index ++ drop (k + 2) res.old }
{
    let found = patterns::pattern_at(k, index);
    let order = found.segment_order;
    let segments = k + 1;
    put_numbers(&order[..segments], res);
    res[segments] = found.reverse_mask as u64;
}

// The route after the pattern with this index is applied at the cuts, into the first places of out.
pub fn reconnect_pattern(k: usize, index: usize, cuts: &[usize], route: &[u32], out: &mut [u32])
    requires { Applicable k index cuts.now route.now out.old }
    ensures { out.new ≡ reconnected (move_at (patterns k) cuts.now index) route.now ++ drop (length route.now) out.old }
{
    let found = patterns::pattern_at(k, index);
    let order = found.segment_order;
    let mask = found.reverse_mask;
    let segments = k + 1;
    let n = route.len();
    reconnection::reconnect(route, cuts, &order[..segments], mask, &mut out[..n]);
}

// The length after that move minus the length before.
pub fn delta_pattern(
    k: usize,
    index: usize,
    cuts: &[usize],
    locations: usize,
    legs: &[u32],
    depot: u32,
    end: u32,
    route: &[u32],
) -> i64
    requires { Comparable k index cuts.now locations legs.now depot end route.now }
    ensures { result ≡ length_change (legs_only locations legs.now depot end) (move_at (patterns k) cuts.now index) route.now }
{
    let found = patterns::pattern_at(k, index);
    let order = found.segment_order;
    let mask = found.reverse_mask;
    let segments = k + 1;
    let mut forward = [0u64; STOPS];
    let mut backward = [0u64; STOPS];
    costs::forward_sums(locations, legs, route, &mut forward);
    costs::backward_sums(locations, legs, route, &mut backward);
    costs::delta(
        locations,
        legs,
        depot,
        end,
        route,
        &forward,
        &backward,
        cuts,
        &order[..segments],
        mask,
    )
}

// 1, the index and the k cuts; or 0 in the first place alone.
pub fn put_move(k: usize, answer: Option<FoundMove>, res: &mut [u64])
    requires { MoveRoom k res.old }
    ensures { res.new ≡ in_front (move_values (found_move k answer)) res.old }
{
    match answer {
        None => res[0] = 0,
        Some(found) => {
            let cuts = found.cuts;
            res[0] = 1;
            res[1] = found.index as u64;
            put_numbers(&cuts[..k], &mut res[2..]);
        }
    }
}
