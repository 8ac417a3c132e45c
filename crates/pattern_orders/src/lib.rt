// The orders of up to four items by recursion, as rows of bytes, after k_opt_reconnection.rs. No entry: crate patterns calls it.
#![tactic(auto)]

ghost use Rattle.std.specs.Prelude.{◌≡◌, ◌+◌, ◌≤◌, ◌<◌, length, drop};
ghost use Rattle.std.proofs.lemmas.List.Edits.{sets};
ghost use Rattle.pattern_orders.specs.Rows.{RowRoom, Permuted};

// A part into out from `at` on.
pub fn copy_in(part: &[u8], out: &mut [u8], at: usize)
    requires { at + length part.now ≤ length out.old }
    ensures { out.new ≡ sets out.old at part.now }
{
    let end = at + part.len();
    out[at..end].copy_from_slice(part);
}

// The items with those after i moved up by one: the one at i is gone, and the last stands twice.
fn remove(items: [u8; 4], i: usize) -> [u8; 4]
    requires { i < 4 }
    ensures { result ≡ sets items i (drop (i + 1) items) }
{
    let mut rest = items;
    let next = i + 1;
    copy_in(&items[next..], &mut rest, i);
    rest
}

// Takes out one of the `left` items and orders the rest: each order behind the first `depth` of the row, into out from `at` on. Answers where the next row begins.
pub fn generate_permutations(
    items: [u8; 4],
    left: usize,
    row: [u8; 4],
    depth: usize,
    out: &mut [u8],
    at: usize,
) -> usize
    requires { RowRoom items left row depth out.old at }
    ensures { Permuted items left row depth out.old at result out.new }
{
    if left == 0 {
        copy_in(&row[..depth], out, at);
        return at + depth;
    }
    let mut next = at;
    for i in 0..left {
        let mut longer = row;
        longer[depth] = items[i];
        let rest = remove(items, i);
        next = generate_permutations(rest, left - 1, longer, depth + 1, out, next);
    }
    next
}
