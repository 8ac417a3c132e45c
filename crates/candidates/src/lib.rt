// The candidate of a pattern on a cut set, built. No entry: crates scan_taking and find_move call it.
#![tactic(auto)]

ghost use Rattle.std.specs.Prelude.{◌≡◌};
ghost use Rattle.candidates.specs.Candidate.{candidate, Buildable, BuildableFront, BuiltFront};

// The candidate of pattern i.
fn build_candidate(
    route: &[u32],
    cuts: &[usize],
    orders: &[u8],
    masks: &[u8],
    i: usize,
    out: &mut [u32],
)
    requires { Buildable route.now cuts.now orders.now masks.now i out.old }
    ensures { out.new ≡ candidate route.now cuts.now orders.now masks.now i }
{
    let width = cuts.len() + 1;
    let at = i * width;
    let end = at + width;
    reconnection::reconnect(route, cuts, &orders[at..end], masks[i], out);
}

// The same at the front of `spare`.
pub fn build_front(
    route: &[u32],
    cuts: &[usize],
    orders: &[u8],
    masks: &[u8],
    i: usize,
    spare: &mut [u32],
)
    requires { BuildableFront route.now cuts.now orders.now masks.now i spare.old }
    ensures { BuiltFront route.now cuts.now orders.now masks.now i spare.new }
{
    let n = route.len();
    build_candidate(route, cuts, orders, masks, i, &mut spare[..n]);
}
