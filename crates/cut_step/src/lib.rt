// The step from one cut set to the next, in dictionary order. No entry: the crates above call it.
#![tactic(auto)]

ghost use Rattle.std.specs.Prelude.{◌≡◌, ◌++◌, ◌+◌, ◌-◌, ◌≤◌, ◌<◌, length, take};
ghost use Rattle.theory.specs.Moves.{upfrom};
ghost use Rattle.theory.specs.Tables.{CutSet};
ghost use Rattle.cut_step.specs.Step.{Followable, Stepped};

// The places from `from` on follow on from `first`.
fn follow_on(cuts: &mut [usize], from: usize, first: usize)
    requires { Followable cuts.old from first }
    ensures { cuts.new ≡ take from cuts.old ++ upfrom first (length cuts.old - from) }
{
    for place in from..cuts.len() {
        cuts[place] = first + (place - from);
    }
}

// Moves the cuts on to the next set of a route of n stops; after the last set it answers no and keeps them.
pub fn next_cut_set(cuts: &mut [usize], n: usize) -> bool
    requires { CutSet (length cuts.old) n cuts.old }
    ensures { Stepped n cuts.old result cuts.new }
{
    let k = cuts.len();
    for position in (0..k).rev() {
        let cut = cuts[position];
        if cut + (k - position) <= n {
            follow_on(cuts, position, cut + 1);
            return true;
        }
    }
    false
}
