// What polishing or the pair loop counted, as their answer, and the answer's six numbers into a lent result. No entry: crates polishing, pair_loop and mittenschist call it.
#![tactic(auto)]

ghost use Rattle.std.specs.Prelude.{◌≡◌, ◌∷◌, ◌++◌, ◌≤◌, length, drop};
ghost use Rattle.theory.specs.Answers.{polish_values};
ghost use Rattle.polish_numbers.specs.Answer.{answer_of};

use theory::{Counts, Polished};

// What was counted, as the answer.
pub fn counted(finished: bool, counts: Counts) -> Polished
    ensures { result ≡ answer_of finished counts }
{
    if finished {
        return Polished::Finished(counts);
    }
    Polished::Spent(counts)
}

// The six numbers of the answer.
fn six_numbers(answer: Polished) -> [u64; 6]
    ensures { result ≡ polish_values answer }
{
    let (state, counts) = match answer {
        Polished::Finished(counts) => (0, counts),
        Polished::Spent(counts) => (1, counts),
    };
    [
        state,
        counts.examined,
        counts.accepted,
        counts.before,
        counts.after,
        counts.late,
    ]
}

// The six numbers of the answer into the first places of the result.
pub fn put_polished(answer: Polished, res: &mut [u64])
    requires { 6 ≤ length res.old }
    ensures { res.new ≡ polish_values answer ++ drop 6 res.old }
{
    res[..6].copy_from_slice(&six_numbers(answer));
}
