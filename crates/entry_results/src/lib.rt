// The values of an answer, and how a call hands them over in a lent result: in its first places, or refused where it has too few. The numbers of a pattern, of a move
// that is found, of polishing and of a run are put by crates moves, polish_numbers and run_numbers. No entry: the crates of the calls use it.
#![tactic(auto)]

ghost use Rattle.std.specs.Prelude.{◌≡◌, cond, [], ◌∷◌};
ghost use Rattle.theory.specs.Numbers.{judged};
ghost use Rattle.theory.specs.Answers.{reply, answer_of, listing_values, deadline_position};
ghost use Rattle.entry_results.specs.Handed.{Handed};

use theory::{Deadline, Listing, Refusal};

// Values into the first places of the result.
#[tactic(auto, using(crate::proofs::Handing::handing))]
pub fn put<T: Copy>(values: &[T], res: &mut [T]) -> Result<(), Refusal>
    ensures { Handed (reply 0 values.now) res.old (judged result) res.new }
{
    let needed = values.len();
    if res.len() < needed {
        return Err(Refusal::Room);
    }
    res[..needed].copy_from_slice(values);
    Ok(())
}

// What a call answers: its value into the first place, or its refusal.
#[tactic(auto, using(crate::proofs::Handing::handed_refused))]
pub fn put_value<T: Copy>(answer: Result<T, Refusal>, res: &mut [T]) -> Result<(), Refusal>
    ensures { Handed (answer_of (λ value. value ∷ []) answer) res.old (judged result) res.new }
{
    let value = answer?;
    if res.is_empty() {
        return Err(Refusal::Room);
    }
    res[0] = value;
    Ok(())
}

// 1 yes or 0 no.
pub fn flag_number(flag: bool) -> u64
    ensures { result ≡ cond flag 1 0 }
{
    u64::from(flag)
}

// The position that says what the deadline check answered for a route of n stops: a late one, or n where every deadline is kept.
pub fn position_of(answer: Deadline, n: usize) -> u64
    ensures { result ≡ deadline_position n answer }
{
    match answer {
        Deadline::Kept => n as u64,
        Deadline::Late(position) => position as u64,
    }
}

// The number of sets written, then 0 ended or 1 more.
pub fn listing_numbers(answer: Listing) -> [u64; 2]
    ensures { result ≡ listing_values answer }
{
    match answer {
        Listing::Ended(count) => [count as u64, 0],
        Listing::More(count) => [count as u64, 1],
    }
}
