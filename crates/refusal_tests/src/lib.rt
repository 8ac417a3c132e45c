// Tests over a list, by which the checks of refusals are made. No entry: the crates above call them.
#![tactic(auto)]

ghost use Rattle.std.specs.Prelude.{◌≡◌, not, ltb, leb, eqb, is_nan};
ghost use Rattle.std.specs.List.{list_any};
ghost use Rattle.theory.specs.Refusals.{rises};
ghost use Rattle.theory.specs.Moves.{total};
ghost use Rattle.theory.specs.Pairs.{pairs_of};
ghost use Rattle.refusal_tests.specs.Rounds.{ShortRounds};

// Whether an entry is above the limit. No turn of the loop leaves it, so that the compiler takes several entries at a time.
pub fn any_above(entries: &[u32], limit: u32) -> bool
    ensures { result ≡ list_any (λ x. ltb limit x) entries.now }
{
    let mut found = false;
    for &entry in entries {
        found |= limit < entry;
    }
    found
}

// Whether a stop is not below the locations.
pub fn any_unknown(stops: &[u32], locations: usize) -> bool
    ensures { result ≡ list_any (λ x. leb locations x) stops.now }
{
    stops.iter().any(|&stop| locations <= stop as usize)
}

// Whether a cut lies beyond n.
pub fn any_beyond(cuts: &[usize], n: usize) -> bool
    ensures { result ≡ list_any (λ x. ltb n x) cuts.now }
{
    cuts.iter().any(|&cut| n < cut)
}

// Whether each cut is below the next.
#[tactic(auto, unfolding(theory::specs::Refusals::rises))]
pub fn strictly_rising(cuts: &[usize]) -> bool
    ensures { result ≡ rises cuts.now }
{
    let mut rest = cuts;
    while let [low, tail @ ..] = rest {
        if let [high, ..] = tail {
            if high <= low {
                return false;
            }
        }
        rest = tail;
    }
    true
}

// Whether a cut names another round.
pub fn any_other(rounds: &[usize], round: usize) -> bool
    ensures { result ≡ list_any (λ x. not (eqb x round)) rounds.now }
{
    rounds.iter().any(|&named| named != round)
}

// Whether an entry is no number: only that one differs from itself.
pub fn any_no_number(distances: &[f64]) -> bool
    ensures { result ≡ list_any is_nan distances.now }
{
    distances.iter().any(|d| d.is_nan())
}

// The stops of all rounds together.
pub fn all_stops(lengths: &[usize]) -> usize
    requires { ShortRounds lengths.now }
    ensures { result ≡ total (λ n. n) lengths.now }
{
    lengths.iter().sum()
}

// Whether a pair has equal members.
#[tactic(auto, unfolding(theory::specs::Pairs::pairs_of))]
pub fn any_twins(pairs: &[u32]) -> bool
    ensures { result ≡ list_any (λ p. eqb p.0 p.1) (pairs_of pairs.now) }
{
    let mut rest = pairs;
    while let [first, second, tail @ ..] = rest {
        if first == second {
            return true;
        }
        rest = tail;
    }
    false
}
