// Shares of the allowance: a dispatcher over the rounds of a run. No entry: crate mittenschist calls it.
#![tactic(auto)]

ghost use Rattle.std.specs.Prelude.{◌≡◌, length};
ghost use Rattle.theory.specs.Tables.{tables, fleet};
ghost use Rattle.share_numbers.specs.Shares.{own_by, takers_by};
ghost use Rattle.share_numbers.specs.Shared.{Shared};
ghost use Rattle.run.specs.Run.{RunnableLent, RunnableWithPairs};
ghost use Rattle.shares.specs.Dividing.{DividedInto};

use precedence::MEMBERS;

// What each round that takes part is given, and what the first of them is given beside it.
#[derive(Clone, Copy, Debug, PartialEq, Eq)]
struct Parts {
    each: u64,
    remainder: u64,
}

// Only a round that is free and of 4 stops or more takes part.
fn own_share(each: u64, pin: u8, stops: usize) -> u64
    ensures { result ≡ own_by each pin stops }
{
    if pin != 0 || stops < 4 {
        return 0;
    }
    each
}

fn count_takers(lengths: &[usize], pins: &[u8]) -> u64
    requires { length pins.now ≡ length lengths.now }
    ensures { result ≡ takers_by pins.now lengths.now (length lengths.now) }
{
    let mut takers = 0;
    for i in 0..lengths.len() {
        takers += own_share(1, pins[i], lengths[i]);
    }
    takers
}

// With no round that takes part there is nothing to divide by.
fn divide(allowance: u64, takers: u64) -> Parts
    ensures { DividedInto allowance takers result }
{
    if takers == 0 {
        return Parts {
            each: 0,
            remainder: 0,
        };
    }
    Parts {
        each: allowance / takers,
        remainder: allowance % takers,
    }
}

// Every round in its turn, with the words of the pairs. What a round leaves over goes on to the next that takes part, and at the start that is the remainder.
fn share_rounds(
    k: usize,
    allowance: u64,
    locations: usize,
    legs: &[u32],
    latest: &[u32],
    service: &[u32],
    stops: &mut [u32],
    lengths: &[usize],
    depots: &[u32],
    ends: &[u32],
    pins: &[u8],
    pairs: &[u32],
    members: &[u64],
    res: &mut [u64],
)
    requires { RunnableLent k (tables locations legs.now latest.now service.now) (fleet stops.old lengths.now depots.now ends.now pins.now) pairs.now members.now res.old }
    ensures { Shared k allowance (tables locations legs.now latest.now service.now) (fleet stops.old lengths.now depots.now ends.now pins.now) pairs.now res.old stops.new res.new }
{
    let parts = divide(allowance, count_takers(lengths, pins));
    let each = parts.each;
    let mut left = parts.remainder;
    let mut at = 0;
    for i in 0..lengths.len() {
        let size = lengths[i];
        let behind = at + size;
        let depot = depots[i];
        let end = ends[i];
        let pin = pins[i];
        let given = left + own_share(each, pin, size);
        let route = &mut stops[at..behind];
        let state = run::round::take_turn(
            k, given, locations, legs, latest, service, depot, end, pairs, members, pin, route,
        );
        let row = 4 * i;
        let row_end = row + 4;
        run_numbers::put_kept_state(state, &mut res[row..row_end]);
        left = given - run_numbers::examined(state);
        at = behind;
    }
}

// The words of the pairs stand here, once for all rounds.
pub fn run_in_shares(
    k: usize,
    allowance: u64,
    locations: usize,
    legs: &[u32],
    latest: &[u32],
    service: &[u32],
    stops: &mut [u32],
    lengths: &[usize],
    depots: &[u32],
    ends: &[u32],
    pins: &[u8],
    pairs: &[u32],
    res: &mut [u64],
)
    requires { RunnableWithPairs k (tables locations legs.now latest.now service.now) (fleet stops.old lengths.now depots.now ends.now pins.now) pairs.now res.old }
    ensures { Shared k allowance (tables locations legs.now latest.now service.now) (fleet stops.old lengths.now depots.now ends.now pins.now) pairs.now res.old stops.new res.new }
{
    let mut members = [0u64; MEMBERS];
    precedence::fill_members(pairs, &mut members);
    share_rounds(
        k,
        allowance,
        locations,
        legs,
        latest,
        service,
        stops,
        lengths,
        depots,
        ends,
        pins,
        pairs,
        &members[..],
        res,
    );
}
