// Pairs of locations of which the first comes before the second: a lent list judged, sets of pairs as words, the words of a part of a route, and where a route may
// be cut so that head and tail keep their pairs. No entry: the crates above call it.
#![tactic(auto)]

ghost use Rattle.std.specs.Prelude.{◌≡◌, ◌+◌, ◌≤◌, eqb, length, get_or};
ghost use Rattle.theory.specs.Refusals.{number, pair_list};
ghost use Rattle.theory.specs.Numbers.{judged};
ghost use Rattle.theory.specs.Pairs.{pairs_of};
ghost use Rattle.precedence.specs.Words.{MembersFilled, Fillable, PairPuttable, PairPut, MemberOf, Readable, StopTaken, Growing, MarksGrown, Placed, FrontFound, BackFound, KeepsFound};

use theory::Refusal;

// ---- the list

pub fn check_pair_list(locations: usize, pairs: &[u32]) -> Result<(), Refusal>
    ensures { judged result ≡ number (pair_list locations pairs.now) }
{
    if 128 < pairs.len()
        || pairs.len() % 2 != 0
        || refusal_tests::any_unknown(pairs, locations)
        || refusal_tests::any_twins(pairs)
    {
        return Err(Refusal::Pairs);
    }
    Ok(())
}

// ---- the words of each location

// The pairs whose first a location is, in its place; those whose second it is, so many places on.
pub const SECONDS: usize = 1024;

pub const MEMBERS: usize = 2 * SECONDS;

fn put_pair(first: u32, second: u32, bit: usize, members: &mut [u64; MEMBERS])
    requires { PairPuttable first second bit members.old }
    ensures { PairPut first second bit members.old members.new }
{
    let word = 1u64 << bit;
    let a = first as usize;
    let b = SECONDS + second as usize;
    members[a] = members[a] + word;
    members[b] = members[b] + word;
}

// The words of a list, into places that are 0.
pub fn fill_members(pairs: &[u32], members: &mut [u64; MEMBERS])
    requires { Fillable pairs.now members.old }
    ensures { MembersFilled pairs.now members.new }
{
    for q in 0..pairs.len() / 2 {
        put_pair(pairs[2 * q], pairs[2 * q + 1], q, members);
    }
}

pub fn firsts_at(members: &[u64], stop: u32) -> u64
    requires { MemberOf members.now stop }
    ensures { result ≡ get_or members.now stop 0 }
{
    members[stop as usize]
}

pub fn seconds_at(members: &[u64], stop: u32) -> u64
    requires { MemberOf members.now stop }
    ensures { result ≡ get_or members.now (1024 + stop) 0 }
{
    members[SECONDS + stop as usize]
}

// ---- the words of a part of a route, grown stop by stop

// The pairs whose first is visited, and whose second; those that the part breaks as it stands, and reversed.
#[derive(Clone, Copy, Debug, PartialEq, Eq)]
pub struct Marks {
    pub firsts: u64,
    pub seconds: u64,
    pub broken: u64,
    pub turned: u64,
}

// With a stop more behind it.
fn take_stop(members: &[u64], stop: u32, marks: Marks) -> Marks
    requires { MemberOf members.now stop }
    ensures { StopTaken members.now stop marks result }
{
    let first = firsts_at(members, stop);
    let second = seconds_at(members, stop);
    let firsts = marks.firsts | first;
    let seconds = marks.seconds | second;
    Marks {
        firsts,
        seconds,
        broken: marks.broken | (first & seconds),
        turned: marks.turned | (second & firsts),
    }
}

// With the stops of route[from..to] behind it.
pub fn grow_marks(members: &[u64], route: &[u32], from: usize, to: usize, marks: Marks) -> Marks
    requires { Growing members.now route.now from to }
    ensures { MarksGrown members.now route.now from to marks result }
{
    let mut grown = marks;
    for at in from..to {
        grown = take_stop(members, route[at], grown);
    }
    grown
}

// ---- where a route may be cut

// A place, or the one held where no pair is broken.
fn place_if(broken: u64, here: usize, held: usize) -> usize
    ensures { Placed broken here held result }
{
    if broken == 0 {
        return held;
    }
    here
}

// The first position of a second with its first at it or behind it, or the number of stops: up to there a head keeps its pairs, whatever is done behind it.
pub fn front_reach(members: &[u64], route: &[u32]) -> usize
    requires { Readable members.now route.now }
    ensures { FrontFound members.now route.now result }
{
    let mut firsts = 0u64;
    let mut reach = route.len();
    for i in (0..route.len()).rev() {
        let stop = route[i];
        firsts = firsts | firsts_at(members, stop);
        let second = seconds_at(members, stop);
        reach = place_if(second & firsts, i, reach);
    }
    reach
}

// The position behind the last first with its second at it or before it, or 0: from there on a tail keeps its pairs, whatever is done before it.
pub fn back_since(members: &[u64], route: &[u32]) -> usize
    requires { Readable members.now route.now }
    ensures { BackFound members.now route.now result }
{
    let mut seconds = 0u64;
    let mut since = 0;
    for i in 0..route.len() {
        let stop = route[i];
        seconds = seconds | seconds_at(members, stop);
        let first = firsts_at(members, stop);
        since = place_if(first & seconds, i + 1, since);
    }
    since
}

// Whether a route keeps every pair.
pub fn keeps_pairs(members: &[u64], route: &[u32]) -> bool
    requires { Readable members.now route.now }
    ensures { KeepsFound members.now route.now result }
{
    front_reach(members, route) == route.len()
}
