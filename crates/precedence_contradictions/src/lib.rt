// Pairs that contradict each other along a route, so that no order of its stops keeps them. No entry: the scan asks it once, of a route that breaks a pair.
#![tactic(auto)]

ghost use Rattle.precedence.specs.Words.{Readable};
ghost use Rattle.precedence_contradictions.specs.Contrary.{FirstsIf, FirstsVisited, LeftBehind, ContraryFound};

use precedence::Marks;

// The firsts of a stop that is the second of a pair in `word`.
fn firsts_if(word: u64, firsts: u64) -> u64
    ensures { FirstsIf word firsts result }
{
    if word == 0 {
        return 0;
    }
    firsts
}

// The pairs whose first is visited.
fn firsts_visited(members: &[u64], route: &[u32]) -> u64
    requires { Readable members.now route.now }
    ensures { FirstsVisited members.now route.now result }
{
    let none = Marks {
        firsts: 0,
        seconds: 0,
        broken: 0,
        turned: 0,
    };
    let all = precedence::grow_marks(members, route, 0, route.len(), none);
    all.firsts
}

// Of the pairs in `left` those whose first is visited and is the second of one of them.
fn behind_another(members: &[u64], route: &[u32], left: u64) -> u64
    requires { Readable members.now route.now }
    ensures { LeftBehind members.now route.now left result }
{
    let mut found = 0u64;
    for &stop in route {
        let firsts = precedence::firsts_at(members, stop);
        let seconds = precedence::seconds_at(members, stop);
        found = found | firsts_if(seconds & left, firsts);
    }
    found & left
}

// A pair is left while its first is the second of another that is left: those that stay stand in a circle, and none of them can be visited first. Each turn of the loop leaves
// a pair less, or it ends.
pub fn contradict(members: &[u64], route: &[u32]) -> bool
    requires { Readable members.now route.now }
    ensures { ContraryFound members.now route.now result }
{
    let mut left = firsts_visited(members, route);
    for _ in 0..65 {
        let fewer = behind_another(members, route, left);
        if fewer == left {
            return left != 0;
        }
        left = fewer;
    }
    false
}
