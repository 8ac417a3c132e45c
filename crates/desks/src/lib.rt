// Which of two lists for one boat is handed back: the shorter that keeps deadlines and pairs. It judges what it is handed and has no refusal number. No entry:
// crate mittenschist hands it on.
#![tactic(auto)]

ghost use Rattle.std.specs.Prelude.{◌≡◌, ◌&&◌, eqb, Some};
ghost use Rattle.theory.specs.Numbers.{judged};
ghost use Rattle.theory.specs.Pairs.{pairs_of, pairs_kept};
ghost use Rattle.theory.specs.Route.{timely};
ghost use Rattle.theory.specs.Tables.{timetable_by, tables, trip, problem, legs_only};
ghost use Rattle.desks.specs.Desks.{desk_number, shorter, which, taken, WhichDesk, WhichOfTwo, Paired, Judgeable, BothMeasurable, BothTaken};

use precedence::MEMBERS;
use theory::{Deadline, Refusal};

// The desk whose list is handed back, with the number that C is told.
#[derive(Clone, Copy, Debug, PartialEq, Eq)]
pub enum Desk {
    First = 1,
    Second = 2,
}

// What C is told: the desk's number, or 0 for neither.
pub fn number_of(desk: Option<Desk>) -> u32
    ensures { result ≡ desk_number desk }
{
    match desk {
        Some(desk) => desk as u32,
        None => 0,
    }
}

// Whether a list keeps its pairs; their words stand here alone.
fn keeps_pairs(pairs: &[u32], list: &[u32]) -> bool
    requires { Paired pairs.now list.now }
    ensures { result ≡ pairs_kept (pairs_of pairs.now) list.now }
{
    let mut members = [0u64; MEMBERS];
    precedence::fill_members(pairs, &mut members);
    precedence::keeps_pairs(&members[..], list)
}

// Whether a list keeps its deadlines and its pairs. Without pairs no words are filled.
fn keeps_all(
    locations: usize,
    legs: &[u32],
    latest: &[u32],
    service: &[u32],
    depot: u32,
    pairs: &[u32],
    list: &[u32],
) -> bool
    requires { Judgeable (tables locations legs.now latest.now service.now) depot pairs.now list.now }
    ensures { result ≡ (pairs_kept (pairs_of pairs.now) list.now && timely (timetable_by (tables locations legs.now latest.now service.now)) depot list.now) }
{
    let answer = deadlines::check_deadlines(locations, legs, latest, service, depot, list);
    if let Deadline::Late(_) = answer {
        return false;
    }
    if pairs.len() == 0 {
        return true;
    }
    keeps_pairs(pairs, list)
}

// The shorter of two lists to the end harbour, or the first.
fn shorter_of(
    locations: usize,
    legs: &[u32],
    depot: u32,
    end: u32,
    first: &[u32],
    second: &[u32],
) -> Desk
    requires { BothMeasurable locations legs.now depot end first.now second.now }
    ensures { desk_number (Some result) ≡ shorter (legs_only locations legs.now depot end) first.now second.now }
{
    let one = costs::route_length(locations, legs, depot, end, first);
    let other = costs::route_length(locations, legs, depot, end, second);
    if one <= other {
        return Desk::First;
    }
    Desk::Second
}

// Of two lists that are not refused.
fn which_taken(
    locations: usize,
    legs: &[u32],
    latest: &[u32],
    service: &[u32],
    depot: u32,
    end: u32,
    pairs: &[u32],
    first: &[u32],
    second: &[u32],
) -> Option<Desk>
    requires { BothTaken (trip locations legs.now latest.now service.now depot end pairs.now) first.now second.now }
    ensures { desk_number result ≡ which (problem (trip locations legs.now latest.now service.now depot end pairs.now)) first.now second.now }
{
    let keeps_first = keeps_all(locations, legs, latest, service, depot, pairs, first);
    let keeps_second = keeps_all(locations, legs, latest, service, depot, pairs, second);
    if keeps_first {
        if keeps_second {
            return Some(shorter_of(locations, legs, depot, end, first, second));
        }
        return Some(Desk::First);
    }
    if keeps_second {
        return Some(Desk::Second);
    }
    None
}

// Both lists judged as polishing does: the tables, depot, end and pairs once.
fn judge_both(
    locations: usize,
    legs: &[u32],
    latest: &[u32],
    service: &[u32],
    depot: u32,
    end: u32,
    pairs: &[u32],
    first: &[u32],
    second: &[u32],
) -> Result<(), Refusal>
    ensures { eqb (judged result) 0 ≡ (taken (trip locations legs.now latest.now service.now depot end pairs.now) first.now && taken (trip locations legs.now latest.now service.now depot end pairs.now) second.now) }
{
    refusal_rules::paired_refusal(locations, legs, latest, service, depot, end, pairs, first)?;
    refusals::check_known_stops(locations, depot, second)?;
    refusals::check_stop_count(second.len())
}

// None where polishing would refuse either list, or neither keeps its deadlines and pairs.
pub fn which_desk(
    locations: usize,
    legs: &[u32],
    latest: &[u32],
    service: &[u32],
    depot: u32,
    end: u32,
    pairs: &[u32],
    first: &[u32],
    second: &[u32],
) -> Option<Desk>
    ensures { WhichDesk (trip locations legs.now latest.now service.now depot end pairs.now) first.now second.now (desk_number result) }
{
    let judged_both = judge_both(
        locations, legs, latest, service, depot, end, pairs, first, second,
    );
    match judged_both {
        Ok(()) => which_taken(
            locations, legs, latest, service, depot, end, pairs, first, second,
        ),
        Err(_) => None,
    }
}

// The desk's own list; the part of the first with no stop for neither.
pub fn which_of_two<'a>(
    locations: usize,
    legs: &[u32],
    latest: &[u32],
    service: &[u32],
    depot: u32,
    end: u32,
    pairs: &[u32],
    first: &'a [u32],
    second: &'a [u32],
) -> &'a [u32]
    ensures { WhichOfTwo (trip locations legs.now latest.now service.now depot end pairs.now) first.entry second.entry result }
{
    let desk = which_desk(
        locations, legs, latest, service, depot, end, pairs, first, second,
    );
    match desk {
        Some(Desk::First) => first,
        Some(Desk::Second) => second,
        None => &first[..0],
    }
}
