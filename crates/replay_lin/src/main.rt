// Holds Lin's exchanges against the candidates, a line for each number of stops n and of cuts k: how many orders of the stops have a closed tour that differs in
// at most k links from that of 1, 2, .., n (within), how many of them are in neither direction a candidate (missed), and how many candidates differ in more
// (beyond). The depot is 0. The route itself is a candidate: cut at 0 to k - 1 and one-stop segments reversed.
#![tactic(auto)]

ghost use Rattle.std.specs.Prelude.{ℕ, ◌≤◌};

use std::io;

fn has_link(tour: &[u32], a: u32, b: u32) -> bool {
    tour.windows(2).any(|link| link == [a, b].as_slice() || link == [b, a].as_slice())
}

// How many links of the one closed tour the other does not have.
fn lost(old: &[u32], new: &[u32]) -> usize {
    old.windows(2)
        .filter(|link| matches!(link, [a, b] if !has_link(new, *a, *b)))
        .count()
}

// The stops of a closed tour.
fn route_of(tour: &[u32]) -> &[u32] {
    match tour {
        [_, route @ .., _] => route,
        _ => &[],
    }
}

fn is_candidate(k: usize, old: &[u32], new: &[u32]) -> bool {
    let found = cut_calls::find_move(k, route_of(old), route_of(new));
    matches!(found, Ok(Some(_)))
}

// An order of the stops: whether it is within, a candidate, a candidate backwards.
#[derive(Clone, Copy)]
struct Judged {
    within: bool,
    candidate: bool,
    turned: bool,
}

impl Judged {
    fn is_missed(&self) -> bool {
        self.within && !self.candidate && !self.turned
    }

    fn is_beyond(&self) -> bool {
        self.candidate && !self.within
    }
}

fn judge<const PLACES: usize>(k: usize, old: &[u32; PLACES], new: &[u32; PLACES]) -> Judged {
    let mut back = *new;
    back.reverse();
    Judged {
        within: lost(old, new) <= k,
        candidate: is_candidate(k, old, new),
        turned: is_candidate(k, old, &back),
    }
}

// How many orders are within, missed and beyond. Each is at most the number of orders.
#[derive(Clone, Copy)]
struct Counts {
    within: u32,
    missed: u32,
    beyond: u32,
}

impl Counts {
    fn with(self, order: Judged) -> Counts {
        Counts {
            within: self.within.saturating_add(u32::from(order.within)),
            missed: self.missed.saturating_add(u32::from(order.is_missed())),
            beyond: self.beyond.saturating_add(u32::from(order.is_beyond())),
        }
    }
}

// The closed tour of 1, 2, .., n. An array, as each tour here: a replaying program has no heap that could run out.
fn first_tour<const PLACES: usize>(n: u32) -> [u32; PLACES] {
    let mut tour = [0; PLACES];
    for (stop, place) in (1..=n).zip(tour.iter_mut().skip(1)) {
        *place = stop;
    }
    tour
}

// The closed tour of a number, whose last n digits say the stops.
fn tour_of<const PLACES: usize>(n: u32, number: u32) -> [u32; PLACES] {
    let mut tour = [0; PLACES];
    if n == 0 {
        return tour;
    }
    let mut rest = number;
    for (_, place) in (0..n).zip(tour.iter_mut().skip(1)) {
        *place = rest % n + 1;
        rest /= n;
    }
    tour
}

// Counts those of the first numbers on which each stop stands.
fn count<const PLACES: usize>(n: u32, k: usize, numbers: u32) -> Counts
    requires { PLACES ≤ 8 }
{
    let old = first_tour::<PLACES>(n);
    let mut counts = Counts {
        within: 0,
        missed: 0,
        beyond: 0,
    };
    for number in 0..numbers {
        let tour = tour_of::<PLACES>(n, number);
        if (1..=n).all(|stop| tour.contains(&stop)) {
            counts = counts.with(judge(k, &old, &tour));
        }
    }
    counts
}

fn show<const PLACES: usize>(rt: &impl Print, n: u32, k: usize, numbers: u32) -> io::Result<()>
    requires { PLACES ≤ 8 }
{
    let Counts {
        within,
        missed,
        beyond,
    } = count::<PLACES>(n, k, numbers);
    println!(rt; "stops {n} k {k} within {within} missed {missed} beyond {beyond}")
}

// All orders of n stops, whose closed tours have n + 2 places: n to the n numbers have n digits.
fn show_all<const PLACES: usize>(
    rt: &impl Print,
    n: u32,
    numbers: u32,
    most: usize,
) -> io::Result<()>
    requires { PLACES ≤ 8 }
{
    for k in 2..=most {
        show::<PLACES>(rt, n, k, numbers)?;
    }
    Ok(())
}

fn main(rt: HostRuntime) -> io::Result<()> {
    show_all::<4>(&rt, 2, 4, 3)?;
    show_all::<5>(&rt, 3, 27, 4)?;
    show_all::<6>(&rt, 4, 256, 5)?;
    show_all::<7>(&rt, 5, 3125, 5)?;
    show_all::<8>(&rt, 6, 46656, 5)
}
