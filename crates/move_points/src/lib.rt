// Cut points, and a slice of them read into numbers. No entry: the crates above call it.
#![tactic(auto)]

ghost use Rattle.std.specs.Prelude.{◌≡◌, min, length, take};
ghost use Rattle.move_points.specs.CutPoints.{cut_at, numbers_of, Sized, HoldsCuts};

// A cut of a round, before a position.
#[derive(Clone, Copy, Debug, PartialEq, Eq)]
pub struct CutPoint {
    pub round: usize,
    pub position: usize,
}

// The first six cut points as numbers. A move has at most five cuts, so that six tell as much as more.
#[derive(Clone, Copy, Debug, PartialEq, Eq)]
pub struct CutNumbers {
    pub len: usize,
    pub rounds: [usize; 6],
    pub positions: [usize; 6],
}

impl CutNumbers {
    // The round numbers that are held.
    pub fn held_rounds(&self) -> &[usize]
        requires { Sized self.now }
        ensures { result.now ≡ take self.now.len self.now.rounds }
    {
        &self.rounds[..self.len]
    }

    pub fn held_positions(&self) -> &[usize]
        requires { Sized self.now }
        ensures { result.now ≡ take self.now.len self.now.positions }
    {
        &self.positions[..self.len]
    }
}

fn cut_count(cuts: &[CutPoint]) -> usize
    ensures { result ≡ length cuts.now }
{
    cuts.len()
}

// The cut point at place i, or zeros beyond the last.
fn cut_or_zero(cuts: &[CutPoint], i: usize) -> CutPoint
    ensures { result ≡ cut_at cuts.now i }
{
    if i < cuts.len() {
        return cuts[i];
    }
    CutPoint {
        round: 0,
        position: 0,
    }
}

fn at_most_six(count: usize) -> usize
    ensures { result ≡ min count 6 }
{
    if count < 6 {
        return count;
    }
    6
}

fn numbers_of(
    count: usize,
    a: CutPoint,
    b: CutPoint,
    c: CutPoint,
    d: CutPoint,
    e: CutPoint,
    f: CutPoint,
) -> CutNumbers
    ensures { result ≡ numbers_of count a b c d e f }
{
    CutNumbers {
        len: at_most_six(count),
        rounds: [a.round, b.round, c.round, d.round, e.round, f.round],
        positions: [
            a.position, b.position, c.position, d.position, e.position, f.position,
        ],
    }
}

pub fn cut_numbers(cuts: &[CutPoint]) -> CutNumbers
    ensures { HoldsCuts cuts.now result }
{
    numbers_of(
        cut_count(cuts),
        cut_or_zero(cuts, 0),
        cut_or_zero(cuts, 1),
        cut_or_zero(cuts, 2),
        cut_or_zero(cuts, 3),
        cut_or_zero(cuts, 4),
        cut_or_zero(cuts, 5),
    )
}
