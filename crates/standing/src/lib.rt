// Sets of the places 0 to 63 as words, and where parts of one route stand in another. The tables are filled in standing_tables.
#![tactic(auto)]

ghost use Rattle.std.specs.Prelude.{◌<◌};
ghost use Rattle.standing.specs.Places.{OnePlace, Least, Apart};

// The set of one place.
pub fn one_place(place: usize) -> u64
    requires { place < 64 }
    ensures { OnePlace place result }
{
    1 << place
}

// The least place of a set.
pub fn least_place(places: u64) -> usize
    ensures { Least places result }
{
    u64::trailing_zeros(places) as usize
}

// Whether two sets have a place in common.
pub fn meet(a: u64, b: u64) -> bool
    ensures { Apart a b result }
{
    a & b != 0
}
