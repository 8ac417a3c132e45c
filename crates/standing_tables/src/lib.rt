// The tables of where parts of the old route stand in the wanted one, as words.
#![tactic(auto)]

ghost use Rattle.std.specs.Prelude.{◌≡◌, ◌≤◌, ◌<◌, length};
ghost use Rattle.standing.specs.Standing.{Pair, HeadSet, TailSet};
ghost use Rattle.standing_tables.specs.Filling.{PlaceIf, SameSet, SameTable, AlongCell, AgainstCell, AlongTable, AgainstTable, Merged, PartsFilled, RowRoom, RowFilled, StandsFilled};

// The set of the place, or no place.
fn place_if(holds: bool, place: usize) -> u64
    requires { place < 64 }
    ensures { PlaceIf holds place result }
{
    if holds {
        return standing::one_place(place);
    }
    0
}

// The places of the wanted route that hold the stop.
fn same_places(wanted: &[u32], stop: u32) -> u64
    requires { length wanted.now ≤ 48 }
    ensures { SameSet wanted.now stop result }
{
    let mut places = 0;
    for z in 0..wanted.len() {
        places |= place_if(wanted[z] == stop, z);
    }
    places
}

// Where the parts that begin at row a end if they stand, as they are, at column y: at place i of the table.
fn along_cell(same: &[u64; 49], table: &[u64; 2401], i: usize) -> u64
    requires { i < 2352 }
    ensures { AlongCell same.now table.now i result }
{
    let a = i / 49;
    let y = i % 49;
    if y == 48 {
        return 0;
    }
    let word = same[a];
    if (word >> y) % 2 == 0 {
        return 0;
    }
    standing::one_place(y + 1) | table[i + 50]
}

// And if they stand reversed.
fn against_cell(same: &[u64; 49], table: &[u64; 2401], i: usize) -> u64
    requires { i < 2352 }
    ensures { AgainstCell same.now table.now i result }
{
    let a = i / 49;
    let y = i % 49;
    (same[a] & (standing::one_place(y) | table[i + 49])) << 1
}

// All of the first, from the last place up.
pub fn fill_along(same: &[u64; 49], table: &mut [u64; 2401])
    requires { length table.old ≡ 2401 }
    ensures { AlongTable same.now table.new × (length table.new ≡ 2401) }
{
    for i in (0..2352).rev() {
        table[i] = along_cell(same, table, i);
    }
}

// And of the second.
pub fn fill_against(same: &[u64; 49], table: &mut [u64; 2401])
    requires { length table.old ≡ 2401 }
    ensures { AgainstTable same.now table.new × (length table.new ≡ 2401) }
{
    for i in (0..2352).rev() {
        table[i] = against_cell(same, table, i);
    }
}

// Both ways together, in the place of the first.
pub fn merge(against: &[u64; 2401], table: &mut [u64; 2401])
    requires { length table.old ≡ 2401 }
    ensures { Merged 2401 table.old against.now table.new }
{
    for i in 0..2401 {
        table[i] |= against[i];
    }
}

// Where the parts that begin at the row or later end, from the last place up.
pub fn fill_parts(ends: &[u64; 2401], table: &mut [u64; 2401])
    requires { length table.old ≡ 2401 }
    ensures { PartsFilled ends.now table.new }
{
    for i in (0..2352).rev() {
        table[i] = table[i + 49] | ends[i];
    }
}

// The cuts before which the two routes agree.
pub fn head_places(old: &[u32], wanted: &[u32]) -> u64
    requires { Pair (length old.now) old.now wanted.now }
    ensures { HeadSet (length old.now) old.now wanted.now result }
{
    let mut places = standing::one_place(0);
    for c in 0..old.len() {
        if old[c] != wanted[c] {
            return places;
        }
        places |= standing::one_place(c + 1);
    }
    places
}

// And those behind which they do.
pub fn tail_places(old: &[u32], wanted: &[u32]) -> u64
    requires { Pair (length old.now) old.now wanted.now }
    ensures { TailSet (length old.now) old.now wanted.now result }
{
    let n = old.len();
    let mut places = standing::one_place(n);
    for c in (0..n).rev() {
        if old[c] != wanted[c] {
            return places;
        }
        places |= standing::one_place(c);
    }
    places
}

// Where the stops from a on stand, for each end: row a of the table.
fn stand_row(same: &[u64; 49], n: usize, a: usize, table: &mut [u64; 2401])
    requires { RowRoom n a table.old }
    ensures { RowFilled same.now table.old n a table.new }
{
    let mut along = same[a];
    let mut against = along;
    for e in a + 1..n + 1 {
        table[a * 49 + e] = along | against;
        let next = same[e];
        along = along & (next >> (e - a));
        against = next & (against >> 1);
    }
}

// All rows.
pub fn fill_stands(same: &[u64; 49], n: usize, table: &mut [u64; 2401])
    requires { (n ≤ 48) × (length table.old ≡ 2401) }
    ensures { StandsFilled same.now n table.new }
{
    for a in 0..n {
        stand_row(same, n, a, table);
    }
}

// For each stop of the old route the places of the wanted one that hold it.
pub fn same_words(old: &[u32], wanted: &[u32]) -> [u64; 49]
    requires { (length old.now ≤ 48) × (length wanted.now ≤ 48) }
    ensures { SameTable old.now wanted.now result }
{
    let mut same = [0u64; 49];
    for b in 0..old.len() {
        same[b] = same_places(wanted, old[b]);
    }
    same
}
