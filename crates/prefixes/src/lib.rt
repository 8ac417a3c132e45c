// Whether the first cuts of a cut set may lead to the wanted route. "No" is certain; nothing rests on how often the answer is "yes".
#![tactic(auto)]

ghost use Rattle.std.specs.Prelude.{◌≡◌, false, ◌≤◌, ◌<◌};
ghost use Rattle.prefixes.specs.Prefix.{Prefix, MayLead};
ghost use Rattle.prefixes.specs.Ways.{Nowhere, Askable, Handable, Handed, Farther, Reaches, Marked, Gathered};

// Where the next segment may begin once known segment p is laid from one of the places: nowhere if it is used.
fn hand_on(stands: &[u64; 2401], cuts: &[usize; 5], p: usize, used: u64, places: u64) -> u64
    requires { Handable cuts.now p }
    ensures { Handed cuts.now stands.now p used places result }
{
    if (used >> p) % 2 == 1 {
        return 0;
    }
    let a = cuts[p - 1];
    let b = cuts[p];
    let there = places & stands[a * 49 + b];
    there << (b - a)
}

// The goal once known segment p is laid.
fn farther(cuts: &[usize; 5], p: usize, goal: u64) -> u64
    requires { Handable cuts.now p }
    ensures { Farther cuts.now p goal result }
{
    let a = cuts[p - 1];
    let b = cuts[p];
    goal << (b - a)
}

// Whether there is a place and, where no unknown segment is left, one in the goal.
fn reaches(places: u64, goal: u64, unknown: usize) -> bool
    ensures { Reaches places goal unknown result }
{
    if unknown == 0 {
        return standing::meet(places, goal);
    }
    places != 0
}

// Known segment p is used.
fn mark(used: u64, p: usize) -> u64
    requires { p < 64 }
    ensures { Marked used p result }
{
    used | standing::one_place(p)
}

// Where the next segment may begin once an unknown one is laid from one of the places.
fn gather(ahead: &[u64; 2401], row: usize, places: u64) -> u64
    requires { row ≤ 2352 }
    ensures { Gathered ahead.now row places result }
{
    let mut rest = places;
    let mut y = 0;
    let mut all = 0;
    // Goes from one place of the set to the next, and not by an index.
    while rest != 0 {
        let skip = standing::least_place(rest);
        if skip > 48 - y {
            return all;
        }
        y += skip;
        all |= ahead[row + y];
        if y == 48 {
            return all;
        }
        y += 1;
        rest = rest >> skip >> 1;
    }
    all
}

// Whether the segments that are left can be laid, one after the other, from one of the places to the goal.
fn leads(
    stands: &[u64; 2401],
    ahead: &[u64; 2401],
    cuts: &[usize; 5],
    row: usize,
    goal: u64,
    known: usize,
    used: u64,
    unknown: usize,
    left: usize,
    places: u64,
) -> bool
    requires { Askable known cuts.now row }
    ensures { result ≡ false → Nowhere known cuts.now stands.now ahead.now row goal used unknown left places }
{
    if left == 0 {
        return true;
    }
    for p in 1..known + 1 {
        let next = hand_on(stands, cuts, p, used, places);
        let further = farther(cuts, p, goal);
        if reaches(next, further, unknown) {
            let with_p = mark(used, p);
            if leads(
                stands,
                ahead,
                cuts,
                row,
                further,
                known,
                with_p,
                unknown,
                left - 1,
                next,
            ) {
                return true;
            }
        }
    }
    if unknown == 0 {
        return false;
    }
    let next = gather(ahead, row, places);
    if !reaches(next, goal, unknown - 1) {
        return false;
    }
    leads(
        stands,
        ahead,
        cuts,
        row,
        goal,
        known,
        used,
        unknown - 1,
        left - 1,
        next,
    )
}

// Whether a cut set that begins with the first known + 1 cuts may turn the old route into the wanted one.
pub fn may_lead(
    stands: &[u64; 2401],
    ends: &[u64; 2401],
    parts: &[u64; 2401],
    cuts: &[usize; 5],
    head: u64,
    tail: u64,
    k: usize,
    known: usize,
) -> bool
    requires { Prefix k known cuts.now }
    ensures { MayLead k known cuts.now stands.now ends.now parts.now head tail result }
{
    let first = cuts[0];
    let places = head & standing::one_place(first);
    let last = cuts[known];
    let row = last * 49;
    let unknown = k - known - 1;
    let left = k - 1;
    let goal = tail >> (last - first);
    if unknown == 1 {
        return leads(
            stands, ends, cuts, row, goal, known, 0, unknown, left, places,
        );
    }
    leads(
        stands, parts, cuts, row, goal, known, 0, unknown, left, places,
    )
}
