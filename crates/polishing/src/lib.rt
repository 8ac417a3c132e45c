// Polishing a route by the scan of document 01, with every pattern for k or with lent rows of patterns; with pairs, whose words are lent beside them, or without. No
// entry: crates mittenschist, run and text call it. All stands on the slice: the scan from a place on.
#![tactic(auto)]

ghost use Rattle.theory.specs.Moves.{patterns};
ghost use Rattle.theory.specs.Tables.{problem, pattern_rows, trip};
ghost use Rattle.theory.specs.Answers.{Polishes};
ghost use Rattle.scan_round.specs.Lending.{trip_of};
ghost use Rattle.scan_loop.specs.Loop.{Scannable, Scans};
ghost use Rattle.polishing.specs.Loop.{PairedScan, PolishableRows, Polishable, PolishableWithPairs, SliceableRows, Sliceable, SliceableWithPairs, ScannedWith, SlicedRows};

use precedence::MEMBERS;
use precedence_closing::SIGNS;
use precedence_visits::VISIT_PLACES;
use scan_loop::Scanned;
use scan_round::Lent;
use theory::{Counts, Polished};

// What a slice counted, as polishing does, and the place where the next one begins.
#[derive(Clone, Copy, Debug, PartialEq, Eq)]
pub struct Sliced {
    pub finished: bool,
    pub examined: u64,
    pub accepted: u64,
    pub before: u64,
    pub after: u64,
    pub late: u64,
    pub cuts: [usize; 5],
    pub index: usize,
}

// The scan where there are no pairs, so that no row is closed.
fn scan_plain(
    k: usize,
    allowance: u64,
    lent: &Lent<'_>,
    orders: &[u8],
    masks: &[u8],
    start: [usize; 5],
    from: usize,
    route: &mut [u32],
) -> Scanned
    requires { Scannable k (trip_of lent.now) orders.now masks.now lent.now.members.now start from route.old }
    ensures { Scans (problem (trip_of lent.now)) (pattern_rows k orders.now masks.now) k allowance start from route.old result route.new }
{
    let mut signs = [0u16; 1];
    let mut visits = [0u64; 1];
    let none = 0;
    scan_loop::scan_cut_sets(
        k,
        allowance,
        lent,
        orders,
        masks,
        start,
        from,
        route,
        &mut signs[..none],
        &mut visits[..none],
    )
}

// The scan where there are pairs: what closed rows are found by stands here alone, so that a scan without pairs clears none of it.
fn scan_paired(
    k: usize,
    allowance: u64,
    lent: &Lent<'_>,
    orders: &[u8],
    masks: &[u8],
    start: [usize; 5],
    from: usize,
    route: &mut [u32],
) -> Scanned
    requires { PairedScan k (trip_of lent.now) orders.now masks.now lent.now.members.now start from route.old }
    ensures { Scans (problem (trip_of lent.now)) (pattern_rows k orders.now masks.now) k allowance start from route.old result route.new }
{
    let mut signs = [0u16; SIGNS];
    let mut visits = [0u64; VISIT_PLACES];
    scan_loop::scan_cut_sets(
        k,
        allowance,
        lent,
        orders,
        masks,
        start,
        from,
        route,
        &mut signs[..],
        &mut visits[..],
    )
}

// The scan from a place on with lent rows of patterns for k cuts; where the route has no cut set it is over at once.
fn scanned_with(
    k: usize,
    allowance: u64,
    lent: &Lent<'_>,
    orders: &[u8],
    masks: &[u8],
    start: [usize; 5],
    from: usize,
    route: &mut [u32],
) -> Scanned
    requires { SliceableRows k (trip_of lent.now) orders.now masks.now lent.now.members.now start from route.old }
    ensures { ScannedWith (problem (trip_of lent.now)) (pattern_rows k orders.now masks.now) k allowance start from route.old result route.new }
{
    if route.len() + 1 < k {
        return Scanned {
            finished: true,
            examined: 0,
            accepted: 0,
            kept: false,
            cuts: [0, 1, 2, 3, 4],
            index: 0,
        };
    }
    if lent.members.len() == 0 {
        return scan_plain(k, allowance, lent, orders, masks, start, from, route);
    }
    scan_paired(k, allowance, lent, orders, masks, start, from, route)
}

// A slice with lent rows of patterns for k cuts.
pub fn slice_rows(
    k: usize,
    allowance: u64,
    locations: usize,
    legs: &[u32],
    latest: &[u32],
    service: &[u32],
    depot: u32,
    end: u32,
    pairs: &[u32],
    members: &[u64],
    orders: &[u8],
    masks: &[u8],
    start: [usize; 5],
    from: usize,
    route: &mut [u32],
) -> Sliced
    requires { SliceableRows k (trip locations legs.now latest.now service.now depot end pairs.now) orders.now masks.now members.now start from route.old }
    ensures { SlicedRows (problem (trip locations legs.now latest.now service.now depot end pairs.now)) (pattern_rows k orders.now masks.now) k allowance start from route.old result route.new }
{
    let before = costs::route_length(locations, legs, depot, end, &route[..]);
    let lent = Lent {
        locations,
        legs,
        latest,
        service,
        depot,
        end,
        pairs,
        members,
    };
    let scanned = scanned_with(k, allowance, &lent, orders, masks, start, from, route);
    let after = costs::route_length(locations, legs, depot, end, &route[..]);
    let late = deadlines::late_position(
        scanned.kept,
        locations,
        legs,
        latest,
        service,
        depot,
        &route[..],
    );
    let cuts = scanned.cuts;
    Sliced {
        finished: scanned.finished,
        examined: scanned.examined,
        accepted: scanned.accepted,
        before,
        after,
        late,
        cuts,
        index: scanned.index,
    }
}

// Polishing with lent rows of patterns for k cuts: the slice from the first place.
pub fn polish_rows(
    k: usize,
    allowance: u64,
    locations: usize,
    legs: &[u32],
    latest: &[u32],
    service: &[u32],
    depot: u32,
    end: u32,
    pairs: &[u32],
    members: &[u64],
    orders: &[u8],
    masks: &[u8],
    route: &mut [u32],
) -> Polished
    requires { PolishableRows k (trip locations legs.now latest.now service.now depot end pairs.now) orders.now masks.now members.now route.old }
    ensures { Polishes (problem (trip locations legs.now latest.now service.now depot end pairs.now)) (pattern_rows k orders.now masks.now) k allowance route.old result route.new }
{
    let sliced = slice_rows(
        k,
        allowance,
        locations,
        legs,
        latest,
        service,
        depot,
        end,
        pairs,
        members,
        orders,
        masks,
        [0, 1, 2, 3, 4],
        0,
        route,
    );
    polish_numbers::counted(
        sliced.finished,
        Counts {
            examined: sliced.examined,
            accepted: sliced.accepted,
            before: sliced.before,
            after: sliced.after,
            late: sliced.late,
        },
    )
}

// A slice with every pattern for k cuts, from the table.
pub fn slice_route(
    k: usize,
    allowance: u64,
    locations: usize,
    legs: &[u32],
    latest: &[u32],
    service: &[u32],
    depot: u32,
    end: u32,
    pairs: &[u32],
    members: &[u64],
    start: [usize; 5],
    from: usize,
    route: &mut [u32],
) -> Sliced
    requires { Sliceable k (trip locations legs.now latest.now service.now depot end pairs.now) members.now start from route.old }
    ensures { SlicedRows (problem (trip locations legs.now latest.now service.now depot end pairs.now)) (patterns k) k allowance start from route.old result route.new }
{
    let part = pattern_table::part_of(k);
    let first_order = part.orders;
    let end_order = part.orders_end;
    let first_mask = part.masks;
    let end_mask = part.masks_end;
    let orders = pattern_table::orders();
    let masks = pattern_table::masks();
    slice_rows(
        k,
        allowance,
        locations,
        legs,
        latest,
        service,
        depot,
        end,
        pairs,
        members,
        &orders[first_order..end_order],
        &masks[first_mask..end_mask],
        start,
        from,
        route,
    )
}

// Polishing with every pattern for k cuts, from the table.
pub fn polish_route(
    k: usize,
    allowance: u64,
    locations: usize,
    legs: &[u32],
    latest: &[u32],
    service: &[u32],
    depot: u32,
    end: u32,
    pairs: &[u32],
    members: &[u64],
    route: &mut [u32],
) -> Polished
    requires { Polishable k (trip locations legs.now latest.now service.now depot end pairs.now) members.now route.old }
    ensures { Polishes (problem (trip locations legs.now latest.now service.now depot end pairs.now)) (patterns k) k allowance route.old result route.new }
{
    let part = pattern_table::part_of(k);
    let first_order = part.orders;
    let end_order = part.orders_end;
    let first_mask = part.masks;
    let end_mask = part.masks_end;
    let orders = pattern_table::orders();
    let masks = pattern_table::masks();
    polish_rows(
        k,
        allowance,
        locations,
        legs,
        latest,
        service,
        depot,
        end,
        pairs,
        members,
        &orders[first_order..end_order],
        &masks[first_mask..end_mask],
        route,
    )
}

// A slice with pairs.
pub fn slice_with_pairs(
    k: usize,
    allowance: u64,
    locations: usize,
    legs: &[u32],
    latest: &[u32],
    service: &[u32],
    depot: u32,
    end: u32,
    pairs: &[u32],
    start: [usize; 5],
    from: usize,
    route: &mut [u32],
) -> Sliced
    requires { SliceableWithPairs k (trip locations legs.now latest.now service.now depot end pairs.now) start from route.old }
    ensures { SlicedRows (problem (trip locations legs.now latest.now service.now depot end pairs.now)) (patterns k) k allowance start from route.old result route.new }
{
    let mut words = [0u64; MEMBERS];
    precedence::fill_members(pairs, &mut words);
    slice_route(
        k,
        allowance,
        locations,
        legs,
        latest,
        service,
        depot,
        end,
        pairs,
        &words[..],
        start,
        from,
        route,
    )
}

// The same with pairs: their words stand here alone, so that polishing without pairs fills none.
pub fn polish_with_pairs(
    k: usize,
    allowance: u64,
    locations: usize,
    legs: &[u32],
    latest: &[u32],
    service: &[u32],
    depot: u32,
    end: u32,
    pairs: &[u32],
    route: &mut [u32],
) -> Polished
    requires { PolishableWithPairs k (trip locations legs.now latest.now service.now depot end pairs.now) route.old }
    ensures { Polishes (problem (trip locations legs.now latest.now service.now depot end pairs.now)) (patterns k) k allowance route.old result route.new }
{
    let mut members = [0u64; MEMBERS];
    precedence::fill_members(pairs, &mut members);
    polish_route(
        k,
        allowance,
        locations,
        legs,
        latest,
        service,
        depot,
        end,
        pairs,
        &members[..],
        route,
    )
}
