// A part of the scan: a stretch, or the rest of a cut set, whose patterns from an index on are a list of their own. No entry: crate scan_loop calls it.
#![tactic(auto)]

ghost use Rattle.std.specs.Prelude.{◌≡◌, true, ◌≤◌, length};
ghost use Rattle.scan_chains.specs.Chains.{Chained};
ghost use Rattle.scan_rest.specs.Rest.{RowsFrom, RowsKeepable, RowsKept, SignsKeepable, SignsFit, ChainsKeepable, PartAllowed, RestEnded};
ghost use Rattle.scan_rest.specs.Asked.{PartAsked, PartScannedAt, PartLeftAt};

use scan_chains::{CHAIN_BYTES, ListedRows};
use scan_joints::ROW_BYTES;
use scan_round::Round;
use scan_step::Stretch;
use scan_stretch::Work;

// The rows of the patterns from one on, with the places that they add up.
#[derive(Drop)]
pub struct Rows {
    pub states: [u8; ROW_BYTES],
    pub chains: [u8; CHAIN_BYTES],
}

// The rows of the patterns from an index on, unless they were filled from there.
fn keep_rows(
    k: usize,
    orders: &[u8],
    masks: &[u8],
    filled: usize,
    index: usize,
    rows: &mut [u8; ROW_BYTES],
)
    requires { RowsKeepable k orders.now masks.now filled index rows.old }
    ensures { RowsKept k orders.now masks.now filled index rows.old rows.new }
{
    if filled == index {
        return;
    }
    let from = index * (k + 1);
    scan_rows::fill_rows(k, &orders[from..], &masks[index..], rows);
}

// Their signs, where places are lent for them, unless they were filled with these rows.
fn keep_signs(
    rows: &[u8; ROW_BYTES],
    patterns: usize,
    filled: usize,
    index: usize,
    signs: &mut [u16],
)
    requires { SignsKeepable rows.now patterns filled index signs.old }
    ensures { SignsFit rows.now patterns signs.new }
{
    if filled == index {
        return;
    }
    if signs.len() == 0 {
        return;
    }
    precedence_closing::fill_signs(rows, patterns, signs);
}

// The places that they add up, unless they were filled with these rows.
fn keep_chains(
    rows: &[u8; ROW_BYTES],
    patterns: usize,
    filled: usize,
    index: usize,
    chains: &mut [u8; CHAIN_BYTES],
)
    requires { ChainsKeepable rows.now patterns filled index chains.old }
    ensures { Chained rows.now patterns chains.new }
{
    if filled == index {
        return;
    }
    scan_chains::fill_chains(rows, patterns, chains);
}

// The candidates that a part may take of those left: a rest no more than it has, so that it ends with its cut set.
fn part_allowed(index: usize, patterns: usize, left: u64) -> u64
    ensures { PartAllowed index patterns left result }
{
    if index == 0 {
        return left;
    }
    scan_step::still_allowed(patterns, left) as u64
}

// How a rest ended, by how it did as a stretch of its own.
fn rest_end(index: usize, patterns: usize, stretch: Stretch) -> Stretch
    requires { (index ≤ 383) × (stretch.gains ≡ true → stretch.pattern ≤ 383) }
    ensures { RestEnded index patterns stretch result }
{
    if stretch.gains {
        return Stretch {
            examined: stretch.examined,
            gains: true,
            through: false,
            pattern: index + stretch.pattern,
        };
    }
    Stretch {
        examined: stretch.examined,
        gains: false,
        through: stretch.examined == patterns as u64,
        pattern: 0,
    }
}

// A stretch from a cut set on, or from one of its patterns on the rest of that cut set, which is left at hand. `filled` is where the rows were filled from.
pub fn scan_part(
    round: &Round<'_, '_>,
    orders: &[u8],
    masks: &[u8],
    rows: &mut Rows,
    signs: &mut [u16],
    index: usize,
    cuts: &mut [usize],
    work: &mut Work,
    visits: &mut [u64],
    filled: usize,
    left: u64,
) -> Stretch
    requires { PartAsked round.now orders.now masks.now rows.old signs.old index cuts.old work.old visits.old filled }
    ensures { PartScannedAt round.now orders.now masks.now cuts.old index left result cuts.new work.new × PartLeftAt round.now orders.now masks.now index (length cuts.old) rows.new signs.new work.new visits.new }
{
    keep_rows(cuts.len(), orders, masks, filled, index, &mut rows.states);
    let patterns = masks.len() - index;
    keep_signs(&rows.states, patterns, filled, index, signs);
    keep_chains(&rows.states, patterns, filled, index, &mut rows.chains);
    let allowed = part_allowed(index, patterns, left);
    let last = cuts.len() - 1;
    let here = cuts[last];
    let listed = ListedRows {
        states: &rows.states,
        chains: &rows.chains,
        count: patterns,
    };
    let stretch = scan_stretch::scan_stretch(
        round,
        &listed,
        &signs[..],
        cuts,
        work,
        visits,
        allowed,
    );
    if index == 0 {
        return stretch;
    }
    cuts[last] = here;
    rest_end(index, patterns, stretch)
}
