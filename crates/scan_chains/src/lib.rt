// The rows of states as the places of the joint table that they add up, so that a sum needs no shifts. It holds no entry: the crates above call it.
#![tactic(auto)]

ghost use Rattle.std.specs.Prelude.{◌≡◌, ◌<◌};
ghost use Rattle.scan_joints.specs.JointTable.{Padded};
ghost use Rattle.scan_chains.specs.Chains.{cost, CellPlaced, ChainPuttable, ChainPut, ChainsFillable, Chained, Costable};

use scan_joints::{CELLS, ROW, ROW_BYTES};
use theory::PATTERNS;

// From the head through four states to the tail: five cells, each by its place in the joint table, a byte.
pub const CHAIN: usize = 5;

pub const CHAIN_BYTES: usize = CHAIN * PATTERNS;

// So many rows of states, with the places that they add up.
#[derive(Clone, Copy)]
pub struct ListedRows<'r> {
    pub states: &'r [u8; ROW_BYTES],
    pub chains: &'r [u8; CHAIN_BYTES],
    pub count: usize,
}

// The five places of row i. The joint table's line of a begins at 16 a, the head's at 144; the tail is column 8.
fn put_chain(rows: &[u8; ROW_BYTES], i: usize, chains: &mut [u8; CHAIN_BYTES])
    requires { ChainPuttable rows.now i chains.old }
    ensures { ChainPut rows.now i chains.old chains.new }
{
    let from = ROW * i;
    let a = rows[from];
    let b = rows[from + 1];
    let c = rows[from + 2];
    let d = rows[from + 3];
    let at = CHAIN * i;
    chains[at] = 144 + a;
    chains[at + 1] = 16 * a + b;
    chains[at + 2] = 16 * b + c;
    chains[at + 3] = 16 * c + d;
    chains[at + 4] = 16 * d + 8;
}

// The places of the first `count` rows.
pub fn fill_chains(rows: &[u8; ROW_BYTES], count: usize, chains: &mut [u8; CHAIN_BYTES])
    requires { ChainsFillable rows.now count chains.old }
    ensures { Chained rows.now count chains.new }
{
    for i in 0..count {
        put_chain(rows, i, chains);
    }
}

// The cell at a place.
fn cell_at(joint: &[u64; CELLS], place: u8) -> u64
    requires { Padded joint.now × (place < 160) }
    ensures { CellPlaced joint.now place result }
{
    joint[place as usize]
}

// The cost of row i: its five cells added up.
pub fn chain_cost(joint: &[u64; CELLS], chains: &[u8; CHAIN_BYTES], i: usize) -> u64
    requires { Costable joint.now chains.now i }
    ensures { result ≡ cost joint.now chains.now i }
{
    let at = CHAIN * i;
    let first = cell_at(joint, chains[at]) + cell_at(joint, chains[at + 1]);
    first
        + cell_at(joint, chains[at + 2])
        + cell_at(joint, chains[at + 3])
        + cell_at(joint, chains[at + 4])
}
