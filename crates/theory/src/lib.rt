// Why a call is refused, and the answer types. Definitions and laws are in specs/ and proofs/; the crate is below all code and holds no entry.
#![tactic(auto)]

ghost use Rattle.std.specs.Fmt.{decimal};
ghost use Rattle.std.specs.Prelude.{◌≡◌, Some};
ghost use Rattle.theory.specs.Numbers.{refusal_number, judged};

use std::error::Error;
use std::fmt;

// The most stops of a route, and the places at which it can be cut.
pub const STOPS: usize = 512;

pub const CUT_PLACES: usize = STOPS + 1;

// The most patterns of a k, which is 5, and the bytes of their orders.
pub const PATTERNS: usize = 383;

pub const ORDER_BYTES: usize = 6 * PATTERNS;

// Why a call is refused, with the scope's number of each, in the one order in which a call gives them.
#[derive(Clone, Copy, Debug, PartialEq, Eq)]
pub enum Refusal {
    // A text that is not of the form, or too long.
    TextForm = 10,
    // k outside 2 to 5.
    CutCount = 1,
    // A list of patterns: how many; the shape of one; one that changes nothing or stands earlier.
    RowCount = 26,
    RowShape = 27,
    RowRepeated = 28,
    // The number of locations, or a table or list of another size.
    TableSize = 2,
    LongLeg = 3,
    ServiceList = 23,
    UnknownStop = 4,
    UnknownEnd = 24,
    Pairs = 29,
    // Too many stops or rounds, or lists of rounds whose sizes disagree.
    RoundSize = 5,
    PatternIndex = 6,
    Cuts = 7,
    OtherRound = 8,
    NearbyInput = 9,
    // The first move: rounds of other lengths, or too long ones.
    MoveRounds = 25,
    // A problem that no text has room for.
    TextBounds = 31,
    // Too few lent places.
    Room = 21,
    JournalLength = 22,
}

impl Refusal {
    // The scope's number, which C is told.
    pub fn number(self) -> u32
        ensures { result ≡ refusal_number self }
    {
        self as u32
    }
}

impl fmt::Display for Refusal {
    ghost output = { λ refusal. Some (decimal (refusal_number refusal)) };

    fn fmt<W: fmt::Write>(&self, f: &mut fmt::Formatter<W>) -> fmt::Result {
        write!(f, "{}", self.number())
    }
}

impl Error for Refusal {}

impl From<Refusal> for u32 {
    ghost from_gives = { λ refusal n. n ≡ refusal_number refusal };

    fn from(refusal: Refusal) -> u32 {
        refusal.number()
    }
}

// What C is told of a call: the number of its refusal, or 0.
pub fn number_of(judged_call: Result<(), Refusal>) -> u32
    ensures { result ≡ judged judged_call }
{
    match judged_call {
        Ok(()) => 0,
        Err(refusal) => refusal.number(),
    }
}

// The deadline check: every deadline is kept, or the lowest position whose stop is late.
#[derive(Clone, Copy, Debug, PartialEq, Eq)]
pub enum Deadline {
    Kept,
    Late(usize),
}

// A pattern, as in the Rust: the order of the segments with 0 in the unused places, the mask (bit i reverses segment i), and how many segments there are.
#[derive(Clone, Copy, Debug, PartialEq, Eq)]
pub struct KOptReconnection {
    pub segment_order: [u8; 6],
    pub reverse_mask: u8,
    pub len: u8,
}

// What polishing counts: candidates examined and accepted, the lengths of the route handed in and of the route handed back, and the lowest position of that
// one that is late, or the number of its stops.
#[derive(Clone, Copy, Debug, PartialEq, Eq)]
pub struct Counts {
    pub examined: u64,
    pub accepted: u64,
    pub before: u64,
    pub after: u64,
    pub late: u64,
}

// The answer of polishing: no candidate is left that improves, or the allowance is spent.
#[derive(Clone, Copy, Debug, PartialEq, Eq)]
pub enum Polished {
    Finished(Counts),
    Spent(Counts),
}

// A nearest query: the position with its distance, or none is left.
#[derive(Clone, Copy, Debug, PartialEq)]
pub enum Nearest {
    Near(usize, f64),
    Nothing,
}

// A listing of cut sets: the number of sets written, with the walk ended or with more to come.
#[derive(Clone, Copy, Debug, PartialEq, Eq)]
pub enum Listing {
    Ended(usize),
    More(usize),
}

// What the polishing of a round in a run counts.
#[derive(Clone, Copy, Debug, PartialEq, Eq)]
pub struct Tally {
    pub examined: u64,
    pub accepted: u64,
}

// What a run did with a round. Unchanged has the number examined; nothing was accepted.
#[derive(Clone, Copy, Debug, PartialEq, Eq)]
pub enum RoundState {
    NotReached,
    Pinned,
    Short,
    Unchanged(u64),
    Changed(Tally),
    Spent(Tally),
}
