// What the replaying programs share: lists of numbers in a line, each after a space, and the tables of their cases.
#![tactic(auto)]

ghost use Rattle.std.specs.Prelude.{◌≡◌, ℕ, Some};
ghost use Rattle.replay_lines.specs.Line.{spaced};

use std::fmt;

// The legs of document 01's pair case: D, A, B, C, E are 0 to 4.
pub const PAIR_CASE_LEGS: [u32; 25] = [
    0, 10, 1, 5, 1, 10, 0, 1, 1, 1, 1, 1, 0, 10, 10, 5, 1, 10, 0, 1, 1, 1, 10, 1, 0,
];

// The legs of its text case.
pub const TEXT_CASE_LEGS: [u32; 9] = [0, 5, 1, 1, 0, 5, 5, 1, 0];

// A number of any width, which a line has in decimal.
pub trait Number: Copy {
    ghost value: { Self → ℕ };

    fn wide(self) -> u64
        ensures { result ≡ value self };
}

impl Number for u64 {
    ghost value = { λ n. n };

    fn wide(self) -> u64 {
        self
    }
}

impl Number for u32 {
    ghost value = { λ n. n };

    fn wide(self) -> u64 {
        u64::from(self)
    }
}

impl Number for usize {
    ghost value = { λ n. n };

    fn wide(self) -> u64 {
        self as u64
    }
}

// Numbers, each after a space.
#[derive(Clone, Copy)]
pub struct Spaced<'a, T>(pub &'a [T]);

impl<'a, T: Number> fmt::Display for Spaced<'a, T> {
    ghost output = { λ list. Some (spaced T.value list.0.now) };

    fn fmt<W: fmt::Write>(&self, f: &mut fmt::Formatter<W>) -> fmt::Result {
        for number in self.0 {
            write!(f, " {}", number.wide())?;
        }
        Ok(())
    }
}
