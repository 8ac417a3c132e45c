// Lent bytes of which the first ones are written: what a program answers, with no heap.
ghost use Rattle.std.specs.Prelude.{◌≡◌, ℕ, ◌≤◌, take};

// The first `length` of the bytes are written; what stands behind them says nothing, so there is no derived equality.
#[derive(Clone, Copy, Debug)]
pub struct Filled<const SIZE: usize> {
    pub bytes: [u8; SIZE],
    pub length: usize,
    pub ghost within: { length ≤ SIZE },
}

impl<const SIZE: usize> Filled<SIZE> {
    pub fn new(bytes: [u8; SIZE], length: usize) -> Self
        requires { length ≤ SIZE }
        ensures { take result.length result.bytes ≡ take length bytes.entry }
    {
        Filled { bytes, length }
    }

    pub fn written(&self) -> &[u8]
        ensures { result.now ≡ take self.now.length self.now.bytes }
    {
        &self.bytes[..self.length]
    }
}
