// Lent bytes, filled from a reader and handed to a writer, so that a program needs no heap for its input and output.
#![tactic(auto)]

ghost use Rattle.std.specs.Prelude.{◌≡◌, ℕ, ◌^◌, ◌<◌, List, IfOk, IfSome, OnErr, OnOk, length, take};
ghost use Rattle.std.specs.Io.{ReadsAtMost};
ghost use Rattle.std.specs.Io.KnownBytes.{Appends};
ghost use Rattle.lent_bytes.specs.Lent.{ReadsFirst, ConsumesPart, WritesPart};

mod filled;

pub use filled::Filled;
use std::io::{self, ErrorKind, Read, Write};

// Reads until the lent bytes are full or the input ends, and returns how many were read. A read that fails ends it: what was read until then stands in the bytes.
pub fn read_full<R: Read>(reader: &mut R, bytes: &mut [u8]) -> io::Result<usize>
    ensures bound { ReadsAtMost result bytes.new }
    ensures first { IfOk result (λ n. ReadsFirst (R.remaining reader.old) (R.remaining reader.new) (length bytes.new) (take n bytes.new)) }
    ensures part { OnErr result (ConsumesPart (R.remaining reader.old) (R.remaining reader.new) bytes.new) }
{
    // No iterator goes over the bytes: a call fills as many as it likes, and `done` counts those.
    let mut done = 0;
    while done < bytes.len() {
        let count = reader.read(&mut bytes[done..])?;
        if count == 0 {
            break;
        }
        done += count;
    }
    Ok(done)
}

// Writes all of the bytes. A write that fails, or takes none, ends it: a first part of them was written.
pub fn write_full<W: Write>(writer: &mut W, bytes: &[u8]) -> io::Result<()>
    ensures all { OnOk result (Appends (W.contents writer.old) (W.contents writer.new) bytes.now) }
    ensures part { OnErr result (WritesPart (W.contents writer.old) (W.contents writer.new) bytes.now) }
{
    // No iterator goes over the bytes: a call takes as many as it likes, and `done` counts those.
    let mut done = 0;
    while done < bytes.len() {
        let count = writer.write(&bytes[done..])?;
        if count == 0 {
            return Err(ErrorKind::WriteZero.into());
        }
        done += count;
    }
    Ok(())
}

// A program from bytes to bytes, which answers in lent ones.
pub trait Program<const SIZE: usize> {
    ghost answer: { List ℕ → List ℕ };

    fn run(text: &[u8]) -> Filled<SIZE>
        ensures { take result.length result.bytes ≡ answer text.now };
}

// Reads an input's first bytes, as many as there is room for, and writes what the program answers to them. Where it returns an error, what was written is a first part of the answer, maybe
// none.
pub fn answer_input<const SIZE: usize, P: Program<SIZE>, R: Read, W: Write>(
    room: &mut [u8],
    reader: &mut R,
    writer: &mut W,
) -> io::Result<()>
    requires { SIZE < 2 ^ 62 }
    ensures answered { OnOk result (IfSome (R.remaining reader.old) (λ text. Appends (W.contents writer.old) (W.contents writer.new) (P.answer (take (length room.old) text)))) }
    ensures part { OnErr result (IfSome (R.remaining reader.old) (λ text. WritesPart (W.contents writer.old) (W.contents writer.new) (P.answer (take (length room.old) text)))) }
{
    let got = read_full(reader, room)?;
    let answer = P::run(&room[..got]);
    write_full(writer, answer.written())
}
