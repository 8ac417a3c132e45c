// The questions of the stored answers, drawn by a rule: the host's store_answers draws the same. No entry: the replaying programs call it.
#![tactic(auto)]

ghost use Rattle.std.specs.Prelude.{◌≡◌, ℕ, length};
ghost use Rattle.replay_drawing.specs.Draw.{following, drawn, itself, float, all_drawn, allowance, cut_count};

// The number that follows.
fn next(state: u16) -> u16
    ensures { result ≡ following state }
{
    ((state as u32 * 25173 + 13849) % 65536) as u16
}

// A number from 0 to span.
fn draw(state: u16, span: u16) -> u32
    ensures { result ≡ drawn span state }
{
    (state as u32 / 8) % (span as u32 + 1)
}

// A number as a table has it.
pub trait Entry: Copy {
    ghost value: { ℕ → Self };

    fn of(number: u32) -> Self
        ensures { result ≡ value number };
}

impl Entry for u32 {
    ghost value = { itself };

    fn of(number: u32) -> u32 {
        number
    }
}

impl Entry for f64 {
    ghost value = { float };

    fn of(number: u32) -> f64 {
        f64::from(number)
    }
}

// Numbers from 0 to span in every place, drawn one after another.
pub fn fill<T: Entry>(seed: u16, span: u16, places: &mut [T])
    ensures { places.new ≡ all_drawn T.value span seed (length places.old) }
{
    let mut state = seed;
    for place in places.iter_mut() {
        state = next(state);
        *place = T::of(draw(state, span));
    }
}

pub fn allowance_of(seed: u16) -> u64
    ensures { result ≡ allowance seed }
{
    if seed % 3 == 2 {
        seed as u64 * 20
    } else {
        1000000
    }
}

pub fn cuts_of(seed: u16) -> usize
    ensures { result ≡ cut_count seed }
{
    (2 + seed % 4) as usize
}
