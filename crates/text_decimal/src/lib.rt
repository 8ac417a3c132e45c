// Numbers in decimal and texts, put into lent bytes. No entry: the crates above call it.
#![tactic(auto)]

ghost use Rattle.std.specs.Prelude.{◌≡◌, ◌≤◌, length, drop};
ghost use Rattle.text_decimal.specs.Decimal.{last_digit, digits, Spelled};
ghost use Rattle.text_decimal.specs.Text.{Room, Put};

// text into out from `at` on; the place after it.
pub fn put_text(text: &[u8], out: &mut [u8], at: usize) -> usize
    requires { Room text.now out.old at }
    ensures { Put text.now out.old at out.new result }
{
    let end = at + text.len();
    out[at..end].copy_from_slice(text);
    end
}

// The byte of the last digit.
fn last_digit(value: u64) -> u8
    ensures { result ≡ last_digit value }
{
    (48 + value % 10) as u8
}

// The digits of value, up to the end of `places`; where they start.
fn spell(value: u64, places: &mut [u8; 20]) -> usize
    requires { length places.old ≡ 20 }
    ensures { Spelled value result places.new }
{
    let mut start = 19;
    places[start] = last_digit(value);
    let mut rest = value / 10;
    // A for loop is no plainer: how many digits there are is known only where none is left, so it would need a second way out.
    while rest > 0 {
        start -= 1;
        places[start] = last_digit(rest);
        rest /= 10;
    }
    start
}

// value in decimal into out from `at` on; the place after it.
pub fn put_number(value: u64, out: &mut [u8], at: usize) -> usize
    requires { Room (digits value) out.old at }
    ensures { Put (digits value) out.old at out.new result }
{
    let mut places = [b'0'; 20];
    let start = spell(value, &mut places);
    put_text(&places[start..20], out, at)
}
