// A season's input parted into its blocks, with a line `next` between two. No entry: crate season_report calls it.
#![tactic(auto)]

ghost use Rattle.std.specs.Prelude.{◌≡◌, length};
ghost use Rattle.season_blocks.specs.Blocks.{line_size, block_size, Ends, Parted};

use text_tokens::skip_key;

// How many bytes the first line has, its LF among them.
#[tactic(auto, unfolding(crate::specs::Blocks::line_size))]
fn short_line_size(text: &[u8]) -> usize
    ensures { result ≡ line_size text.now }
{
    let mut size = 0;
    let mut rest = text;
    while let [byte, tail @ ..] = rest {
        size += 1;
        if *byte == b'\n' {
            return size;
        }
        rest = tail;
    }
    size
}

// The same, eight bytes in a turn as long as none of them is LF: byte by byte alone, parting a season costs more than the bar of 5 % of the whole.
fn line_size(text: &[u8]) -> usize
    ensures { result ≡ line_size text.now }
{
    let mut size = 0;
    let mut rest = text;
    while rest.len() >= 8 {
        if rest[..8].contains(&b'\n') {
            break;
        }
        size += 8;
        rest = &rest[8..];
    }
    size + short_line_size(rest)
}

// How many bytes the first block has: those before its separator, or before the end of the text.
fn block_size(text: &[u8]) -> usize
    ensures { result ≡ block_size text.now }
{
    // No iterator goes over the lines: `size` grows by as many bytes as a line has.
    let mut size = 0;
    while size < text.len() {
        let rest = &text[size..];
        if let Some(_) = skip_key(rest, b"next\n") {
            return size;
        }
        size += line_size(rest);
    }
    size
}

// Where each block ends, into the lent places; how many blocks there are, or none for more than 64.
pub fn part_blocks(text: &[u8], ends: &mut [usize; 64]) -> Option<usize>
    requires { length ends.old ≡ 64 }
    ensures { Parted text.now ends.new result }
{
    let mut end = block_size(text);
    ends[0] = end;
    for count in 1..64 {
        if text.len() <= end {
            return Some(count);
        }
        end += 5 + block_size(&text[end + 5..]);
        ends[count] = end;
    }
    if end < text.len() {
        return None;
    }
    Some(64)
}
