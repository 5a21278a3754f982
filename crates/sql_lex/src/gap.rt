// White space and comments between tokens. It relies on the tests of bytes, and never looks into a token.
ghost use Rattle.std.specs.Prelude.{◌≡◌, ◌<◌, ◌≤◌, length, slice_index};
ghost use Rattle.std.specs.Bool.{IsFalse};
ghost use Rattle.sql_lex.specs.Gap.{IsGap, comment_begins, gap_begins};

use crate::byte::{MINUS, Run, is_white};

// The byte at a place, or 0 after the script's end.
pub(crate) fn byte_at(text: &[u8], place: usize) -> u8
    ensures { result ≡ slice_index text.now place }
{
    text.get(place).copied().unwrap_or(0)
}

fn comment_begins(text: &[u8], place: usize) -> bool
    requires { place < length text.now }
    ensures { result ≡ comment_begins text.now place }
{
    byte_at(text, place) == MINUS && byte_at(text, place + 1) == MINUS
}

// The place after the white space and the comments that stand from `from` on.
pub(crate) fn gap_end(text: &[u8], from: usize) -> usize
    requires { from ≤ length text.now }
    ensures in_text { result ≤ length text.now }
    ensures gap { IsGap text.now from result }
    ensures stops { result < length text.now → IsFalse (gap_begins text.now result) }
{
    let mut end = from;
    while end < text.len() {
        if is_white(text[end]) {
            end += 1;
        } else if comment_begins(text, end) {
            end = Run::Comment.end(text, end);
        } else {
            break;
        }
    }
    end
}
