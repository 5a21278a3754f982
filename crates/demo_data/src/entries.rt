// The entries of a file, ten at a time.
ghost use Rattle.std.specs.Prelude.{◌≡◌, ◌<◌, ◌≤◌, ◌+◌, ◌%◌, ◌++◌, OnOk, slice_set, length, take};
ghost use Rattle.std.specs.List.{flat_map, range_with_len};
ghost use Rattle.demo_data.specs.Demo.{entry_line};

use itoa::Buffer;
use std::alloc::AllocError;

// So many bytes are copied for each entry, and those past its end dropped again: a copy of a length that is known
// beforehand is two instructions, and one of the entry's length would be a call.
const COPIED: usize = 16;

// Appends the line, with this digit at both places. It ends behind the second place and a line feed.
#[tactic(auto, using(crate::proofs::LastDigit::digits_behind))]
fn push_line(
    text: &mut Vec<u8>,
    line: &[u8],
    first: usize,
    second: usize,
    digit: u8,
) -> Result<(), AllocError>
    requires first { first < second }
    requires second { second + 2 ≤ length line.now }
    ensures { OnOk result (text.new.items ≡
        text.old.items
        ++ slice_set (slice_set (take (second + 2) line.now) first digit) second digit) }
{
    let (start, len) = (text.len(), second + 2);
    text.extend_from_slice(line)?;
    text.truncate(start + len);
    text[start + first] = digit;
    text[start + second] = digit;
    Ok(())
}

/// Appends the ten entries from this one on, whose numbers end in 0: they differ only in the last digit of both.
/// What `line` holds before counts for nothing.
pub(crate) fn push_ten(
    text: &mut Vec<u8>,
    line: &mut Vec<u8>,
    first: u32,
    second: u32,
) -> Result<(), AllocError>
    requires first { first % 10 ≡ 0 }
    requires first_short { first < 1000000 }
    requires second { second % 10 ≡ 0 }
    requires second_short { second < 1000000 }
    ensures { OnOk result (text.new.items ≡
        text.old.items
        ++ flat_map (λ d. entry_line (first + d) (second + d)) (range_with_len 0 10)) }
{
    line.clear();
    line.extend_from_slice(Buffer::new().format(first).as_bytes())?;
    let comma = line.len();
    line.push(b',')?;
    line.extend_from_slice(Buffer::new().format(second).as_bytes())?;
    let end = line.len();
    line.push(b'\n')?;
    line.extend_from_slice(&[0; COPIED])?;
    let copied = &line[..COPIED];
    for d in 0..10 {
        push_line(text, copied, comma - 1, end - 1, b'0' + d)?;
    }
    Ok(())
}
