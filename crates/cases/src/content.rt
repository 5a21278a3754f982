// Bytes as they stand in a case file, both ways.
use std::alloc::{AllocError, Global};
use std::str::Bytes;

// The byte that two hexadecimal digits stand for.
fn hex_byte(high: Option<u8>, low: Option<u8>) -> Option<u8> {
    let high = char::from(high?).to_digit(16)?;
    let low = char::from(low?).to_digit(16)?;
    u8::try_from((high << 4) | low).ok()
}

// What the bytes behind a backslash stand for.
fn escaped_byte(bytes: &mut Bytes<'_>) -> Option<u8> {
    match bytes.next()? {
        b'n' => Some(b'\n'),
        b'r' => Some(b'\r'),
        b't' => Some(b'\t'),
        b'\\' => Some(b'\\'),
        b'x' => {
            let high = bytes.next();
            let low = bytes.next();
            hex_byte(high, low)
        }
        _ => None,
    }
}

/// The bytes that a text stands for. None: a backslash has none of `n`, `r`, `t`, `\`, `x` with two digits behind it.
pub(crate) fn bytes_of(alloc: Global, text: &str) -> Result<Option<Vec<u8>>, AllocError> {
    let mut out = Vec::new(alloc);
    let mut bytes = text.bytes();
    for _ in 0..text.len() {
        let Some(byte) = bytes.next() else {
            break;
        };
        if byte != b'\\' {
            out.push(byte)?;
            continue;
        }
        match escaped_byte(&mut bytes) {
            Some(byte) => out.push(byte)?,
            None => return Ok(None),
        }
    }
    Ok(Some(out))
}

// A byte that isn't a line feed, as a case file has it.
fn put_byte(out: &mut String, byte: u8) -> Result<(), AllocError> {
    match byte {
        b'\r' => out.push_str("\\r"),
        b'\t' => out.push_str("\\t"),
        b'\\' => out.push_str("\\\\"),
        0x20..=0x7e => out.push(char::from(byte)),
        _ => write!(out, "\\x{byte:02x}"),
    }
}

/// Appends lines that stand for the bytes: one for each line of them, and one for what is behind the last line feed.
pub(crate) fn put_lines(out: &mut String, bytes: &[u8]) -> Result<(), AllocError> {
    let mut rest = bytes;
    for _ in 0..bytes.len() {
        let end = rest.iter().position(|byte| *byte == b'\n');
        let line = rest.get(..end.unwrap_or(rest.len())).unwrap_or(rest);
        if line.is_empty() && end.is_none() {
            break;
        }
        out.push_str(if end.is_some() { "|" } else { "+" })?;
        for byte in line {
            put_byte(out, *byte)?;
        }
        out.push_str("\n")?;
        rest = rest.get(line.len().saturating_add(1)..).unwrap_or(&[]);
    }
    Ok(())
}
