// Tests of bytes, and how far the bytes that pass one of them go. It relies on nothing, and never knows what a token is.
ghost use Rattle.std.specs.Prelude.{◌≡◌, ◌≤◌, length};
ghost use Rattle.sql_lex.specs.Bytes.{is_white, is_sign, starts_comparison, is_second};
ghost use Rattle.sql_lex.specs.Run.{belongs, IsRun};

pub(crate) const QUOTE: u8 = b'\'';

pub(crate) const MINUS: u8 = b'-';

pub(crate) fn is_white(byte: u8) -> bool
    ensures { result ≡ is_white byte }
{
    matches!(byte, b' ' | b'\t' | b'\n' | b'\r')
}

pub(crate) fn is_sign(byte: u8) -> bool
    ensures { result ≡ is_sign byte }
{
    matches!(
        byte,
        b'(' | b')' | b',' | b'.' | b';' | b'*' | b'+' | b'-' | b'?'
    )
}

pub(crate) fn starts_comparison(byte: u8) -> bool
    ensures { result ≡ starts_comparison byte }
{
    matches!(byte, b'=' | b'<' | b'>')
}

// Whether `first` and `second` are one comparison.
pub(crate) fn is_second(first: u8, second: u8) -> bool
    ensures { result ≡ is_second first second }
{
    match first {
        b'<' => matches!(second, b'>' | b'='),
        b'>' => second == b'=',
        _ => false,
    }
}

// What ends where the next byte doesn't belong to it.
#[derive(Clone, Copy)]
pub(crate) enum Run {
    Comment,
    Word,
    Number,
}

impl Run {
    fn belongs(self, byte: u8) -> bool
        ensures { result ≡ belongs self byte }
    {
        match self {
            Run::Comment => byte != b'\n',
            Run::Word => byte.is_ascii_alphanumeric() || byte == b'_',
            Run::Number => byte.is_ascii_digit(),
        }
    }

    // The place of the first byte from `start` on that doesn't belong, or the script's end.
    pub(crate) fn end(self, text: &[u8], start: usize) -> usize
        requires { start ≤ length text.now }
        ensures { IsRun (belongs self) text.now start result }
    {
        let mut end = start;
        while end < text.len() && self.belongs(text[end]) {
            end += 1;
        }
        end
    }
}
