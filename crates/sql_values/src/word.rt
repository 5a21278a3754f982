// Words as they are compared: in any case (of ASCII).
ghost use Rattle.std.specs.Prelude.{◌≡◌, bytes_eq};
ghost use Rattle.std.specs.Str.{str_to_ascii_uppercase};

/// Whether a word in upper case (of ASCII) is this one, which is given in upper case. Takes no memory.
#[tactic(auto, using(crate::proofs::Words::of_words))]
pub fn is_word(word: &[u8], upper: &[u8]) -> bool
    ensures { result ≡ bytes_eq (str_to_ascii_uppercase word.now) upper.now }
{
    if word.len() != upper.len() {
        return false;
    }
    for (i, byte) in word.iter().enumerate() {
        if byte.to_ascii_uppercase() != upper[i] {
            return false;
        }
    }
    true
}
