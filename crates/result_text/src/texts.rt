// A list of texts, each had by its place: what printing asks of a dictionary.
ghost use Rattle.std.specs.Prelude.{◌≡◌, ℕ, List, IsSome, Some};
ghost use Rattle.sql_values.specs.Dictionary.{text_of};

use sql_values::Texts;

/// Texts, each with its place, from 0.
pub(crate) trait TextList {
    ghost texts: { Self → List (List ℕ) };

    /// The text in this place.
    fn text_at(&self, place: i64) -> &[u8]
        requires { IsSome (text_of (texts self.now) place) }
        ensures { text_of (texts self.now) place ≡ Some result.now };
}

impl TextList for Texts {
    ghost texts = { λ t. t };

    fn text_at(&self, place: i64) -> &[u8] {
        self.text_of(place)
    }
}
