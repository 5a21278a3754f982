//! Whether a bouquet that somebody else made is sound, so that the bound on the work of its runs holds for it; where it isn't,
//! what it breaks first.
//! To the layers above it promises that `check` answers exactly the defined verdict, that this is `Sound` exactly where the
//! bouquet is, and by laws that each verdict shows what it says.
//! It never changes a bouquet, never makes a plan, and never looks at a point that isn't on the frontier of a contour.
#![tactic(auto)]

mod budgeted;
mod checked;
mod law;
mod verdict;

pub use checked::check;
pub use law::{
    a_bouquet_called_sound_is_within_the_bound, sound_bouquets_are_called_sound,
    verdicts_are_evidence,
};
pub use verdict::Verdict;
