//! Several queries by turns: a turn is one execution of one query, so that a long one need not hold up a short one.
//! To the layers above it promises that a job stands, whatever the order of the turns, where its own turns lead: an answered
//! one has the rows, the report and the work that a run of it alone has, and one that is refused is so as alone. The turns that
//! are told are exactly those that were taken.
//! It never lets one job see what another one learned, never takes a turn that isn't told, and never chooses between plans.
#![tactic(auto)]

mod job;
mod law;
mod progress;
mod state;
mod taking;
mod turn;

pub use job::Job;
pub use law::a_job_ends_as_its_run_alone;
pub use state::JobState;
pub use taking::{finish_turns, take_turns};
pub use turn::Turn;
