// How far a job is, with its report once there is one.
ghost use Rattle.std.specs.Prelude.{◌≡◌, option_map};
ghost use Rattle.turns.specs.Jobs.{progress_by, report_of, job_state_of};

use crate::state::JobState;
use bouquet_type::{Report, RunFault};

#[derive(Drop)]
pub enum Progress {
    // So many turns were taken, and no plan is done yet.
    Running { place: u32 },
    Answered { report: Report },
    Limited,
    Broken,
}

impl Progress {
    pub(crate) fn state(&self) -> JobState
        ensures { result ≡ job_state_of self.now }
    {
        match self {
            Progress::Running { place } => JobState::Running { place: *place },
            Progress::Answered { report: _ } => JobState::Answered,
            Progress::Limited => JobState::Limited,
            Progress::Broken => JobState::Broken,
        }
    }

    pub(crate) fn report(&self) -> Option<&Report>
        ensures { option_map (λ report. report.now) result ≡ report_of self.now }
    {
        match self {
            Progress::Answered { report } => Some(report),
            _ => None,
        }
    }
}

// How far a job is after this execution, the last of so many.
pub(crate) fn progress_by(made: Result<Option<Report>, RunFault>, place: u32) -> Progress
    ensures { result ≡ progress_by made place }
{
    match made {
        Ok(None) => Progress::Running { place },
        Ok(Some(report)) => Progress::Answered { report },
        Err(RunFault::WorkLimit { spent: _ }) => Progress::Limited,
        Err(RunFault::NoMemory) => Progress::Broken,
    }
}
