// A turn that was taken, as plain data.

/// A turn that was taken: one execution of one job.
#[derive(Clone, Copy, Drop)]
pub struct Turn {
    /// The number of the job, from 0.
    pub job: u32,
    /// The contour of the executed plan, from 1; 0 for the last plan, which has no budget.
    pub contour: u32,
    /// The place of the execution among those of the job, from 1.
    pub place: u32,
    /// What the job has spent after it, in units of work.
    pub spent: u128,
}
