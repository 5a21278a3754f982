// How a job stands, as plain data.

/// How a job stands.
#[derive(Clone, Copy, Drop)]
pub enum JobState {
    /// It takes further turns. There is no row yet.
    Running {
        /// How many turns it has taken.
        place: u32,
    },
    /// Its rows and its report are there.
    Answered,
    /// All its executions together would spend more than the most work. All of that is spent, and there is no row.
    Limited,
    /// Memory ran out in one of its turns. There is no row, and it takes no further turn.
    Broken,
}
