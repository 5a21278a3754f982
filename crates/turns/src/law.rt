// The law of jobs. It has no body: its clauses speak of the definitions alone.
ghost use Rattle.std.specs.Prelude.{◌≡◌, ◌≢◌, ℕ, ◌<◌, ◌≤◌, length};
ghost use Rattle.bouquet_type.specs.Schedule.{schedule};
ghost use Rattle.bouquet_type.specs.Runs.{RunEnd, run_end, total_work};
ghost use Rattle.bouquet_run.specs.Outcomes.{works_over};
ghost use Rattle.turns.specs.Standing.{JobTask, Ended, Lost, Past, job_after};

/// The law of jobs: one that is answered has ended as the run of its bouquet does alone; one that is limited is one whose run
/// would take more than the most work; and after more turns than there are executions under a budget it is the one or the
/// other. It isn't broken by any number of turns.
pub fn a_job_ends_as_its_run_alone()
    ensures answered { (task : JobTask) (count : ℕ) (end : RunEnd) → job_after task count ≡ Ended end →
        (end ≡ run_end task.bouquet (works_over task.database task.block)) × (end.total ≤ task.most) }
    ensures limited { (task : JobTask) (count : ℕ) → job_after task count ≡ Past →
        task.most < total_work task.bouquet (works_over task.database task.block) }
    ensures fits { (task : JobTask) (count : ℕ) → length (schedule task.bouquet) < count →
        total_work task.bouquet (works_over task.database task.block) ≤ task.most →
        job_after task count ≡ Ended (run_end task.bouquet (works_over task.database task.block)) }
    ensures passes { (task : JobTask) (count : ℕ) → length (schedule task.bouquet) < count →
        task.most < total_work task.bouquet (works_over task.database task.block) →
        job_after task count ≡ Past }
    ensures unbroken { (task : JobTask) (count : ℕ) → job_after task count ≢ Lost }
{}
