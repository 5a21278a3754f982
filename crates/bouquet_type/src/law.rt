// The laws of compiled bouquets and of runs. Each has no body: its clauses speak of the definitions alone.
ghost use Rattle.std.specs.Prelude.{◌≡◌, ℕ, ◌+◌, ◌*◌, ◌<◌, ◌≤◌, ◌⊎◌, ◌++◌, ◌∷◌, List, All, length, sum_by};
ghost use Rattle.sql_values.specs.Limits.{max_contours};
ghost use Rattle.plan_tree.specs.Plans.{PlanTree};
ghost use Rattle.plan_tree.specs.Enumerated.{IsPlan};
ghost use Rattle.bouquet_type.specs.Trees.{BouquetTree};
ghost use Rattle.bouquet_type.specs.Compiled.{IsCompiled, compiled};
ghost use Rattle.bouquet_type.specs.Bounded.{MeetsBound};
ghost use Rattle.bouquet_type.specs.Schedule.{Member};
ghost use Rattle.bouquet_type.specs.Runs.{end_of, total_work};

/// The law of compiled bouquets: what plans cost and the threshold determine a whole compiled bouquet of at most 128 contours,
/// and no `Bouquet` has more.
pub fn there_is_one_compiled_bouquet()
    ensures { (bouquet : BouquetTree) → IsCompiled bouquet → length bouquet.contours ≤ max_contours →
        bouquet ≡ compiled bouquet.costing bouquet.threshold }
{}

/// The law of the bound: whatever the plans of a block take, the work of the whole run of a bouquet of them meets the bound.
/// For a sound bouquet that is a promise: where the work of plans is as the costs at a point of the grid say, but for a
/// factor of a / b, it is at most 4 * a / b * (1 + threshold / 100) times the most plans of a contour times the work of any
/// plan of the block.
pub fn a_sound_bouquet_meets_the_bound()
    ensures { (bouquet : BouquetTree) (work : PlanTree → ℕ) →
        All (λ contour. All (IsPlan bouquet.costing.block) contour.plans) bouquet.contours →
        MeetsBound bouquet work (total_work bouquet work) }
{}

/// The law of the end: the first member whose work is within its budget ends the run, and all before it spent their budgets;
/// where there is none the final plan ends it, outside all contours. One of the two is so.
pub fn a_run_ends_with_the_first_that_fits()
    ensures fits { (work : PlanTree → ℕ) (before : List Member) (member : Member) →
        (after : List Member) (final : PlanTree) →
        All (λ other. other.budget < work other.plan) before →
        work member.plan ≤ member.budget →
        end_of work (before ++ member ∷ after) final ≡ record {
          plan = member.plan;
          total = sum_by (λ other. other.budget) before + work member.plan;
          runs = length before + 1;
          contour = member.contour;
        } }
    ensures none_fits { (work : PlanTree → ℕ) (members : List Member) (final : PlanTree) →
        All (λ other. other.budget < work other.plan) members →
        end_of work members final ≡ record {
          plan = final;
          total = sum_by (λ other. other.budget) members + work final;
          runs = length members + 1;
          contour = 0;
        } }
    ensures one_is { (work : PlanTree → ℕ) (members : List Member) →
        ((before : List Member) × (member : Member) × (after : List Member) ×
        (members ≡ before ++ member ∷ after) ×
        All (λ other. other.budget < work other.plan) before × (work member.plan ≤ member.budget)) ⊎
        All (λ other. other.budget < work other.plan) members }
{}
