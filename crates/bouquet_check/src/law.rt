// The laws of verdicts. Each has no body: its clauses speak of the definitions alone.
ghost use Rattle.std.specs.Prelude.{◌≡◌, ◌↔◌, ℕ, All};
ghost use Rattle.plan_tree.specs.Plans.{PlanTree};
ghost use Rattle.plan_tree.specs.Enumerated.{IsPlan};
ghost use Rattle.cost_model.specs.Costing.{IsCosting};
ghost use Rattle.bouquet_type.specs.Trees.{BouquetTree};
ghost use Rattle.bouquet_type.specs.Sound.{IsSound};
ghost use Rattle.bouquet_type.specs.Runs.{total_work};
ghost use Rattle.bouquet_type.specs.Bounded.{IsWithinBound};
ghost use Rattle.bouquet_check.specs.Verdicts.{Sound, verdict_of};
ghost use Rattle.bouquet_check.specs.Evidence.{IsEvidence};

/// The law of verdicts: a bouquet is called sound exactly where it is. So to look at frontiers is enough.
pub fn sound_bouquets_are_called_sound()
    ensures { (bouquet : BouquetTree) → IsCosting bouquet.costing →
        (verdict_of bouquet ≡ Sound) ↔ IsSound bouquet }
{}

/// The law of evidence: a bouquet is as its verdict says. Where a point is told, no plan of the contour fits there.
pub fn verdicts_are_evidence()
    ensures { (bouquet : BouquetTree) → IsCosting bouquet.costing →
        IsEvidence bouquet (verdict_of bouquet) }
{}

/// The law of the bound: whatever the plans of a block take, the work of the whole run of a bouquet that is called sound is
/// within the bound.
pub fn a_bouquet_called_sound_is_within_the_bound()
    ensures { (bouquet : BouquetTree) (work : PlanTree → ℕ) → IsCosting bouquet.costing →
        All (λ contour. All (IsPlan bouquet.costing.block) contour.plans) bouquet.contours →
        verdict_of bouquet ≡ Sound →
        IsWithinBound bouquet work (total_work bouquet work) }
{}
