// The laws of cards and costs. Each has no body: its clauses speak of the definitions alone.
ghost use Rattle.std.specs.Prelude.{ℕ, ◌≡◌, ◌^◌, ◌*◌, ◌<◌, ◌≤◌, ◌&&◌, Contains, IsFalse, List, length};
ghost use Rattle.std.specs.Int.{div_ceil};
ghost use Rattle.sql_values.specs.Limits.{max_product, cost_bound};
ghost use Rattle.ess_grid.specs.Points.{IsGrid, IsPoint};
ghost use Rattle.ess_grid.specs.Order.{PointBelow};
ghost use Rattle.query_block.specs.Meaning.{RelationSet};
ghost use Rattle.plan_tree.specs.Plans.{PlanTree};
ghost use Rattle.plan_tree.specs.Enumerated.{IsPlan, IsSubPlan};
ghost use Rattle.cost_model.specs.Costing.{CostingTree, IsCosting};
ghost use Rattle.cost_model.specs.AtPoint.{stats_at};
ghost use Rattle.cost_model.specs.Alike.{IsAlike};
ghost use Rattle.cost_model.specs.Cards.{kept_product, card_of};
ghost use Rattle.cost_model.specs.Rounding.{halvings_inside};
ghost use Rattle.cost_model.specs.Costs.{cost_of};
ghost use Rattle.cost_model.specs.Growth.{IsMonotone};
ghost use Rattle.cost_model.specs.Prices.{own_cost, sum_of};
ghost use Rattle.cost_model.specs.Best.{IsCheapest, IsBest};
ghost use Rattle.cost_model.specs.Optimal.{optimal_cost, best_plan};
ghost use Rattle.cost_model.specs.Frontier.{frontier};
ghost use Rattle.cost_model.specs.Greedy.{greedy, CoversAt};

/// The law of monotony: cards, costs and the optimal cost grow with selectivity.
pub fn costs_grow_with_selectivity()
    ensures cards { (costing : CostingTree) (set : RelationSet) → IsMonotone (card_of costing set) }
    ensures costs { (costing : CostingTree) (p : PlanTree) → IsMonotone (cost_of costing p) }
    ensures optimal { (costing : CostingTree) → IsMonotone (optimal_cost costing) }
{}

/// The law of rounding: every selectivity is the whole, halved, so a card is also the product of the filtered counts
/// at the point, halved for all edges inside the set together, and rounded up once.
pub fn a_card_is_rounded_once()
    ensures { (costing : CostingTree) (set : RelationSet) (point : List ℕ) →
        card_of costing set point ≡ div_ceil (kept_product set 0 (stats_at costing point).relations)
        (2 ^ halvings_inside costing.grid point set 0 costing.block.edges) }
{}

/// The law of sets: a card depends on nothing but which relations are in the set, and the levels on the axes of the edges
/// inside it and of its relations.
pub fn cards_see_the_set_alone()
    ensures { (costing : CostingTree) (set other : RelationSet) (point elsewhere : List ℕ) →
        ((relation : ℕ) → set relation ≡ other relation) →
        IsAlike costing.block set point elsewhere →
        card_of costing set point ≡ card_of costing other elsewhere }
{}

/// The law of bounds: neither a card, nor the pairs of rows of two sets without a common relation, pass the limit of
/// combinations, and every cost is below 2^113.
pub fn costs_are_bounded()
    ensures card { (costing : CostingTree) (set : RelationSet) (point : List ℕ) →
        IsCosting costing → card_of costing set point ≤ max_product }
    ensures pairs { (costing : CostingTree) (set other : RelationSet) (point : List ℕ) →
        IsCosting costing → ((relation : ℕ) → IsFalse (set relation && other relation)) →
        card_of costing set point * card_of costing other point ≤ max_product }
    ensures cost { (costing : CostingTree) (p : PlanTree) (point : List ℕ) →
        IsCosting costing → IsSubPlan costing.block p → cost_of costing p point < cost_bound }
{}

/// The law of prices: the cost of a plan is the sum of what its nodes cost by themselves.
pub fn costs_are_sums()
    ensures { (costing : CostingTree) (p : PlanTree) (point : List ℕ) →
        IsSubPlan costing.block p →
        cost_of costing p point ≡ sum_of (own_cost costing point) p }
{}

/// The law of the optimal cost: it is the least cost of all plans of the block, and that of a cheapest one.
pub fn optimal_costs_are_least()
    ensures least { (costing : CostingTree) (p : PlanTree) (point : List ℕ) →
        IsPlan costing.block p → optimal_cost costing point ≤ cost_of costing p point }
    ensures cheapest { (costing : CostingTree) (p : PlanTree) (point : List ℕ) →
        IsCheapest costing point p → cost_of costing p point ≡ optimal_cost costing point }
{}

/// The law of the best plan: of a block that has a plan `best_plan` is a best one at each point, and there is no other.
pub fn one_plan_is_best()
    ensures best { (costing : CostingTree) (p : PlanTree) (point : List ℕ) →
        IsPlan costing.block p → IsBest costing point (best_plan costing point) }
    ensures only { (costing : CostingTree) (p : PlanTree) (point : List ℕ) →
        IsBest costing point p → p ≡ best_plan costing point }
{}

/// The law of the frontier: each point at which the optimal cost is within a contour's is below a point of the contour's
/// frontier.
pub fn frontiers_lie_above()
    ensures { (costing : CostingTree) (cost : ℕ) (point : List ℕ) →
        IsGrid costing.grid → IsPoint costing.grid point → optimal_cost costing point ≤ cost →
        (other : List ℕ) × Contains (frontier costing cost) other × PointBelow point other }
{}

/// The law of greedy reduction: of a block that has a plan it takes plans that cover all of the points, and each of them is
/// the best plan at one of the points.
pub fn greedy_plans_cover_all_points()
    ensures covered { (costing : CostingTree) (p : PlanTree) (threshold : ℕ) (points : List (List ℕ)) (point : List ℕ) →
        IsPlan costing.block p → Contains points point →
        (taken : PlanTree) × Contains (greedy costing threshold points) taken × CoversAt costing threshold taken point }
    ensures best { (costing : CostingTree) (threshold : ℕ) (points : List (List ℕ)) (taken : PlanTree) →
        Contains (greedy costing threshold points) taken →
        (point : List ℕ) × Contains points point × (taken ≡ best_plan costing point) }
    ensures few { (costing : CostingTree) (threshold : ℕ) (points : List (List ℕ)) →
        length (greedy costing threshold points) ≤ length points }
{}
