// The laws of what is known. Each has no body: its clauses speak of the definitions alone.
ghost use Rattle.std.specs.Prelude.{ℕ, ◌≤◌, List, length};
ghost use Rattle.sql_values.specs.Stored.{StoredTable};
ghost use Rattle.query_block.specs.Blocks.{BlockTree, IsBlock};
ghost use Rattle.query_block.specs.Meaning.{rows_of};
ghost use Rattle.plan_tree.specs.Plans.{PlanTree};
ghost use Rattle.plan_tree.specs.Enumerated.{IsSubPlan};
ghost use Rattle.plan_tree.specs.Sets.{set_of};
ghost use Rattle.plan_tree.specs.Work.{work_of};
ghost use Rattle.known_rows.specs.Entries.{entries_found};
ghost use Rattle.known_rows.specs.Known.{AreKnown, KnownState, allowed, learned, learned_entries, listed_units, nothing_known};
ghost use Rattle.known_rows.specs.LeastWork.{least_work};

/// The law of the beginning: that nothing is known is so of all tables and blocks.
pub fn nothing_is_known_at_first()
    ensures { (tables : List StoredTable) (block : BlockTree) → AreKnown tables block nothing_known }
{}

/// The law of learning: where a set has at least as many rows as are learned of it, what is known stays so.
pub fn what_is_learned_is_known()
    ensures { (tables : List StoredTable) (block : BlockTree) (known : KnownState) (set rows : ℕ) →
        AreKnown tables block known → rows ≤ length (rows_of tables block (set_of set)) →
        AreKnown tables block (learned known set rows) }
{}

/// The law of learning entries: where an edge finds at least as many entries for the rows of a set as are learned of it, what is
/// known stays so.
pub fn what_is_found_is_known()
    ensures { (tables : List StoredTable) (block : BlockTree) (known : KnownState) (edge set entries : ℕ) →
        AreKnown tables block known → entries ≤ entries_found tables block edge (set_of set) →
        AreKnown tables block (learned_entries known edge set entries) }
{}

/// The law of listing: how much work may go into it, and went into it, changes nothing that is known.
pub fn what_is_allowed_is_known()
    ensures { (tables : List StoredTable) (block : BlockTree) (known : KnownState) (units : ℕ) →
        AreKnown tables block known →
        AreKnown tables block (allowed known units) × AreKnown tables block (listed_units known units) }
{}

/// The law of the least work: where what is known is so, no plan works less.
pub fn no_plan_works_less_than_the_least()
    ensures { (tables : List StoredTable) (block : BlockTree) (known : KnownState) (p : PlanTree) →
        IsBlock block → IsSubPlan block p → AreKnown tables block known →
        least_work tables block known p ≤ work_of tables block p }
{}
