// The law of audits. It has no body: its clause speaks of the definitions alone.
ghost use Rattle.std.specs.Prelude.{ℕ, IsTrue, List};
ghost use Rattle.sql_values.specs.declared.value.Value.{Value};
ghost use Rattle.query_block.specs.Blocks.{put_of};
ghost use Rattle.plan_tree.specs.Work.{work_of};
ghost use Rattle.db_catalog.specs.Database.{DatabaseState};
ghost use Rattle.bouquet_type.specs.Trees.{BouquetTree};
ghost use Rattle.bouquet_type.specs.Runs.{CostPremise};
ghost use Rattle.audit_run.specs.Audits.{audit_of};

/// The law of audits that say yes: where an audit tells that no plan's work is above its cost, the works are as the costs at
/// its point say, whatever values are put in, but for the quotient that it tells. That is the premise of the bound on a run's work.
pub fn audits_that_say_yes_show_the_premise()
    ensures { (bouquet : BouquetTree) (values : List Value) (database : DatabaseState) (point : List ℕ) →
        let block = put_of values bouquet.costing.block in
        let audit = audit_of bouquet block database point in
        IsTrue audit.below → CostPremise bouquet.costing audit.point audit.a audit.b
        (work_of database.tables block) }
{}
