// The bouquet of a name, as the statements ask for it that rely on its counts: it is refused where none has the name, then where
// a count of a table isn't what it was.
ghost use Rattle.std.specs.Prelude.{IfOk};
ghost use Rattle.query_block.specs.Blocks.{block_tree};
ghost use Rattle.cost_model.specs.Staleness.{RefusesFirst};
ghost use Rattle.db_catalog.specs.Fits.{Fits};
ghost use Rattle.bouquet_type.specs.Trees.{bouquet_tree};
ghost use Rattle.workspace.specs.Bouquets.{GivesDue};
ghost use Rattle.workspace.specs.Counted.{HasCountsOf};
ghost use Rattle.workspace.specs.Present.{present_due, stale_count};
ghost use Rattle.workspace.specs.States.{world_of};

use crate::named::no_bouquet;
use crate::stop::Stop;
use crate::workspace::Workspace;
use bouquet_type::Bouquet;
use cost_model::Stale;
use db_catalog::Database;
use sql_parse::Name;
use table_stats::fresh;

// Refuses the first count of a bouquet that isn't that of its tables any more.
fn refuse_stale(database: &Database, bouquet: &Bouquet) -> Result<(), Stale>
    requires { Fits database.now (block_tree bouquet.now.block) }
    ensures { RefusesFirst (stale_count database.now (bouquet_tree bouquet.now)) result }
{
    fresh(database, bouquet.block(), bouquet.stats())
}

impl Workspace {
    /// The bouquet of this name, whose counts are those of the tables.
    pub fn present(&self, name: &Name) -> Result<&Bouquet, Stop>
        ensures due { GivesDue (λ bouquet. bouquet_tree bouquet.now)
            (present_due (world_of self.now) name.now) result }
        ensures counts { IfOk result (λ bouquet.
            HasCountsOf self.now.database.tables (bouquet_tree bouquet.now)) }
        ensures fits { IfOk result (λ bouquet.
            Fits self.now.database (block_tree bouquet.now.block)) }
    {
        let Some(kept) = self.bouquets.get(name.bytes()) else {
            return Err(no_bouquet(name));
        };
        refuse_stale(&self.database, &kept.bouquet)?;
        Ok(&kept.bouquet)
    }
}
