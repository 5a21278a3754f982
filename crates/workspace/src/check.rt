// CHECK: it looks at no table, so a bouquet whose counts are out of date is checked too, by its own.
ghost use Rattle.std.specs.Prelude.{OnOk, IfSome};
ghost use Rattle.workspace.specs.Check.{VerdictHolds, check_outcome};
ghost use Rattle.workspace.specs.Returns.{ReturnsFree};
ghost use Rattle.workspace.specs.States.{world_of};
ghost use Rattle.workspace.specs.World.{bouquet_in};

use crate::lines::check_line;
use crate::named::no_bouquet;
use crate::stop::Stop;
use crate::workspace::Workspace;
use sql_parse::Name;
use std::alloc::Global;

impl Workspace {
    /// Tells whether the bound holds for the bouquet of this name, whoever made it.
    pub fn check(&self, alloc: Global, name: &Name) -> Result<Vec<u8>, Stop>
        ensures due { ReturnsFree (check_outcome (world_of self.now) name.now)
            result (world_of self.now) }
        ensures bounded { OnOk result
            (IfSome (bouquet_in name.now (world_of self.now).bouquets) VerdictHolds) }
    {
        let Some(kept) = self.bouquets.get(name.bytes()) else {
            return Err(no_bouquet(name));
        };
        kept.bouquet.block();
        let verdict = bouquet_check::check(alloc, &kept.bouquet)?;
        Ok(check_line(alloc, &verdict)?)
    }
}
