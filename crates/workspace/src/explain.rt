// EXPLAIN: it looks at no table, so a bouquet whose counts are out of date is printed too.
ghost use Rattle.workspace.specs.Explain.{explain_outcome};
ghost use Rattle.workspace.specs.Returns.{ReturnsFree};
ghost use Rattle.workspace.specs.States.{world_of};

use crate::lines;
use crate::named::no_bouquet;
use crate::stop::Stop;
use crate::workspace::Workspace;
use sql_parse::Name;
use std::alloc::Global;

impl Workspace {
    /// Prints the contours of the bouquet of this name.
    pub fn explain(&self, alloc: Global, name: &Name) -> Result<Vec<u8>, Stop>
        ensures { ReturnsFree (explain_outcome (world_of self.now) name.now)
            result (world_of self.now) }
    {
        let Some(kept) = self.bouquets.get(name.bytes()) else {
            return Err(no_bouquet(name));
        };
        Ok(lines::contour_lines(alloc, &kept.bouquet)?)
    }
}
