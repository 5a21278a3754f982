// A bouquet kept under a new name: what COMPILE and OPEN do at their end.
ghost use Rattle.std.specs.Prelude.{◌≡◌, ◌≤◌, OnErr, None, length};
ghost use Rattle.std.specs.Str.{IsUtf8};
ghost use Rattle.query_block.specs.Blocks.{block_tree};
ghost use Rattle.db_catalog.specs.Fits.{Fits};
ghost use Rattle.bouquet_type.specs.Trees.{bouquet_tree};
ghost use Rattle.sql_values.specs.Limits.{max_parameters};
ghost use Rattle.workspace.specs.Counted.{HasCountsOf};
ghost use Rattle.workspace.specs.Bouquets.{kept_as};
ghost use Rattle.workspace.specs.Returns.{ReturnsFree};
ghost use Rattle.workspace.specs.States.{world_of};
ghost use Rattle.workspace.specs.World.{named_in};

use crate::lines;
use crate::named_bouquets::KeptBouquet;
use crate::stop::Stop;
use crate::workspace::Workspace;
use sql_parse::Name;
use std::alloc::Global;

impl Workspace {
    /// Keeps a bouquet, with the text of its query, under a name that none has, and returns its size behind a label.
    pub(crate) fn keep(
        &mut self,
        alloc: Global,
        label: &str,
        name: &Name,
        kept: KeptBouquet,
    ) -> Result<Vec<u8>, Stop>
        requires free { named_in name.now (world_of self.old).bouquets ≡ None }
        requires fits { Fits self.old.database (block_tree kept.bouquet.block) }
        requires counts { HasCountsOf self.old.database.tables (bouquet_tree kept.bouquet) }
        requires text { IsUtf8 kept.query.items }
        requires parameters { length kept.bouquet.block.parameters ≤ max_parameters }
        ensures kept { ReturnsFree
            (kept_as label.now (world_of self.old) name.now kept.query.items (bouquet_tree kept.bouquet))
            result (world_of self.new) }
        ensures unchanged { OnErr result (self.new ≡ self.old) }
    {
        let text = lines::size_line(alloc, label, &kept.bouquet)?;
        let name = Vec::from_slice(alloc, name.bytes())?;
        self.bouquets.add(name, kept)?;
        Ok(text)
    }
}
