// OPEN: the name is looked at, the query is bound and its tables are counted before the file is asked for.
ghost use Rattle.std.specs.Prelude.{◌≡◌, OnErr};
ghost use Rattle.std.specs.Str.{IsUtf8};
ghost use Rattle.sql_parse.specs.Canonical.{canonical_query};
ghost use Rattle.sql_parse.specs.Trees.{OpenFile, query_tree};
ghost use Rattle.workspace.specs.Begins.{BeginsFree, CanOpen, pending_outcome};
ghost use Rattle.workspace.specs.Bouquets.{IsScriptQuery};
ghost use Rattle.workspace.specs.Open.{open_outcome};
ghost use Rattle.workspace.specs.Returns.{ReturnsFree};
ghost use Rattle.workspace.specs.States.{world_of};

use crate::begun::{Asked, Begun, Opening, Pending};
use crate::bouquets::block_of;
use crate::named::taken;
use crate::named_bouquets::KeptBouquet;
use crate::stop::Stop;
use crate::workspace::Workspace;
use bouquet_file::from_bytes;
use sql_parse::{OpenDef, print_query};
use std::alloc::Global;
use table_stats::stats_of;

impl Workspace {
    /// Asks for the file of a bouquet, where its name is free and its query has a block and counts.
    pub fn open_file(&self, alloc: Global, opened: &OpenDef) -> Result<Begun, Stop>
        requires text { IsUtf8 opened.now.file }
        requires query { IsScriptQuery (query_tree opened.now.query) }
        requires canonical { IsUtf8 (canonical_query (query_tree opened.now.query)) }
        ensures { BeginsFree (world_of self.now)
            (OpenFile opened.now.name opened.now.file (query_tree opened.now.query))
            (open_outcome (world_of self.now) opened.now.name opened.now.file (query_tree opened.now.query))
            result }
    {
        if self.bouquets.get(opened.name.bytes()).is_some() {
            return Err(taken(&opened.name));
        }
        let block = block_of(alloc, &self.database, &opened.query)?;
        let stats = stats_of(alloc, &self.database, &block)?;
        let opening = Opening {
            name: opened.name.clone()?,
            query: print_query(alloc, &opened.query)?,
            block,
            stats,
        };
        Ok(Begun::Asks(Asked {
            name: opened.file.clone()?,
            pending: Pending::Open(opening),
        }))
    }

    /// Keeps the bouquet that these bytes of a file say under a new name, where it is one of the query over the tables as they
    /// are, and prints its size.
    pub(crate) fn open_bytes(
        &mut self,
        alloc: Global,
        opening: Opening,
        bytes: &[u8],
    ) -> Result<Vec<u8>, Stop>
        requires can { CanOpen (world_of self.old) opening }
        ensures due { ReturnsFree
            (pending_outcome (world_of self.old) (Pending.Open opening) bytes.now)
            result (world_of self.new) }
        ensures unchanged { OnErr result (self.new ≡ self.old) }
    {
        let Opening {
            name,
            query,
            block,
            stats,
        } = opening;
        let bouquet = from_bytes(alloc, bytes, &query, block, stats)?;
        self.keep(
            alloc,
            "-- open points=",
            &name,
            KeptBouquet { query, bouquet },
        )
    }
}
