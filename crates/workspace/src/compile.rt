// COMPILE: the name and the numbers are looked at before the query is bound.
ghost use Rattle.std.specs.Prelude.{◌≡◌, ◌≤◌, OnErr, OnOk, IfOk, unwrap_or};
ghost use Rattle.sql_values.specs.Limits.{max_threshold, default_threshold};
ghost use Rattle.std.specs.Str.{IsUtf8};
ghost use Rattle.sql_parse.specs.Canonical.{canonical_query};
ghost use Rattle.sql_parse.specs.Trees.{query_tree};
ghost use Rattle.workspace.specs.Bouquets.{AreGridLevels, IsScriptQuery};
ghost use Rattle.workspace.specs.Compile.{compile_outcome, levels_refusal, threshold_refusal};
ghost use Rattle.workspace.specs.Outcome.{RefusesFound};
ghost use Rattle.workspace.specs.Returns.{ReturnsFree};
ghost use Rattle.workspace.specs.States.{world_of};

use crate::bouquets::{block_of, compiled_of};
use crate::named::taken;
use crate::named_bouquets::KeptBouquet;
use crate::refusal::Refusal;
use crate::stop::Stop;
use crate::workspace::Workspace;
use sql_parse::{CompileDef, print_query};
use sql_values::{DEFAULT_THRESHOLD, LimitName, MAX_LEVELS, MAX_THRESHOLD, MIN_LEVELS};
use std::alloc::Global;

// Levels that no axis has are refused.
fn check_levels(levels: Option<u64>) -> Result<(), Refusal>
    ensures range { OnOk result (AreGridLevels levels) }
    ensures refuses { RefusesFound (levels_refusal levels) result }
{
    match levels {
        Some(given) if !(MIN_LEVELS..=MAX_LEVELS).contains(&given) => Err(Refusal::PastLimit(
            LimitName::Levels,
            u128::from(given),
        )),
        _ => Ok(()),
    }
}

// The threshold that is given, or the one that holds where none is; one that is too great is refused.
fn checked_threshold(threshold: Option<u64>) -> Result<u32, Refusal>
    ensures threshold { IfOk result (λ percent. percent ≡ unwrap_or threshold default_threshold) }
    ensures range { IfOk result (λ percent. percent ≤ max_threshold) }
    ensures refuses { RefusesFound (threshold_refusal threshold) result }
{
    let percent = threshold.unwrap_or(DEFAULT_THRESHOLD);
    if percent > MAX_THRESHOLD {
        return Err(Refusal::PastLimit(LimitName::Threshold, u128::from(percent)));
    }
    Ok(percent as u32)
}

impl Workspace {
    /// Keeps the compiled bouquet of a query under a new name, with the canonical text of the query, and prints its size.
    pub fn compile(&mut self, alloc: Global, compile: &CompileDef) -> Result<Vec<u8>, Stop>
        requires query { IsScriptQuery (query_tree compile.now.query) }
        requires canonical { IsUtf8 (canonical_query (query_tree compile.now.query)) }
        ensures due { ReturnsFree (compile_outcome (world_of self.old) compile.now.name
            compile.now.levels compile.now.threshold (query_tree compile.now.query))
            result (world_of self.new) }
        ensures unchanged { OnErr result (self.new ≡ self.old) }
    {
        if self.bouquets.get(compile.name.bytes()).is_some() {
            return Err(taken(&compile.name));
        }
        check_levels(compile.levels)?;
        let threshold = checked_threshold(compile.threshold)?;
        let block = block_of(alloc, &self.database, &compile.query)?;
        let bouquet = compiled_of(alloc, &self.database, block, compile.levels, threshold)?;
        let query = print_query(alloc, &compile.query)?;
        let kept = KeptBouquet { query, bouquet };
        self.keep(alloc, "-- compile points=", &compile.name, kept)
    }
}
