// The fixed conjuncts of a relation's filter, found once and not for each row. What a conjunct with a parameter keeps can't
// be counted.
ghost use Rattle.std.specs.Prelude.{◌≡◌, ◌<◌, [], IfOk, length};
ghost use Rattle.sql_values.specs.Stored.{values_of};
ghost use Rattle.query_block.specs.Blocks.{FitsColumns, relation_tree};
ghost use Rattle.query_block.specs.Meaning.{is_true};
ghost use Rattle.query_block.specs.Truth.{truth_of};
ghost use Rattle.db_catalog.specs.ColumnRanges.{AreStored};
ghost use Rattle.row_filter.specs.InLists.{IsConditionRecheck};
ghost use Rattle.table_stats.specs.Narrow.{uses_all, uses_some};
ghost use Rattle.table_stats.specs.Ready.{IsOfBlock, IsReadyFilter, is_kept, own, own_tree, own_values};

use plan_tree::is_usable;
use query_block::{Condition, Relation, is_open};
use row_filter::ConditionRecheck;
use sql_values::{ColumnType, Texts};
use std::alloc::{AllocError, Global};

/// A conjunct without a parameter, made ready to be asked of many rows.
#[derive(Drop)]
pub(crate) struct FixedConjunct<'b> {
    pub(crate) condition: &'b Condition,
    recheck: ConditionRecheck,
}

/// A relation's filter, made ready for words by these texts.
#[derive(Drop)]
pub(crate) struct ReadyFilter<'b> {
    pub(crate) relation: &'b Relation,
    pub(crate) texts: &'b Texts,
    /// The fixed conjuncts, in written order.
    pub(crate) conjuncts: Vec<FixedConjunct<'b>>,
}

// Whether a fixed conjunct is true on a row.
fn is_met(conjunct: &FixedConjunct<'_>, columns: &[ColumnType], row: &[i64], texts: &Texts) -> bool
    requires row { AreStored texts.now columns.now row.now }
    requires fits { FitsColumns [] columns.now (own_tree conjunct.now) }
    requires ready { IsConditionRecheck texts.now columns.now (own_tree conjunct.now)
        conjunct.now.recheck }
    ensures { result ≡ is_true
        (truth_of (own_tree conjunct.now) (values_of texts.now columns.now row.now)) }
{
    conjunct
        .recheck
        .is_met(conjunct.condition, columns, row, texts)
}

impl<'b> ReadyFilter<'b> {
    /// The filter of a relation, which at most so many rows are asked: what stands in it is asked once, and not for each row.
    pub(crate) fn new(
        alloc: Global,
        rows: u64,
        relation: &'b Relation,
        texts: &'b Texts,
    ) -> Result<ReadyFilter<'b>, AllocError>
        requires { IsOfBlock (relation_tree relation.now) }
        ensures relation { IfOk result (λ filter. filter.relation.now ≡ relation.now) }
        ensures texts { IfOk result (λ filter. filter.texts.now ≡ texts.now) }
        ensures ready { IfOk result IsReadyFilter }
    {
        let filter = relation.filter.as_slice();
        let columns = relation.columns.as_slice();
        let mut conjuncts = Vec::with_capacity(alloc, filter.len())?;
        for condition in filter {
            if !is_open(condition) {
                conjuncts.push(FixedConjunct {
                    condition,
                    recheck: ConditionRecheck::new(alloc, rows, columns, condition, texts),
                })?;
            }
        }
        Ok(ReadyFilter {
            relation,
            texts,
            conjuncts,
        })
    }

    /// Whether the index on a column can use some fixed conjunct.
    pub(crate) fn uses_some(&self, column: u8) -> bool
        requires ready { IsReadyFilter self.now }
        requires there { column < length self.now.relation.now.columns }
        ensures { result ≡ uses_some (own self.now) column }
    {
        let columns = self.relation.columns.as_slice();
        for conjunct in &self.conjuncts {
            if is_usable(columns, column, conjunct.condition) {
                return true;
            }
        }
        false
    }

    /// Whether it can use every fixed conjunct.
    pub(crate) fn uses_all(&self, column: u8) -> bool
        requires ready { IsReadyFilter self.now }
        requires there { column < length self.now.relation.now.columns }
        ensures { result ≡ uses_all (own self.now) column }
    {
        let columns = self.relation.columns.as_slice();
        for conjunct in &self.conjuncts {
            if !is_usable(columns, column, conjunct.condition) {
                return false;
            }
        }
        true
    }

    /// Whether each fixed conjunct is true on a row, of which these are the words. They are tried in written order, up to the
    /// first that isn't.
    pub(crate) fn keeps(&self, row: &[i64]) -> bool
        requires ready { IsReadyFilter self.now }
        requires row { AreStored self.now.texts.now self.now.relation.now.columns row.now }
        ensures { result ≡ is_kept self.now (own_values self.now row.now) }
    {
        let columns = self.relation.columns.as_slice();
        for conjunct in &self.conjuncts {
            if !is_met(conjunct, columns, row, self.texts) {
                return false;
            }
        }
        true
    }
}
