// The two ways to the rows of a relation: through its whole table, or by the index on one of its columns. It relies on
// their readers for what is read and paid, and never gives a row that doesn't meet the relation's filter.
ghost use Rattle.std.specs.Prelude.{◌≡◌, OnOk, IsSome, IfSome};
ghost use Rattle.query_block.specs.Blocks.{relation_tree};
ghost use Rattle.plan_tree.specs.Enumerated.{HasUsable, IsIndexed};
ghost use Rattle.exec_scan.specs.EntryReading.{ReadsOn};
ghost use Rattle.exec_scan.specs.Reading.{FindsOn, IsRecheckOf, IsRelationIn, IsWayTo, LeadsTo, LendsFirst, LendsKept};
ghost use Rattle.exec_scan.specs.Reading.{read_due, wanted_due, wanted_entries, wanted_rows};
ghost use Rattle.exec_scan.specs.Stepping.{PaysFor};
ghost use Rattle.exec_scan.specs.declared.way.Way.TheVariants.{Index};

use crate::entry_reader::EntryReader;
use crate::table_way::TableWay;
use db_catalog::Metered;
use plan_tree::range_of;
use query_block::Relation;
use row_filter::FilterRecheck;
use std::alloc::Global;
use work_ledger::Exhausted;

/// By what the rows of a relation are found.
#[derive(Drop)]
pub(crate) enum Way {
    Table(TableWay),
    Index(EntryReader),
}

// Descends to the entries of the rows that meet every conjunct that the index can use, unless that is done.
fn descend_to_wanted(
    reader: &mut EntryReader,
    relation: &Relation,
    meter: &mut Metered<'_>,
) -> Result<(), Exhausted>
    requires way { IsWayTo meter.old.database (relation_tree relation.now) (Index reader.old) }
    ensures descended { OnOk result (IsSome reader.new.cursor) }
    ensures entries { OnOk result
        (wanted_entries meter.old.database (relation_tree relation.now) reader.new
        ≡ wanted_entries meter.old.database (relation_tree relation.now) reader.old) }
    ensures pays { PaysFor (wanted_due meter.old.database (relation_tree relation.now))
        reader.old reader.new meter.old meter.new result }
    ensures goes_on { ReadsOn meter.old.database reader.old reader.new }
{
    if reader.has_descended() {
        return Ok(());
    }
    let range = range_of(reader.column(), relation.filter.as_slice(), meter.texts());
    reader.descend(range.from, range.to, meter)?;
    Ok(())
}

// Reads the next of those rows.
fn read_wanted<'d>(
    reader: &mut EntryReader,
    relation: &Relation,
    meter: &mut Metered<'d>,
) -> Result<Option<&'d [i64]>, Exhausted>
    requires way { IsWayTo meter.old.database (relation_tree relation.now) (Index reader.old) }
    ensures row { let wanted = wanted_rows meter.old.database (relation_tree relation.now) in
        LendsFirst meter.old.database.texts (relation_tree relation.now)
        (wanted reader.old) (wanted reader.new)
        (wanted_due meter.old.database (relation_tree relation.now) reader.new)
        result (λ words. words.now) }
    ensures pays { PaysFor (wanted_due meter.old.database (relation_tree relation.now))
        reader.old reader.new meter.old meter.new result }
    ensures goes_on { ReadsOn meter.old.database reader.old reader.new }
{
    descend_to_wanted(reader, relation, meter)?;
    reader.read(meter)
}

// Reads on to the next of them that meets the relation's filter. None where none is left.
fn find_wanted<'d>(
    reader: &mut EntryReader,
    relation: &Relation,
    recheck: &FilterRecheck,
    meter: &mut Metered<'d>,
) -> Result<Option<&'d [i64]>, Exhausted>
    requires way { IsWayTo meter.old.database (relation_tree relation.now) (Index reader.old) }
    requires recheck { IsRecheckOf meter.old.database (relation_tree relation.now) recheck.now }
    ensures row { LendsKept meter.old (relation_tree relation.now) (Index reader.old)
        (Index reader.new) result (λ words. words.now) }
    ensures pays { PaysFor (wanted_due meter.old.database (relation_tree relation.now))
        reader.old reader.new meter.old meter.new result }
    ensures goes_on { ReadsOn meter.old.database reader.old reader.new }
{
    let texts = meter.texts();
    while let Some(row) = read_wanted(reader, relation, meter)? {
        if recheck.meets(
            relation.filter.as_slice(),
            relation.columns.as_slice(),
            row,
            texts,
        ) {
            return Ok(Some(row));
        }
    }
    Ok(None)
}

impl Way {
    /// The way to a relation's rows by the index on a column, or else through its table. Nothing is read yet.
    pub(crate) fn new(
        alloc: Global,
        relation: &Relation,
        column: Option<u8>,
        meter: &Metered<'_>,
    ) -> Way
        requires relation { IsRelationIn meter.now.database (relation_tree relation.now) }
        requires found { IfSome column (λ by. IsIndexed (relation_tree relation.now) by
            × HasUsable (relation_tree relation.now) by) }
        ensures { LeadsTo meter.now.database (relation_tree relation.now) column result }
    {
        match column {
            None => Way::Table(TableWay::new(alloc, relation, meter)),
            Some(column) => Way::Index(EntryReader::new(relation.table, column)),
        }
    }

    /// Whether it finds no row that doesn't meet the relation's filter, without asking one.
    pub(crate) fn is_exact(&self) -> bool {
        match self {
            Way::Table(table) => table.is_exact(),
            Way::Index(_) => false,
        }
    }

    /// Reads on to the next row of the relation that meets its filter. None where none is left.
    pub(crate) fn find<'d>(
        &mut self,
        relation: &Relation,
        recheck: &FilterRecheck,
        meter: &mut Metered<'d>,
    ) -> Result<Option<&'d [i64]>, Exhausted>
        requires way { IsWayTo meter.old.database (relation_tree relation.now) self.old }
        requires recheck { IsRecheckOf meter.old.database (relation_tree relation.now) recheck.now }
        ensures row { LendsKept meter.old (relation_tree relation.now) self.old self.new
            result (λ words. words.now) }
        ensures pays { PaysFor (read_due meter.old.database (relation_tree relation.now))
            self.old self.new meter.old meter.new result }
        ensures goes_on { FindsOn meter.old.database (relation_tree relation.now)
            self.old self.new }
    {
        match self {
            Way::Table(table) => table.find(relation, recheck, meter),
            Way::Index(reader) => find_wanted(reader, relation, recheck, meter),
        }
    }
}
