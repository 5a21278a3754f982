// Rows on their way into a table: words in one flat vector, and the texts that they name in a dictionary of their own.
// It relies on that dictionary, and never looks at a database.
ghost use Rattle.std.specs.Prelude.{◌≡◌, ◌+◌, ◌*◌, ◌<◌, ◌≤◌, [], ◌∷◌, ◌++◌, length, OnOk, IfOk};
ghost use Rattle.std.specs.Prelude.{vec_capacity};
ghost use Rattle.sql_values.specs.declared.value.Value.TheVariants as value;
ghost use Rattle.sql_values.specs.Stored.{IsRowOf};
ghost use Rattle.heap_pages.specs.Changes.{Becomes};
ghost use Rattle.db_catalog.specs.Database.{FillRows, rows_in};
ghost use Rattle.db_catalog.specs.Batch.{FitsNext, with_value, with_row_ended};

use crate::columns::copy_of;
use crate::room::push_within;
use sql_values::{ColumnDef, NULL_WORD, Texts, Value};
use std::alloc::{AllocError, Global};
use std::hash::RandomState;
use std::marker::Model;

/// Rows for a table, put together value after value. A value takes no memory of its own, unless it is a text that the
/// batch hasn't had yet.
#[derive(Drop)]
pub struct Batch {
    pub(crate) columns: Vec<ColumnDef>,
    pub(crate) texts: Texts,
    pub(crate) words: Vec<i64>,
    pub(crate) rows: u64,
    pub(crate) row: Vec<i64>,
}

impl Model for Batch {
    ghost use Rattle.std.specs.Prelude.{map, length, vec_capacity};
    ghost use Rattle.sql_values.specs.Stored.{row_of};
    ghost use Rattle.heap_pages.specs.Rows.{cut_rows};
    ghost use Rattle.db_catalog.specs.Batch.{BatchState};
    ghost use Rattle.db_catalog.specs.Kept.{IsBatch};

    ghost Value = { BatchState };

    ghost view = { λ b. record {
      columns = b.columns.items;
      rows = map (row_of b.texts b.columns.items)
          (cut_rows (length b.columns.items) b.rows b.words.items);
      row = row_of b.texts b.columns.items b.row.items;
    } };

    ghost invariant = { λ b.
        IsBatch b.columns.items b.texts b.rows b.words.items b.row.items (vec_capacity b.row) };
}

impl Batch {
    /// No rows yet, for a table of these columns. Their texts are hashed by `key`.
    pub fn new(alloc: Global, key: RandomState, columns: &[ColumnDef]) -> Result<Batch, AllocError>
        requires { 1 ≤ length columns.now }
        ensures { IfOk result
            (λ batch. batch ≡ record { columns = columns.now; rows = []; row = [] }) }
    {
        let row = Vec::with_capacity(alloc, columns.len())?;
        let columns = copy_of(alloc, columns)?;
        Ok(Batch {
            columns,
            texts: Texts::new(alloc, key),
            words: Vec::new(alloc),
            rows: 0,
            row,
        })
    }

    /// How many whole rows there are.
    pub fn rows(&self) -> u64
        ensures { result ≡ length self.now.rows }
    {
        self.rows
    }

    /// NULL, in the next column.
    pub fn put_null(&mut self)
        requires { FitsNext self.old value.Null }
        ensures { self.new ≡ with_value self.old value.Null }
    {
        push_within(&mut self.row, NULL_WORD);
    }

    /// A number, in the next column.
    pub fn put_int(&mut self, number: i64)
        requires { FitsNext self.old (value.Int number) }
        ensures { self.new ≡ with_value self.old (value.Int number) }
    {
        push_within(&mut self.row, number);
    }

    /// A text, in the next column. A refusal changes nothing.
    pub fn put_text(&mut self, text: &[u8]) -> Result<(), AllocError>
        requires { FitsNext self.old (value.Text text.now) }
        ensures { Becomes (with_value self.old (value.Text text.now)) self.old self.new result }
    {
        let code = self.texts.add(text)?;
        push_within(&mut self.row, code);
        Ok(())
    }

    /// Ends a row that has a value in each column. A refusal changes nothing.
    pub fn end_row(&mut self) -> Result<(), AllocError>
        requires { length self.old.row ≡ length self.old.columns }
        ensures { Becomes (with_row_ended self.old) self.old self.new result }
    {
        self.words.extend_from_slice(&self.row)?;
        self.row.clear();
        self.rows += 1;
        Ok(())
    }

    // The rows of a table whose values follow one another.
    pub(crate) fn filled(
        alloc: Global,
        key: RandomState,
        columns: &[ColumnDef],
        values: &[Value],
    ) -> Result<Batch, AllocError>
        requires some { 1 ≤ length columns.now }
        requires fill { FillRows columns.now values.now }
        ensures { let rows = rows_in columns.now values.now in
            IfOk result (λ batch. batch ≡ record { columns = columns.now; rows = rows; row = [] }) }
    {
        let mut batch = Batch::new(alloc, key, columns)?;
        let width = columns.len();
        for i in 0..values.len() / width {
            batch.put_row(&values[i * width..i * width + width])?;
        }
        Ok(batch)
    }

    // A whole row, of which nothing is there yet.
    fn put_row(&mut self, row: &[Value]) -> Result<(), AllocError>
        requires empty { self.old.row ≡ [] }
        requires fits { IsRowOf self.old.columns row.now }
        ensures { OnOk result
            (self.new ≡ record self.old { rows = self.old.rows ++ row.now ∷ [] }) }
    {
        for value in row {
            self.put(value)?;
        }
        self.end_row()
    }

    // A value, in the next column.
    fn put(&mut self, value: &Value) -> Result<(), AllocError>
        requires { FitsNext self.old value.now }
        ensures { OnOk result (self.new ≡ with_value self.old value.now) }
    {
        match value {
            Value::Null => {
                self.put_null();
                Ok(())
            }
            Value::Int(number) => {
                self.put_int(*number);
                Ok(())
            }
            Value::Text(text) => self.put_text(text.bytes()),
        }
    }
}
