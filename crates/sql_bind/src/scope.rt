// The tables of FROM, and what written columns may name of them.
ghost use Rattle.std.specs.Prelude.{◌≡◌};
ghost use Rattle.sql_bind.specs.Named.{IsScope};

use sql_values::ColumnDef;
use std::alloc::Global;
use std::marker::Model;

/// A table of FROM.
#[derive(Drop)]
pub(crate) struct NamedTable<'q> {
    /// The name under which columns name it.
    pub(crate) alias: &'q [u8],
    /// Its number in the database, from 0.
    pub(crate) number: u32,
    pub(crate) columns: &'q [ColumnDef],
    /// The numbers of its indexed columns, from 0.
    pub(crate) indexed: &'q [u8],
}

impl<'q> Model for NamedTable<'q> {
    ghost use Rattle.sql_bind.specs.Named.{NamedTable as Named};

    ghost Value = { Named };

    ghost view = { λ t. record {
      alias = t.alias.now;
      number = t.number;
      columns = t.columns.now;
      indexed = t.indexed.now;
    } };
}

/// The tables of FROM together: what the names of a query are looked up in. There are few, and each is of few columns,
/// so the number of a relation and that of a column fit a byte.
#[derive(Drop)]
pub(crate) struct Scope<'q> {
    // Where binding takes its memory from.
    alloc: Global,
    tables: Vec<NamedTable<'q>>,
}

impl<'q> Model for Scope<'q> {
    ghost use Rattle.std.specs.Prelude.{List};
    ghost use Rattle.sql_bind.specs.Named.{NamedTable as Named, IsScope};

    ghost Value = { List Named };

    ghost view = { λ s. s.tables.items };

    ghost invariant = { λ s. IsScope s.tables.items };
}

impl<'q> Scope<'q> {
    /// That of these tables.
    pub(crate) fn new(alloc: Global, tables: Vec<NamedTable<'q>>) -> Self
        requires { IsScope tables.items }
        ensures { result ≡ tables.entry.items }
    {
        Scope { alloc, tables }
    }

    /// Where binding takes its memory from.
    pub(crate) fn alloc(&self) -> Global {
        self.alloc
    }

    /// The tables, in FROM order.
    pub(crate) fn tables(&self) -> &[NamedTable<'q>]
        ensures tables { result.now ≡ self.now }
        ensures scope { IsScope result.now }
    {
        self.tables.as_slice()
    }
}
