//! What each unit of work costs, in units. A charge is paid before its unit is done.
ghost use Rattle.std.specs.Prelude.{◌≡◌};
ghost use Rattle.work_ledger.specs.Charges.{open_charge, page_charge, row_charge, emit_charge, node_charge, entry_charge, fetch_charge, build_charge, pair_charge, hash_in_charge, probe_charge, advance_charge};

/// A node that reads a table begins.
pub const OPEN: u128 = 1;

/// A page that a scan touches.
pub const PAGE: u128 = 8;

/// A row that a scan looks at.
pub const ROW: u128 = 1;

/// A row that a node gives.
pub const EMIT: u128 = 1;

/// A level of a descent in an index.
pub const NODE: u128 = 2;

/// An entry of an index that is read.
pub const ENTRY: u128 = 1;

/// A row that is read by its number.
pub const FETCH: u128 = 9;

/// A row that is kept for a nested loop.
pub const BUILD: u128 = 1;

/// A candidate pair that is looked at.
pub const PAIR: u128 = 1;

/// A row that is put in a hash table.
pub const HASH_IN: u128 = 2;

/// A look-up in a hash table.
pub const PROBE: u128 = 1;

/// An input row of a merge.
pub const ADVANCE: u128 = 1;

/// Each constant is the charge that the definitions state.
pub fn charges_are_as_stated()
    ensures node { (OPEN ≡ open_charge) × (EMIT ≡ emit_charge) }
    ensures scan { (PAGE ≡ page_charge) × (ROW ≡ row_charge) }
    ensures index { (NODE ≡ node_charge) × (ENTRY ≡ entry_charge) × (FETCH ≡ fetch_charge) }
    ensures nested_loop { (BUILD ≡ build_charge) × (PAIR ≡ pair_charge) }
    ensures hash { (HASH_IN ≡ hash_in_charge) × (PROBE ≡ probe_charge) }
    ensures merge { ADVANCE ≡ advance_charge }
{}
