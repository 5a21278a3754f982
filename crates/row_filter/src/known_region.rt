// What is known of the rows that meet a condition: a region that holds them.
ghost use Rattle.std.specs.Prelude.{◌&&◌, Bool, IfSome, List, true, ℕ};
ghost use Rattle.sql_values.specs.declared.column.ColumnType.{ColumnType};
ghost use Rattle.sql_values.specs.Stored.{ValueRow};
ghost use Rattle.db_catalog.specs.ColumnRanges.{IsWordsOf};
ghost use Rattle.row_filter.specs.Regions.{IsKnownRegion};

use crate::region::Region;
use db_catalog::ColumnRange;

/// A region that holds each row that meets a condition. If it is exact, it holds no other.
#[derive(Clone, Copy)]
pub(crate) struct KnownRegion {
    pub(crate) region: Region,
    pub(crate) exact: bool,
}

impl KnownRegion {
    /// All rows.
    pub(crate) fn every() -> KnownRegion
        ensures { (texts : List (List ℕ)) → (kinds : List ColumnType)
            → IsKnownRegion texts kinds (λ row. true) result }
    {
        KnownRegion {
            region: Region::Every,
            exact: true,
        }
    }

    // The same region, where another condition has to be met that it doesn't tell.
    fn unnarrowed(self) -> KnownRegion
        ensures { (texts : List (List ℕ)) → (kinds : List ColumnType) → (test other : ValueRow → Bool)
            → IsKnownRegion texts kinds test self
            → IsKnownRegion texts kinds (λ row. test row && other row) result }
    {
        KnownRegion {
            region: self.region,
            exact: false,
        }
    }

    /// What is known where another condition has to be met as well, of which these are the words, if they are known.
    pub(crate) fn narrowed(self, words: Option<ColumnRange>) -> KnownRegion
        ensures { (texts : List (List ℕ)) → (kinds : List ColumnType) → (test other : ValueRow → Bool)
            → IsKnownRegion texts kinds test self → IfSome words (IsWordsOf texts kinds other)
            → IsKnownRegion texts kinds (λ row. test row && other row) result }
    {
        let Some(found) = words else {
            return self.unnarrowed();
        };
        match self.region.narrowed(found) {
            Some(region) => KnownRegion {
                region,
                exact: self.exact,
            },
            None => self.unnarrowed(),
        }
    }
}
