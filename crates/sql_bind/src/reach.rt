// Of which relations the columns of a condition are.
ghost use Rattle.std.specs.Prelude.{◌≡◌};
ghost use Rattle.sql_bind.specs.Conjuncts.{joined_reach, reach_at};

use query_block::ColumnAt;

/// Of which relations some columns are.
#[derive(Clone, Copy)]
pub(crate) enum Reach {
    /// There are no columns.
    Nothing,
    /// All are of this relation.
    One(u8),
    /// They are of two or more.
    Several,
}

impl Reach {
    /// The relations of two groups of columns together.
    pub(crate) fn joined(self, other: Reach) -> Reach
        ensures { result ≡ joined_reach self other }
    {
        match self {
            Reach::Nothing => other,
            Reach::Several => Reach::Several,
            Reach::One(relation) => match other {
                Reach::Nothing => Reach::One(relation),
                Reach::Several => Reach::Several,
                Reach::One(another) => {
                    if relation == another {
                        Reach::One(relation)
                    } else {
                        Reach::Several
                    }
                }
            },
        }
    }
}

/// Of which relation an operand at this place is.
pub(crate) fn reach_at(place: Option<ColumnAt>) -> Reach
    ensures { result ≡ reach_at place }
{
    match place {
        None => Reach::Nothing,
        Some(place) => Reach::One(place.relation),
    }
}
