// A count that isn't what it was. Nothing here counts.
ghost use Rattle.std.specs.Prelude.{◌≡◌};
ghost use Rattle.cost_model.specs.Staleness.{RefusesFirst, changed, count_word};

/// A count of a relation that isn't what it was.
#[derive(Clone, Copy)]
pub struct Stale {
    /// The relation, from 0 in FROM order.
    pub relation: u32,
    /// Which of its counts.
    pub count: CountName,
    /// What it was.
    pub kept: u64,
    /// What it is.
    pub present: u64,
}

/// A count of a relation, as a refusal names it.
#[derive(Clone, Copy)]
pub enum CountName {
    /// The rows of its table.
    Rows,
    /// The rows that its filter keeps.
    Kept,
    /// How many of its table's columns are indexed.
    Indexes,
}

impl CountName {
    /// The word by which it is printed and written.
    pub fn word(self) -> &'static str
        ensures { result.now ≡ count_word self }
    {
        match self {
            CountName::Rows => "rows",
            CountName::Kept => "kept",
            CountName::Indexes => "indexes",
        }
    }
}

/// Refuses a count of a relation that isn't what it was. It takes no memory.
pub fn check_count(relation: u32, count: CountName, kept: u64, present: u64) -> Result<(), Stale>
    ensures { RefusesFirst (changed relation count kept present) result }
{
    if kept != present {
        return Err(Stale {
            relation,
            count,
            kept,
            present,
        });
    }
    Ok(())
}
