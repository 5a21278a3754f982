// What every part of a run works with from its beginning to its end. It is lent, and goes back where the run ends.
use bouquet_run::Book;

/// Where a run reads and writes files, where it prints, and what its queries may cost and have paid.
#[derive(Drop)]
pub(crate) struct Outlets<'r, F, K> {
    /// The most units of work of a query and of an audit, up to 2^62.
    pub(crate) max_work: u64,
    /// Where the files lie.
    pub(crate) folder: &'r mut F,
    /// Where what is printed goes.
    pub(crate) sink: &'r mut K,
    /// What queries paid.
    pub(crate) book: &'r mut Book,
}
