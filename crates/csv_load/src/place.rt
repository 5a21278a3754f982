// Where a field stands in a file.

/// The place of a field.
#[derive(Clone, Copy)]
pub(crate) struct Place {
    /// The entry, from 1 without the header.
    pub(crate) entry: u64,
    /// The field, from 1.
    pub(crate) field: u32,
}
