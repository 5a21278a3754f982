// The words of one column: in which of up to 64 rows they are among those of a range, as the bits of one number, and in how
// many rows of the table. These reads aren't paid.
ghost use Rattle.std.specs.Prelude.{◌≡◌, if◌then◌else◌, ◌+◌, ◌<◌, ◌≤◌, [], count_by, length, map, slice_index_or};
ghost use Rattle.narrow_columns.specs.Marks.{is_among, marks_of};
ghost use Rattle.heap_pages.specs.Spans.{HaveColumnWords, has_among, rows_of_span, column_word};

use crate::heap::Heap;

/// Rows of a table that follow one another.
#[derive(Clone, Copy)]
pub struct RowSpan {
    /// The number of the first of them, from 0.
    pub first: u64,
    /// How many they are.
    pub count: usize,
}

// 1 for a word that is one of those from `from` to `to`, both included, and 0 for any other.
fn mark(from: i64, to: i64, word: i64) -> u64
    ensures { result ≡ if is_among from to word then 1 else 0 }
{
    u64::from(from <= word && word <= to)
}

impl Heap {
    // The word of row `i` in a column, both from 0.
    fn word_at(&self, column: usize, i: u64) -> i64
        requires column { column < self.now.columns }
        requires there { i < length self.now.rows }
        ensures { result ≡ column_word column (slice_index_or self.now.rows i []) }
    {
        let _ = &self.columns;
        self.get(i)[column]
    }

    // The same as `marks`, read from the pages, row by row.
    fn marks_on_pages(&self, column: usize, from: i64, to: i64, span: RowSpan) -> u64
        requires column { column < self.now.columns }
        requires few { span.count ≤ 64 }
        requires there { span.first + span.count ≤ length self.now.rows }
        ensures marks { result
            ≡ marks_of (map (has_among column from to) (rows_of_span span self.now.rows)) }
        ensures words { HaveColumnWords column (rows_of_span span self.now.rows) }
    {
        let _ = self.rows();
        let mut marks = 0;
        let mut left = span.count;
        while left > 0 {
            left -= 1;
            let word = self.word_at(column, span.first + left as u64);
            marks = marks * 2 + mark(from, to, word);
        }
        marks
    }

    // The same as `count_in_range`, read from the pages, row by row.
    fn count_on_pages(&self, column: usize, from: i64, to: i64) -> u64
        requires { column < self.now.columns }
        ensures count { result ≡ count_by (has_among column from to) self.now.rows }
        ensures words { HaveColumnWords column self.now.rows }
    {
        let mut count = 0;
        for i in 0..self.rows() {
            count += mark(from, to, self.word_at(column, i));
        }
        count
    }

    /// Which rows of a span, of at most 64, have a word from `from` to `to`, both included, in a column: bit k stands for the
    /// row k places behind the first. This read isn't paid.
    pub fn marks(&self, column: usize, from: i64, to: i64, span: RowSpan) -> u64
        requires column { column < self.now.columns }
        requires few { span.count ≤ 64 }
        requires there { span.first + span.count ≤ length self.now.rows }
        ensures marks { result
            ≡ marks_of (map (has_among column from to) (rows_of_span span self.now.rows)) }
        ensures words { HaveColumnWords column (rows_of_span span self.now.rows) }
    {
        match self.narrow.column(column) {
            Some(words) => words.marks(from, to, span.first as usize, span.count),
            None => self.marks_on_pages(column, from, to, span),
        }
    }

    /// How many rows have a word from `from` to `to`, both included, in a column. This read isn't paid.
    pub fn count_in_range(&self, column: usize, from: i64, to: i64) -> u64
        requires { column < self.now.columns }
        ensures count { result ≡ count_by (has_among column from to) self.now.rows }
        ensures words { HaveColumnWords column self.now.rows }
    {
        match self.narrow.column(column) {
            Some(words) => words.count_in_range(from, to),
            None => self.count_on_pages(column, from, to),
        }
    }
}
