// Scans of codes, 64 at a time, and their making.
ghost use Rattle.std.specs.Prelude.{◌≡◌, ℕ, ◌+◌, ◌*◌, ◌%◌, ◌^◌, ◌<◌, ◌≤◌, ◌++◌, length, take, drop, map, count_by, All};
ghost use Rattle.narrow_columns.specs.Codes.{is_code_among, IsWithin, word_of_code, word_of_rank};
ghost use Rattle.narrow_columns.specs.Marks.{marks_of};
ghost use Rattle.narrow_columns.specs.Rows.{column_words, row_word, IsInRows};

use crate::codes::CodeList;
use crate::ranks::{Span, narrowed, rank_at, rank_of};
use crate::rows::ColumnPlace;

/// How many of the codes are in the range.
pub(crate) fn count_codes<C: CodeList>(codes: &C, range: Span) -> u64
    ensures { result ≡ count_by (is_code_among range.least range.greatest) (C.codes codes.now) }
{
    let len = codes.len();
    let range = narrowed(range, C::top_code());
    count_narrowed(codes, range, len)
}

fn count_narrowed<C: CodeList>(codes: &C, range: Span, len: usize) -> u64
    requires len { len ≡ length (C.codes codes.now) }
    requires least { range.least ≤ C.top }
    requires greatest { range.greatest ≤ C.top }
    ensures { result ≡ count_by (is_code_among range.least range.greatest) (C.codes codes.now) }
{
    let mut count = 0;
    let mut first = 0;
    while len - first >= 64 {
        count += codes.block(first, range).count_ones() as u64;
        first += 64;
    }
    count + marks_one_by_one(codes, range, first, len - first).count_ones() as u64
}

/// Which of `count` codes from place `first` on are in the range.
pub(crate) fn mark_codes<C: CodeList>(codes: &C, range: Span, first: usize, count: usize) -> u64
    requires few { count ≤ 64 }
    requires there { first + count ≤ length (C.codes codes.now) }
    ensures { result ≡ marks_of (map (is_code_among range.least range.greatest)
        (take count (drop first (C.codes codes.now)))) }
{
    let len = codes.len();
    if len - first < 64 {
        return marks_one_by_one(codes, range, first, count);
    }
    let range = narrowed(range, C::top_code());
    first_marks(codes.block(first, range), count)
}

// The first `count` of 64 marks.
fn first_marks(marks: u64, count: usize) -> u64
    requires { count ≤ 64 }
    ensures { result ≡ marks % 2 ^ count }
{
    if count == 64 {
        marks
    } else {
        marks % (1 << count)
    }
}

// The same, for few codes.
fn marks_one_by_one<C: CodeList>(codes: &C, range: Span, first: usize, count: usize) -> u64
    requires few { count ≤ 64 }
    requires places { first + count < 2 ^ 64 }
    requires there { first + count ≤ length (C.codes codes.now) }
    ensures { result ≡ marks_of (map (is_code_among range.least range.greatest)
        (take count (drop first (C.codes codes.now)))) }
{
    let mut marks = 0;
    let mut left = count;
    while left > 0 {
        left -= 1;
        let code = codes.code(first + left);
        marks = 2 * marks + range.contains(code) as u64;
    }
    marks
}

// The code of the word of one column in this row.
fn code_in(rows: &[i64], at: ColumnPlace, row: usize, base: u64) -> u64
    requires there { IsInRows at rows.now }
    requires row { row < at.count }
    ensures { (top : ℕ)
        → IsWithin (word_of_rank (base + 1)) (word_of_rank (base + top)) (row_word at row rows.now)
        → (result ≤ top) × (word_of_code base result ≡ row_word at row rows.now) }
{
    rank_of(rows[row * at.width + at.place]).saturating_sub(base)
}

/// Appends the codes of the words at one place of `count` rows of one width.
pub(crate) fn push_rows<C: CodeList>(codes: &mut C, base: u64, rows: &[i64], at: ColumnPlace)
    requires there { IsInRows at rows.now }
    requires room { length (C.codes codes.old) + at.count ≤ C.held codes.old }
    requires taken { All (IsWithin (word_of_rank (base + 1)) (word_of_rank (base + C.top)))
        (column_words at rows.now) }
    ensures words { map (word_of_code base) (C.codes codes.new)
        ≡ map (word_of_code base) (C.codes codes.old) ++ column_words at rows.now }
    ensures len { length (C.codes codes.new) ≡ length (C.codes codes.old) + at.count }
    ensures held { C.held codes.new ≡ C.held codes.old }
{
    for row in 0..at.count {
        codes.push(code_in(rows, at, row, base));
    }
}

/// Appends codes, above another base, for the words of these codes.
pub(crate) fn push_codes<C: CodeList, D: CodeList>(to: &mut C, base: u64, codes: &D, old_base: u64)
    requires fits { old_base + D.top < 2 ^ 64 }
    requires room { length (C.codes to.old) + length (D.codes codes.now) ≤ C.held to.old }
    requires above { base ≤ old_base }
    requires below { old_base + D.top ≤ base + C.top }
    ensures words { map (word_of_code base) (C.codes to.new)
        ≡ map (word_of_code base) (C.codes to.old)
        ++ map (word_of_code old_base) (D.codes codes.now) }
    ensures len { length (C.codes to.new) ≡ length (C.codes to.old) + length (D.codes codes.now) }
    ensures held { C.held to.new ≡ C.held to.old }
{
    for place in 0..codes.len() {
        let rank = rank_at(old_base, codes.code(place));
        to.push(rank.saturating_sub(base));
    }
}
