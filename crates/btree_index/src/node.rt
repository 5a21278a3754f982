// The search in a node, be it a leaf, whose items are entries, or a node above, whose items are words.
ghost use Rattle.std.specs.Prelude.{◌≡◌, ℕ, ℤ, slice_index_or, ◌+◌, ◌*◌, ◌^◌, ◌<◌, ◌≤◌, length, true, false, IfSome};
ghost use Rattle.std.specs.List.{AllWithin};
ghost use Rattle.std.specs.List.Sorted.{IsPartitionedBy};
ghost use Rattle.btree_index.specs.Nodes.{AreSplitAt, IsAround, IsCounted, entry_word, is_below, is_entry_below, node_count};

/// How many entries a leaf has at most, and an inner node words.
pub(crate) const NODE_ENTRIES: usize = 64;

/// How many words a cache line has.
pub(crate) const LINE_WORDS: usize = 8;

/// How many entries a cache line has.
pub(crate) const LINE_ENTRIES: usize = 4;

/// How many entries are looked at, at most, for the end of a range before there is another descent.
const NEAR_ENTRIES: usize = 12;

/// What stands in order by a word.
pub(crate) trait Worded: Copy {
    ghost word_of: { Self → ℤ };

    /// Its word.
    fn word(&self) -> i64
        ensures { result ≡ word_of self.now };
}

impl Worded for i64 {
    ghost word_of = { λ word. word };

    fn word(&self) -> i64 {
        *self
    }
}

impl Worded for (i64, u64) {
    ghost word_of = { entry_word };

    fn word(&self) -> i64 {
        self.0
    }
}

// How many of so many items have a lesser word, each `step` after the one before. Those that have come first.
fn count_below<T: Worded>(items: &[T], first: usize, step: usize, count: usize, word: i64) -> usize
    requires there { (i : ℕ) → i < count → first + i * step < length items.now }
    requires rising { IsPartitionedBy (λ item. is_below word (T.word_of item)) items.now }
    ensures most { result ≤ count }
    ensures counted { (d : T) → IsCounted
        (λ i. is_below word (T.word_of (slice_index_or items.now (first + i * step) d)))
        result count }
{
    let mut below = 0;
    for i in 0..count {
        if items[first + i * step].word() < word {
            below += 1;
        }
    }
    below
}

// The place of the first item whose word is at least this one, in a stretch or right behind it. All before the stretch
// have a lesser word, and none behind it. It counts the cache lines of the stretch whose last word is less, but for the
// last line, then looks at as many items as one line has, so that it has no branch that depends on the words.
#[inline(always)]
fn first_between<T: Worded>(
    items: &[T],
    line_items: usize,
    begin: usize,
    end: usize,
    word: i64,
) -> usize
    requires line { 0 < line_items }
    requires line_most { line_items ≤ 8 }
    requires there { begin ≤ end }
    requires ends { end ≤ length items.now }
    requires short { length items.now < 2 ^ 63 }
    requires rising { IsPartitionedBy (λ item. is_below word (T.word_of item)) items.now }
    requires before { AllWithin (λ item. is_below word (T.word_of item) ≡ true) items.now 0 begin }
    requires behind { AllWithin
        (λ item. is_below word (T.word_of item) ≡ false) items.now end (length items.now) }
    ensures within { result ≤ length items.now }
    ensures first { AreSplitAt (λ item. is_below word (T.word_of item)) items.now result }
{
    let lines = (end - begin).saturating_sub(1) / line_items;
    let line = count_below(items, begin + (line_items - 1), line_items, lines, word);
    let size = line_items.min(end - begin);
    let from = (begin + line * line_items).min(end - size);
    from + count_below(items, from, 1, size, word)
}

/// The place of the first item whose word is at least this one, in that node or right behind it. A cache line has so many
/// items. A full node has a search of its own, in which how often each loop turns is known when it is compiled.
#[inline(always)]
pub(crate) fn first_in_node<T: Worded>(
    items: &[T],
    line_items: usize,
    node: usize,
    word: i64,
) -> usize
    requires line { 0 < line_items }
    requires line_most { line_items ≤ 8 }
    requires there { node ≤ node_count (length items.now) }
    requires short { length items.now < 2 ^ 63 }
    requires rising { IsPartitionedBy (λ item. is_below word (T.word_of item)) items.now }
    requires around { IsAround (λ item. is_below word (T.word_of item)) items.now node }
    ensures within { result ≤ length items.now }
    ensures first { AreSplitAt (λ item. is_below word (T.word_of item)) items.now result }
{
    let begin = (node * NODE_ENTRIES).min(items.len());
    if begin + NODE_ENTRIES <= items.len() {
        return first_between(items, line_items, begin, begin + NODE_ENTRIES, word);
    }
    first_between(items, line_items, begin, items.len(), word)
}

// The place of the first entry whose word is at least this one, where that is among the next `few` or there are no more.
// All before `next` are less.
#[inline(always)]
fn first_among(entries: &[(i64, u64)], next: usize, few: usize, word: i64) -> Option<usize>
    requires there { next ≤ length entries.now }
    requires rising { IsPartitionedBy (is_entry_below word) entries.now }
    requires before { AllWithin (λ entry. is_entry_below word entry ≡ true) entries.now 0 next }
    ensures within { IfSome result (λ place. place ≤ length entries.now) }
    ensures first { IfSome result (λ place. AreSplitAt (is_entry_below word) entries.now place) }
{
    let size = few.min(entries.len());
    let from = next.min(entries.len() - size);
    let place = from + count_below(entries, from, 1, size, word);
    if place == from + size && from + size < entries.len() {
        return None;
    }
    Some(place)
}

/// The place of the first entry whose word is at least this one, where that is near or there are no more. All before `next`
/// are less. It looks at a cache line of entries, and at more of them only where they are all less.
pub(crate) fn first_near(entries: &[(i64, u64)], next: usize, word: i64) -> Option<usize>
    requires there { next ≤ length entries.now }
    requires rising { IsPartitionedBy (is_entry_below word) entries.now }
    requires before { AllWithin (λ entry. is_entry_below word entry ≡ true) entries.now 0 next }
    ensures within { IfSome result (λ place. place ≤ length entries.now) }
    ensures first { IfSome result (λ place. AreSplitAt (is_entry_below word) entries.now place) }
{
    match first_among(entries, next, LINE_ENTRIES, word) {
        Some(place) => Some(place),
        None => first_among(entries, next, NEAR_ENTRIES, word),
    }
}
