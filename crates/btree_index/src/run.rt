// A run: entries in order, with the levels of a tree above them. Its leaves are the entries.
// It relies on the search in a node, and never changes.
ghost use Rattle.std.specs.Prelude.{◌≡◌, ◌+◌, ◌*◌, ◌^◌, ◌<◌, ◌≤◌, if◌then◌else◌, filter, length, int_le, true, IfOk};
ghost use Rattle.std.specs.List.{AllWithin};
ghost use Rattle.btree_index.specs.Height.{height_of};
ghost use Rattle.btree_index.specs.Entries.{HaveWords, IsInOrder, is_within};
ghost use Rattle.btree_index.specs.Nodes.{AreSplitAt, is_entry_below, nodes_of};
ghost use Rattle.btree_index.specs.Runs.{IsStretch};

use crate::levels::{first_of, inner_levels};
use crate::node::{LINE_ENTRIES, NODE_ENTRIES, first_in_node, first_near};
use std::alloc::{AllocError, Global};
use std::marker::Model;

// How many entries are few, so that one look at each finds a range.
const FEW_ENTRIES: usize = 8;

/// The places of some entries that follow one another, from `begin` up to `end`, which it excludes.
#[derive(Clone, Copy)]
pub(crate) struct Stretch {
    pub(crate) begin: usize,
    pub(crate) end: usize,
}

/// Entries in order, which can be searched.
#[derive(Drop)]
pub(crate) struct Run {
    // The leaves one after another, of `NODE_ENTRIES` entries each but the last.
    entries: Vec<(i64, u64)>,
    // The levels above the leaves.
    inner: Vec<i64>,
    height: u32,
}

impl Model for Run {
    ghost use Rattle.std.specs.Prelude.{List};
    ghost use Rattle.btree_index.specs.Entries.{IndexEntry};
    ghost use Rattle.btree_index.specs.Nodes.{IsTree};

    ghost Value = { List IndexEntry };

    ghost view = { λ x. x.entries.items };

    ghost invariant = { λ x. IsTree x.entries.items x.inner.items x.height };
}

/// The least height of at least 1 at which nodes of 64 have room for so many entries.
pub(crate) fn height_for(entries: u64) -> u32
    ensures height { result ≡ height_of entries }
    ensures few { result ≤ 11 }
{
    let mut height = 1;
    let mut room = NODE_ENTRIES as u128;
    while room < entries as u128 {
        height += 1;
        room *= NODE_ENTRIES as u128;
    }
    height
}

// What the type of entries says of the word of each is known of all after it. It does nothing.
fn know_words(entries: &[(i64, u64)])
    ensures { HaveWords entries.now }
{
    for place in 0..entries.len() {
        let _word = entries[place].0;
    }
}

// One more, where a test is passed.
fn one_more(count: usize, passes: bool) -> usize
    requires { count < 2 ^ 63 }
    ensures { result ≡ if passes then count + 1 else count }
{
    if passes { count + 1 } else { count }
}

// The stretch of the entries with words from `from` to `to`, found by one look at each entry.
fn stretch_among_few(entries: &[(i64, u64)], from: i64, to: i64) -> Stretch
    requires { IsInOrder entries.now }
    ensures { IsStretch entries.now from to result }
{
    let mut begin = 0;
    let mut end = 0;
    for place in 0..entries.len() {
        let word = entries[place].0;
        begin = one_more(begin, word < from);
        end = one_more(end, word <= to);
    }
    Stretch { begin, end }
}

impl Run {
    /// The run of these entries, which are in order.
    pub(crate) fn of_sorted(alloc: Global, entries: Vec<(i64, u64)>) -> Result<Run, AllocError>
        requires { IsInOrder entries.items }
        ensures { IfOk result (λ run. run ≡ entries.items) }
    {
        know_words(&entries);
        let height = height_for(entries.len() as u64);
        let inner = inner_levels(alloc, &entries, height)?;
        Ok(Run {
            entries,
            inner,
            height,
        })
    }

    /// Its entries.
    pub(crate) fn entries(&self) -> &[(i64, u64)]
        ensures entries { result.now ≡ self.now }
        ensures order { IsInOrder self.now }
        ensures words { HaveWords self.now }
    {
        &self.entries
    }

    /// How many entries there are.
    pub(crate) fn len(&self) -> usize
        ensures count { result ≡ length self.now }
        ensures few { result < 2 ^ 63 }
    {
        self.entries().len()
    }

    // The place of the first entry whose word is at least this one, or past the last entry, found from the root down.
    fn first_from(&self, word: i64) -> usize
        ensures within { result ≤ length self.now }
        ensures first { AreSplitAt (is_entry_below word) self.now result }
    {
        let entries = self.entries.as_slice();
        if self.height == 1 {
            return first_in_node(entries, LINE_ENTRIES, 0, word);
        }
        let (level, above) = self.inner.split_at(entries.len().div_ceil(NODE_ENTRIES));
        let leaf = first_of(level, above, self.height - 2, word);
        first_in_node(entries, LINE_ENTRIES, leaf, word)
    }

    // The same place where all before `next` are less. It looks at the next few entries before it descends.
    fn first_behind(&self, next: usize, word: i64) -> usize
        requires there { next ≤ length self.now }
        requires before { AllWithin (λ entry. is_entry_below word entry ≡ true) self.now 0 next }
        ensures within { result ≤ length self.now }
        ensures first { AreSplitAt (is_entry_below word) self.now result }
    {
        match first_near(&self.entries, next, word) {
            Some(place) => place,
            None => self.first_from(word),
        }
    }

    // The place past the last entry whose word is at most this one. The words of all before `next` are.
    fn end_of(&self, next: usize, word: i64) -> usize
        requires there { next ≤ length self.now }
        requires before { AllWithin (λ entry. int_le entry.0 word ≡ true) self.now 0 next }
        ensures within { result ≤ length self.now }
        ensures end { AreSplitAt (λ entry. int_le entry.0 word) self.now result }
    {
        match word.checked_add(1) {
            Some(above) => self.first_behind(next, above),
            None => self.entries.len(),
        }
    }

    /// The stretch of the entries with words from `from` to `to`, both included. It takes as long as two descents at most.
    pub(crate) fn stretch(&self, from: i64, to: i64) -> Stretch
        requires { int_le from to ≡ true }
        ensures found { IsStretch self.now from to result }
        ensures begin_few { result.begin < 2 ^ 63 }
        ensures end_few { result.end < 2 ^ 63 }
    {
        if self.len() <= FEW_ENTRIES {
            return stretch_among_few(&self.entries, from, to);
        }
        let begin = self.first_from(from);
        let end = self.end_of(begin, to);
        Stretch { begin, end }
    }

    /// These entries. There are none where `from` is greater than `to`.
    pub(crate) fn within(&self, from: i64, to: i64) -> &[(i64, u64)]
        ensures { result.now ≡ filter (is_within from to) self.now }
    {
        if to < from {
            return &self.entries[..0];
        }
        let Stretch { begin, end } = self.stretch(from, to);
        let entries = self.entries.as_slice();
        &entries[begin.min(end)..end]
    }
}
