// The inner levels of the tree: how they are made, and the descent through them.
// Of each node below a level has one word, that of the node's last entry; 64 of them are a node. The levels lie one after
// another, the one above the leaves first and the root last.
ghost use Rattle.std.specs.Prelude.{◌≡◌, ◌+◌, ◌-◌, ◌*◌, ◌<◌, ◌≤◌, drop, length, map, take, IfOk, OnOk};
ghost use Rattle.std.specs.List.Sorted.{IsPartitionedBy};
ghost use Rattle.btree_index.specs.Height.{height_of};
ghost use Rattle.btree_index.specs.Nodes.{AreLastWords, AreLevels, AreSplitAt, entry_word, is_below, nodes_of};

use crate::node::{LINE_WORDS, NODE_ENTRIES, first_in_node};
use std::alloc::{AllocError, Global};

// Of each leaf its last word.
fn leaf_words(alloc: Global, entries: &[(i64, u64)]) -> Result<Vec<i64>, AllocError>
    ensures { IfOk result (λ above. AreLastWords (map entry_word entries.now) above.items) }
{
    let leaves = entries.len().div_ceil(NODE_ENTRIES);
    let mut above = Vec::with_capacity(alloc, leaves)?;
    for leaf in 0..leaves {
        let last = (leaf * NODE_ENTRIES + (NODE_ENTRIES - 1)).min(entries.len() - 1);
        above.push(entries[last].0)?;
    }
    Ok(above)
}

// Pushes the level above the last one so far, which begins there.
fn push_level(inner: &mut Vec<i64>, begin: usize) -> Result<(), AllocError>
    requires { begin ≤ length inner.old.items }
    ensures kept { OnOk result (take (length inner.old.items) inner.new.items ≡ inner.old.items) }
    ensures above { OnOk result
        (AreLastWords (drop begin inner.old.items) (drop (length inner.old.items) inner.new.items)) }
{
    let end = inner.len();
    let nodes = (end - begin).div_ceil(NODE_ENTRIES);
    for node in 0..nodes {
        let last = (begin + node * NODE_ENTRIES + (NODE_ENTRIES - 1)).min(end - 1);
        let word = inner[last];
        inner.push(word)?;
    }
    Ok(())
}

/// The inner levels over these entries, up to the root.
pub(crate) fn inner_levels(
    alloc: Global,
    entries: &[(i64, u64)],
    height: u32,
) -> Result<Vec<i64>, AllocError>
    requires { height ≡ height_of (length entries.now) }
    ensures levels { IfOk result
        (λ inner. AreLevels (height - 1) (map entry_word entries.now) inner.items) }
    ensures count { IfOk result (λ inner. length inner.items + 1 ≡ nodes_of (length entries.now)) }
{
    if height == 1 {
        return Ok(Vec::new(alloc));
    }
    let mut inner = leaf_words(alloc, entries)?;
    let mut begin = 0;
    for _level in 2..height {
        let end = inner.len();
        push_level(&mut inner, begin)?;
        begin = end;
    }
    Ok(inner)
}

/// The place of the first word of a level that is at least this one, found from the root down through `more` levels
/// above it.
pub(crate) fn first_of(words: &[i64], above: &[i64], more: u32, word: i64) -> usize
    requires levels { AreLevels more words.now above.now }
    requires rising { IsPartitionedBy (is_below word) words.now }
    ensures within { result ≤ length words.now }
    ensures first { AreSplitAt (is_below word) words.now result }
{
    if more == 0 {
        return first_in_node(words, LINE_WORDS, 0, word);
    }
    let (level, rest) = above.split_at(words.len().div_ceil(NODE_ENTRIES));
    let node = first_of(level, rest, more - 1, word);
    first_in_node(words, LINE_WORDS, node, word)
}
