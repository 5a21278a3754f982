// Two runs, older entries and newer ones, read as the one list in order that both make.
ghost use Rattle.std.specs.Prelude.{◌≡◌, ◌+◌, ◌++◌, ◌^◌, ◌<◌, ◌≤◌, length, slice_index_or, false, true};
ghost use Rattle.std.specs.Ordering.{is_gt};
ghost use Rattle.btree_index.specs.Entries.{IndexEntry, IsInOrder, entry_order, ordered};
ghost use Rattle.btree_index.specs.Runs.{IsNewerNext, IsOlderNext, IsSplitAt};

// Whether an entry comes after another.
fn comes_after(entry: (i64, u64), other: (i64, u64)) -> bool
    ensures { result ≡ is_gt (entry_order entry other) }
{
    entry > other
}

// Whether so many older entries, and else newer ones, stand before a place.
fn are_split(older: &[(i64, u64)], newer: &[(i64, u64)], place: usize, first: usize) -> bool
    ensures { result ≡ true → IsSplitAt older.now newer.now place first }
{
    if first > place || first > older.len() || place - first > newer.len() {
        return false;
    }
    let second = place - first;
    if first > 0 && second < newer.len() && comes_after(older[first - 1], newer[second]) {
        return false;
    }
    second == 0 || first == older.len() || !comes_after(newer[second - 1], older[first])
}

// How many older entries stand before a place. Where the guess is right, it isn't searched for.
fn split_at(older: &[(i64, u64)], newer: &[(i64, u64)], place: usize, guess: usize) -> usize
    requires older { length older.now < 2 ^ 63 }
    requires newer { length newer.now < 2 ^ 63 }
    requires there { place ≤ length older.now + length newer.now }
    ensures { IsSplitAt older.now newer.now place result }
{
    if are_split(older, newer, place, guess) {
        return guess;
    }
    let mut low = place.saturating_sub(newer.len());
    let mut high = place.min(older.len());
    while low < high {
        let middle = low + (high - low) / 2;
        if comes_after(newer[place - middle - 1], older[middle]) {
            low = middle + 1;
        } else {
            high = middle;
        }
    }
    low
}

// Whether the next entry, behind so many older ones and so many newer ones, is a newer one.
fn is_newer_next(older: &[(i64, u64)], newer: &[(i64, u64)], first: usize, second: usize) -> bool
    requires older_there { first ≤ length older.now }
    requires newer_there { second ≤ length newer.now }
    requires some { first + second < length older.now + length newer.now }
    ensures newer { result ≡ true → IsNewerNext older.now newer.now first second }
    ensures older { result ≡ false → IsOlderNext older.now newer.now first second }
{
    first == older.len() || (second < newer.len() && comes_after(older[first], newer[second]))
}

/// The entry at a place of both, and how many of the entries up to it are older ones. How many of those before it are is
/// guessed.
pub(crate) fn entry_at(
    older: &[(i64, u64)],
    newer: &[(i64, u64)],
    place: usize,
    guess: usize,
) -> ((i64, u64), usize)
    requires older { length older.now < 2 ^ 63 }
    requires newer { length newer.now < 2 ^ 63 }
    requires older_order { IsInOrder older.now }
    requires newer_order { IsInOrder newer.now }
    requires there { place < length older.now + length newer.now }
    ensures { (d : IndexEntry)
        → result.0 ≡ slice_index_or (ordered (older.now ++ newer.now)) place d }
{
    if newer.is_empty() {
        return (older[place], place + 1);
    }
    let first = split_at(older, newer, place, guess);
    let second = place - first;
    if is_newer_next(older, newer, first, second) {
        return (newer[second], first);
    }
    (older[first], first + 1)
}
