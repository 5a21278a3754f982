// The lines of the table of work, by numbers of rows. A number that doesn't fit 128 bits is the greatest that does.
ghost use Rattle.std.specs.Prelude.{◌≡◌, ◌*◌, ◌≤◌};
ghost use Rattle.plan_tree.specs.Work.{capped, sort_work, scan_line, index_scan_line, nest_work, hash_work, merge_work, index_loop_work};

use work_ledger::charge;

/// What sorting so many rows costs: as often their number as it has binary digits.
pub fn sort(rows: u128) -> u128
    ensures work { result ≡ capped (sort_work rows) }
    ensures bound { result ≤ rows * 128 }
{
    rows.saturating_mul(u128::from(128 - rows.leading_zeros()))
}

/// A scan of so many pages and rows.
pub fn scan(pages: u64, rows: u64, out: u128) -> u128
    ensures { result ≡ capped (scan_line pages rows out) }
{
    let read = charge::OPEN + charge::PAGE * u128::from(pages) + u128::from(rows);
    read.saturating_add(out)
}

/// A scan by an index of so many levels, which finds so many rows.
pub fn index_scan(height: u32, matches: u128, out: u128) -> u128
    ensures { result ≡ capped (index_scan_line height matches out) }
{
    let descent = charge::OPEN + charge::NODE * u128::from(height);
    let fetches = matches.saturating_mul(charge::ENTRY + charge::FETCH);
    descent.saturating_add(fetches).saturating_add(out)
}

/// A nested loop of so many rows on the left and on the right.
pub fn nest(l: u128, r: u128, out: u128) -> u128
    ensures { result ≡ capped (nest_work l r out) }
{
    r.saturating_add(l.saturating_mul(r)).saturating_add(out)
}

/// A hash join that has so many candidates.
pub fn hash(l: u128, r: u128, candidates: u128, out: u128) -> u128
    ensures { result ≡ capped (hash_work l r candidates out) }
{
    let sides = r.saturating_mul(charge::HASH_IN).saturating_add(l);
    sides.saturating_add(candidates).saturating_add(out)
}

/// A merge join that has so many candidates.
pub fn merge(l: u128, r: u128, candidates: u128, out: u128) -> u128
    ensures { result ≡ capped (merge_work l r candidates out) }
{
    let sorts = sort(l).saturating_add(sort(r));
    let sides = sorts.saturating_add(l).saturating_add(r);
    sides.saturating_add(candidates).saturating_add(out)
}

/// An index loop, by an index of so many levels, that finds so many entries.
pub fn index_loop(height: u32, l: u128, found: u128, out: u128) -> u128
    ensures { result ≡ capped (index_loop_work height l found out) }
{
    let descents = (charge::NODE * u128::from(height)).saturating_mul(l);
    let looks = found.saturating_mul(charge::ENTRY + charge::FETCH + charge::PAIR);
    descents.saturating_add(looks).saturating_add(out)
}
