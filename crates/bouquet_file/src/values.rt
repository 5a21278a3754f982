// What stands in a value of a file. Nothing here takes memory.
ghost use Rattle.std.specs.Prelude.{◌≡◌, ◌≤◌, IfSome, bytes_eq, is_some, length, map, option_map};
ghost use Rattle.std.specs.List.{list_all, list_any};
ghost use Rattle.serde_json.specs.View.{view, members_view};
ghost use Rattle.sql_values.specs.Steps.{need};
ghost use Rattle.bouquet_file.specs.Values.{unsigned, within, string_of, list_within, is_key, has_only, has_all, object_of, decimal_number, value_of_key};

use crate::fault::{FieldPath, OpenFault};
use itoa::Buffer;
use serde_json::{Map, Value};

/// The members of an object.
pub(crate) type Members = Map<String, Value>;

/// The version of a file.
#[derive(Clone, Copy)]
pub(crate) enum Version {
    /// 1: of a query without parameters.
    One,
    /// 2: it has a key more, which says how many parameters the query has.
    Two,
}

/// Which object of a file.
#[derive(Clone, Copy)]
pub(crate) enum ObjectKind {
    /// The whole, of this version.
    File(Version),
    /// What was counted of a relation.
    Relation,
    /// A contour.
    Contour,
}

/// What has to be there.
pub(crate) fn need<T: Drop>(value: Option<T>, path: FieldPath) -> Result<T, OpenFault>
    ensures { result ≡ need (OpenFault.Field path) value }
{
    value.ok_or(OpenFault::Field { path })
}

/// The value of a key.
pub(crate) fn member<'v>(members: &'v Members, key: &str) -> Option<&'v Value>
    ensures { option_map (λ v. view v.now) result ≡ value_of_key key.now members.now.entries }
{
    members.get(key)
}

/// The value of a key, where it is an unsigned whole number.
pub(crate) fn unsigned_at(members: &Members, key: &str) -> Option<u64>
    ensures { result ≡ unsigned (value_of_key key.now members.now.entries) }
{
    member(members, key)?.as_u64()
}

/// The same from the least to the most.
pub(crate) fn number_at(members: &Members, key: &str, least: u64, most: u64) -> Option<u64>
    ensures value { result
        ≡ within least most (unsigned (value_of_key key.now members.now.entries)) }
    ensures least { IfSome result (λ number. least ≤ number) }
    ensures most { IfSome result (λ number. number ≤ most) }
{
    let number = unsigned_at(members, key)?;
    if least <= number && number <= most {
        Some(number)
    } else {
        None
    }
}

/// The value of a key, where it is a text.
pub(crate) fn text_at<'v>(members: &'v Members, key: &str) -> Option<&'v str>
    ensures { option_map (λ text. text.now) result
        ≡ string_of (value_of_key key.now members.now.entries) }
{
    member(members, key)?.as_str()
}

#[tactic(auto, using(crate::proofs::Lists::listed_items, crate::proofs::Lists::counted_items))]
/// The value of a key, where it is a list of at least, and at most so many items.
pub(crate) fn list_at<'v>(
    members: &'v Members,
    key: &str,
    least: usize,
    most: usize,
) -> Option<&'v [Value]>
    ensures value { option_map (λ items. map view items.now) result
        ≡ list_within least most (value_of_key key.now members.now.entries) }
    ensures least { IfSome result (λ items. least ≤ length items.now) }
    ensures most { IfSome result (λ items. length items.now ≤ most) }
{
    let items = member(members, key)?.as_array()?.as_slice();
    if least <= items.len() && items.len() <= most {
        Some(items)
    } else {
        None
    }
}

static FILE_KEYS: [&str; 6] = [
    "bouquet",
    "query",
    "levels",
    "threshold",
    "relations",
    "contours",
];

static RELATION_KEYS: [&str; 3] = ["rows", "kept", "indexes"];

static CONTOUR_KEYS: [&str; 2] = ["cost", "plans"];

// Whether a text is one of these keys.
fn is_among(text: &str, keys: &[&str]) -> bool
    ensures { result ≡ list_any (λ key. bytes_eq text.now key.now) keys.now }
{
    keys.iter().any(|key| text == *key)
}

// Whether a text is a key of an object of this kind.
fn is_key(kind: ObjectKind, text: &str) -> bool
    ensures { result ≡ is_key kind text.now }
{
    match kind {
        ObjectKind::File(Version::One) => is_among(text, &FILE_KEYS),
        ObjectKind::File(Version::Two) => text == "parameters" || is_among(text, &FILE_KEYS),
        ObjectKind::Relation => is_among(text, &RELATION_KEYS),
        ObjectKind::Contour => is_among(text, &CONTOUR_KEYS),
    }
}

#[tactic(auto, using(crate::proofs::Lists::keys_seen))]
/// Whether an object has no other key than those of its kind.
pub(crate) fn has_only(members: &Members, kind: ObjectKind) -> bool
    ensures { result ≡ has_only kind (members_view members.now.entries) }
{
    for key in members.keys() {
        if !is_key(kind, key.as_str()) {
            return false;
        }
    }
    true
}

// Whether it has each of these keys.
fn has_each(members: &Members, keys: &[&str]) -> bool
    ensures { result ≡ list_all
        (λ key. is_some (value_of_key key.now members.now.entries)) keys.now }
{
    keys.iter().all(|key| member(members, key).is_some())
}

// Whether it has each key of its kind.
fn has_all(members: &Members, kind: ObjectKind) -> bool
    ensures { result ≡ has_all kind (members_view members.now.entries) }
{
    match kind {
        ObjectKind::File(Version::One) => has_each(members, &FILE_KEYS),
        ObjectKind::File(Version::Two) => {
            member(members, "parameters").is_some() && has_each(members, &FILE_KEYS)
        }
        ObjectKind::Relation => has_each(members, &RELATION_KEYS),
        ObjectKind::Contour => has_each(members, &CONTOUR_KEYS),
    }
}

/// An object with exactly the keys of its kind.
pub(crate) fn object_of(value: &Value, kind: ObjectKind) -> Option<&Members>
    ensures { option_map (λ members. members_view members.now.entries) result
        ≡ object_of kind (view value.now) }
{
    let members = value.as_object()?;
    if has_only(members, kind) && has_all(members, kind) {
        Some(members)
    } else {
        None
    }
}

/// The number whose decimal text this is, where it is below 2^128.
pub(crate) fn decimal_number(text: &str) -> Option<u128>
    ensures { result ≡ decimal_number text.now }
{
    let number = match text.parse::<u128>() {
        Ok(number) => number,
        Err(_) => return None,
    };
    let mut buffer = Buffer::new();
    if buffer.format(number) == text {
        Some(number)
    } else {
        None
    }
}
