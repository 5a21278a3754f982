// What is looked at first: that the value is an object of a version that is known, with no other key.
ghost use Rattle.std.specs.Prelude.{◌≡◌};
ghost use Rattle.serde_json.specs.View.{view, members_view};
ghost use Rattle.bouquet_file.specs.Given.{GivesChecked};
ghost use Rattle.bouquet_file.specs.Checks.{head_of, version_of};

use crate::fault::{FieldPath, OpenFault};
use crate::values::{Members, ObjectKind, Version, has_only, need, unsigned_at};
use serde_json::Value;

// The version of this number.
fn version_of(number: u64) -> Option<Version>
    ensures { result ≡ version_of number }
{
    match number {
        1 => Some(Version::One),
        2 => Some(Version::Two),
        _ => None,
    }
}

#[tactic(auto, unfolding(crate::specs::Checks::head_of))]
/// The version and the members of a file.
pub(crate) fn head_of(file: &Value) -> Result<(Version, &Members), OpenFault>
    ensures { GivesChecked (λ head. (head.0, members_view head.1.now.entries)) result
        (head_of (view file.now)) }
{
    let members = need(file.as_object(), FieldPath::Bouquet)?;
    let number = need(unsigned_at(members, "bouquet"), FieldPath::Bouquet)?;
    let Some(version) = version_of(number) else {
        return Err(OpenFault::Version { found: number });
    };
    if !has_only(members, ObjectKind::File(version)) {
        return Err(OpenFault::Field {
            path: FieldPath::Keys,
        });
    }
    Ok((version, members))
}
