// The rule on names of files: which of them lead out of the directory in which they are looked up.
// It goes by the name alone, and never asks the system.
ghost use Rattle.std.specs.Prelude.{◌≢◌, ◌↔◌, ◌==◌, All, IsTrue};
ghost use Rattle.std.specs.List.{slice_split};
ghost use Rattle.std.specs.Path.{slash, parent_dir};
ghost use Rattle.outside_io.specs.Names.{IsInside};

use std::path::Path;

// Whether no component of the name leads up.
fn never_leads_up(name: &str) -> bool
    ensures { IsTrue result
        ↔ All (λ component. component ≢ parent_dir) (slice_split (λ byte. byte == slash) name.now) }
{
    name.split('/').all(|component| component != "..")
}

// Whether no byte of the name is 0, at which the system would take it to end.
fn has_no_nul(name: &str) -> bool
    ensures { IsTrue result ↔ All (λ byte. byte ≢ 0) name.now }
{
    name.as_bytes().iter().all(|byte| *byte != 0)
}

/// Whether the name doesn't lead out of the directory. Where links lead is another matter.
pub(crate) fn is_inside(name: &str) -> bool
    ensures { IsTrue result ↔ IsInside name.now }
{
    Path::new(name).is_relative() && never_leads_up(name) && has_no_nul(name)
}
