// Reads a source to its end, or as far as shows that it is too long for a script. After a failed take the source isn't
// asked again.
ghost use Rattle.std.specs.Prelude.{◌≡◌, ℕ, ◌+◌, ◌<◌, ◌≤◌, List, [], ◌++◌, length, take, drop, Some, OnOk, IfOk, OnErr, IfSome, IsErrOf, vec_len};
ghost use Rattle.shell.specs.Source.{TakesAtMost};
ghost use Rattle.sql_values.specs.Limits.{max_script_bytes};
ghost use Rattle.outside_io.specs.Count.{HasCause};

use outside_io::{Failed, Source};
use sql_values::MAX_SCRIPT_BYTES;
use std::alloc::{AllocError, Global};

// How many bytes one take asks for.
const BLOCK_BYTES: usize = 131072;

// As many bytes as show that a script is too long.
const MOST_BYTES: usize = MAX_SCRIPT_BYTES as usize + 1;

/// Why a source wasn't read.
#[derive(Clone, Copy)]
pub(crate) enum SourceFault {
    /// The source failed.
    Failed,
    /// Out of memory.
    NoMemory,
}

impl From<AllocError> for SourceFault {
    ghost use Rattle.std.specs.Prelude.{◌≡◌};
    ghost use Rattle.shell.specs.declared.source.SourceFault.TheVariants.{NoMemory};

    ghost from_gives = { λ _ fault. fault ≡ NoMemory };

    fn from(_: AllocError) -> SourceFault {
        SourceFault::NoMemory
    }
}

fn zeros(alloc: Global, count: usize) -> Result<Vec<u8>, AllocError>
    ensures { IfOk result (λ bytes. vec_len bytes ≡ count) }
{
    vec![in alloc; 0u8; count]
}

// Takes up to so many of the bytes that come next, by way of the block, and appends them to those before.
fn take_block<S: Source>(
    source: &mut S,
    block: &mut [u8],
    room: usize,
    bytes: &mut Vec<u8>,
) -> Result<usize, SourceFault>
    requires { room ≤ length block.old }
    ensures within { IfOk result (λ n. n ≤ room) }
    ensures appended { IfOk result (λ n. length bytes.new.items ≡ length bytes.old.items + n) }
    ensures taken { OnOk result
        (IfSome (S.left source.old) (λ left. (rest : List ℕ) × (S.left source.new ≡ Some rest)
        × (bytes.new.items ++ rest ≡ bytes.old.items ++ left))) }
    ensures end { IfOk result (λ n. n ≡ 0 → 0 < room →
        IfSome (S.left source.old) (λ left. left ≡ [])) }
    ensures bounded { OnErr result
        (IfSome (S.left source.old) (TakesAtMost room (S.left source.new))) }
    ensures faults { HasCause (IsErrOf result SourceFault.Failed)
        (S.faults source.old) (S.faults source.new) }
{
    let taken = match source.take(&mut block[..room]) {
        Ok(taken) => taken,
        Err(Failed) => return Err(SourceFault::Failed),
    };
    bytes.extend_from_slice(&block[..taken])?;
    Ok(taken)
}

/// All that the source has left, or the first 16777217 bytes of it, which are one too many for a script.
pub(crate) fn read_source<S: Source>(alloc: Global, source: &mut S) -> Result<Vec<u8>, SourceFault>
    ensures whole { IfOk result (λ bytes. IfSome (S.left source.old) (λ left.
        (bytes.items ≡ take (max_script_bytes + 1) left)
        × (S.left source.new ≡ Some (drop (max_script_bytes + 1) left)))) }
    ensures bounded { OnErr result
        (IfSome (S.left source.old) (TakesAtMost (max_script_bytes + 1) (S.left source.new))) }
    ensures faults { HasCause (IsErrOf result SourceFault.Failed)
        (S.faults source.old) (S.faults source.new) }
{
    let mut block = zeros(alloc, BLOCK_BYTES)?;
    let mut bytes = Vec::new(alloc);
    for turn in 0..MOST_BYTES {
        let room = BLOCK_BYTES.min(MOST_BYTES - bytes.len());
        match take_block(source, &mut block, room, &mut bytes) {
            Ok(0) => break,
            Ok(_) => {}
            Err(fault) => return Err(fault),
        }
    }
    Ok(bytes)
}
