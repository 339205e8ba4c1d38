//! Reads the input, up to one byte more than a file may have.
ghost use Rattle.std.specs.Prelude.{◌≡◌, ◌+◌, ◌≤◌, ◌<◌, ◌⊎◌, length, take, IfOk, IfErr, vec_len};
ghost use Rattle.std.specs.Io.KnownBytes.{Consumes, IsAtEnd, Keeps};
ghost use Rattle.vrp_command_streams.specs.Input.{IsInput, TakesAtMost};

use crate::fault::RunError;
use std::alloc::{AllocError, Global};
use std::io::Read;
use vrp_text::MAX_BYTES;

// The number of bytes requested at once.
const BUFFER: usize = 65_536;

/// Reads to the end of the input, or to one byte more than a file may have. Any error of a read is a fault at once.
pub fn read_input<R: Read>(alloc: Global, input: &mut R) -> Result<Vec<u8>, RunError>
    ensures read { IfOk result (λ bytes. IsInput
        (R.remaining input.old) (R.remaining input.new) bytes.items) }
    ensures taken { TakesAtMost (MAX_BYTES + 1) (R.remaining input.old) (R.remaining input.new) }
    ensures failed { IfErr result (λ fault. fault ≡ RunError.Read → TakesAtMost MAX_BYTES
        (R.remaining input.old) (R.remaining input.new)) }
    ensures faults { IfErr result (λ fault. (fault ≡ RunError.OutOfMemory) ⊎ (fault ≡ RunError.Read)) }
{
    let mut bytes = Vec::new(alloc);
    let mut buffer = zeros(alloc, BUFFER)?;
    while bytes.len() <= MAX_BYTES {
        let room = buffer.len().min(MAX_BYTES + 1 - bytes.len());
        let space = &mut buffer[..room];
        let count = read_some(input, space)?;
        if count == 0 {
            break;
        }
        bytes.extend_from_slice(&space[..count])?;
    }
    Ok(bytes)
}

// A buffer of this many bytes.
fn zeros(alloc: Global, room: usize) -> Result<Vec<u8>, AllocError>
    ensures { IfOk result (λ buffer. vec_len buffer ≡ room) }
{
    vec![in alloc; 0u8; room]
}

// Reads once into the buffer, and answers how many bytes came. It can't lack memory: a failed read is reported as such.
fn read_some<R: Read>(input: &mut R, buffer: &mut [u8]) -> Result<usize, RunError>
    ensures bounded { IfOk result (λ count. count ≤ length buffer.old) }
    ensures read { IfOk result (λ count. Consumes
        (R.remaining input.old) (R.remaining input.new) (take count buffer.new)) }
    ensures end { IfOk result (λ count. count ≡ 0 → 0 < length buffer.old → IsAtEnd (R.remaining input.new)) }
    ensures fault { IfErr result (λ fault. (fault ≡ RunError.Read) × Keeps
        (R.remaining input.old) (R.remaining input.new)) }
{
    match input.read(buffer) {
        Ok(count) => Ok(count),
        Err(_) => Err(RunError::Read),
    }
}
