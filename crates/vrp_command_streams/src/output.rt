//! Writing the report.
ghost use Rattle.std.specs.Prelude.{◌≡◌, ◌≤◌, ◌<◌, length, take, IfOk, IfErr, OnOk};
ghost use Rattle.std.specs.Io.KnownBytes.{Appends, Keeps};
ghost use Rattle.vrp_command_streams.specs.Output.{AppendsPart};

use crate::fault::RunError;
use std::io::Write;

/// Writes the report, and flushes it. Any error is a fault at once, including an interrupted write and a write of zero bytes:
/// then a beginning of the report was written. If the flush fails, all of it was.
pub fn write_report<W: Write>(output: &mut W, report: &[u8]) -> Result<(), RunError>
    ensures written { OnOk result (Appends
        (W.contents output.old) (W.contents output.new) report.now) }
    ensures fault { IfErr result (λ fault. fault ≡ RunError.Write) }
    ensures begun { AppendsPart (W.contents output.old) (W.contents output.new) report.now }
{
    let mut written = 0;
    while written < report.len() {
        written += write_some(output, &report[written..])?;
    }
    flush(output)
}

// Writes once, and answers how many bytes were taken.
fn write_some<W: Write>(output: &mut W, rest: &[u8]) -> Result<usize, RunError>
    ensures some { IfOk result (λ count. 0 < count) }
    ensures bounded { IfOk result (λ count. count ≤ length rest.now) }
    ensures taken { IfOk result (λ count. Appends
        (W.contents output.old) (W.contents output.new) (take count rest.now)) }
    ensures fault { IfErr result (λ fault. (fault ≡ RunError.Write) × Keeps
        (W.contents output.old) (W.contents output.new)) }
{
    match output.write(rest) {
        Ok(0) | Err(_) => Err(RunError::Write),
        Ok(count) => Ok(count),
    }
}

// Flushes what was written.
fn flush<W: Write>(output: &mut W) -> Result<(), RunError>
    ensures kept { Keeps (W.contents output.old) (W.contents output.new) }
    ensures fault { IfErr result (λ fault. fault ≡ RunError.Write) }
{
    match output.flush() {
        Ok(()) => Ok(()),
        Err(_) => Err(RunError::Write),
    }
}
