//! The problem of a run, from the bytes of its input, and the other data that a form needs from them.
ghost use Rattle.std.specs.Prelude.{◌≡◌, ◌≢◌, ◌+◌, ◌≤◌, false, IfOk, IfErr, IsTrue, string_bytes};
ghost use Rattle.std.specs.Option.{ForSome, option_map};
ghost use Rattle.vrp_command_streams.specs.Input.{TakesAtMost};
ghost use Rattle.vrp_command_request.specs.Options.{AreInRange};
ghost use Rattle.vrp_command.specs.Inner.Named.{ReadsNamed};
ghost use Rattle.vrp_command.specs.Inner.Points.{HasPoints};
ghost use Rattle.vrp_command.specs.Run.{OnRefusedFile, RefusesInput, limited};
ghost use Rattle.vrp_plan_text.specs.Name.{name_of};
ghost use Rattle.vrp_model.specs.declared.limits.TheConstants.{MAX_NODES};

use std::alloc::{AllocError, Global};
use std::io::Read;
use vrp_command_request::{Format, Options};
use vrp_command_streams::{RunError, read_input};
use vrp_model::{Instance, NoMemory};
use vrp_plan_text::{Points, name_of};
use vrp_text::MAX_BYTES;

/// A problem that was read.
#[derive(Drop)]
pub(crate) struct Problem {
    pub(crate) instance: Instance,
    pub(crate) beside: Beside,
}

/// The data that a form needs from a file beside the instance.
#[derive(Drop)]
pub(crate) struct Beside {
    /// The coordinates of the places, if a picture is requested and the file has them.
    pub(crate) points: Option<Points>,
    /// The file's name for itself, if JSON is requested and the file has one.
    pub(crate) name: Option<String>,
}

impl Problem {
    /// Whether a picture is requested, and the file has no coordinates to draw.
    pub(crate) fn lacks_points(&self, format: Format) -> bool
        ensures yes { IsTrue result → format ≡ Format.Picture }
        ensures no { result ≡ false → HasPoints format self.now }
    {
        match format {
            Format::Picture => self.beside.points.is_none(),
            Format::Report | Format::Solution | Format::Json => false,
        }
    }
}

impl Beside {
    // The data that a form needs from a file that means this instance.
    fn read(
        alloc: Global,
        format: Format,
        bytes: &[u8],
        instance: &Instance,
    ) -> Result<Beside, NoMemory>
        ensures { IfOk result (λ beside. format ≡ Format.Json
            → option_map string_bytes beside.name ≡ name_of bytes.now) }
    {
        match format {
            Format::Picture => Ok(Beside {
                points: Points::read(alloc, bytes, instance)?,
                name: None,
            }),
            Format::Json => Ok(Beside {
                points: None,
                name: name_in(alloc, bytes)?,
            }),
            Format::Report | Format::Solution => Ok(Beside {
                points: None,
                name: None,
            }),
        }
    }
}

// A file's name for itself, if it has one.
fn name_in(alloc: Global, bytes: &[u8]) -> Result<Option<String>, AllocError>
    ensures { IfOk result (λ name. option_map string_bytes name ≡ name_of bytes.now) }
{
    match name_of(bytes) {
        Some(name) => Ok(Some(String::from_str(alloc, name)?)),
        None => Ok(None),
    }
}

/// The problem that the input means, with the chosen node as its depot and the requested trucks, and the data that the form
/// needs. Reading ends at the end of the input, or after one byte more than a file may have.
pub(crate) fn read_problem<R: Read>(
    alloc: Global,
    options: Options,
    format: Format,
    input: &mut R,
) -> Result<Problem, RunError>
    requires { AreInRange options }
    ensures read { IfOk result (λ problem. ReadsNamed options format
        (R.remaining input.old) (R.remaining input.new) problem.instance (option_map string_bytes problem.beside.name)) }
    ensures refused { IfErr result (λ fault. OnRefusedFile fault (RefusesInput options.depot
        (R.remaining input.old) (R.remaining input.new))) }
    ensures failed { IfErr result (λ fault. fault ≡ RunError.Read → TakesAtMost MAX_BYTES
        (R.remaining input.old) (R.remaining input.new)) }
    ensures taken { TakesAtMost (MAX_BYTES + 1) (R.remaining input.old) (R.remaining input.new) }
    ensures unwritten { IfErr result (λ fault. fault ≢ RunError.Write) }
{
    let bytes = read_input(alloc, input)?;
    let instance = vrp_text::read(alloc, &bytes, options.depot)?;
    let beside = Beside::read(alloc, format, &bytes, &instance)?;
    Ok(Problem {
        instance: limited(instance, options.trucks),
        beside,
    })
}

/// The instance with the requested number of trucks, if there is one.
pub(crate) fn limited(instance: Instance, trucks: Option<u16>) -> Instance
    requires some { ForSome trucks (λ most. 1 ≤ most) }
    requires few { ForSome trucks (λ most. most ≤ MAX_NODES) }
    ensures { result ≡ limited trucks instance }
{
    match trucks {
        Some(trucks) => instance.with_trucks(trucks),
        None => instance,
    }
}
