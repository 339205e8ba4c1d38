//! The statements of a file's keywords and sections so far.
ghost use Rattle.std.specs.Prelude.{◌≡◌, Ok, Err, IfOk, IfErr, OnOk, OnErr, Some, None, option_map};
ghost use Rattle.vrp_text.specs.Line.{tokens_of};
ghost use Rattle.vrp_text.specs.Stated.{value_fault};
ghost use Rattle.vrp_text.specs.Value.{value_of, no_value};
ghost use Rattle.vrp_text.specs.Complete.{complete_of};
ghost use Rattle.vrp_text.specs.Inner.InMemory.{complete_in, matrix_in, source_in};
ghost use Rattle.vrp_text.specs.Inner.Answered.{FailsWith};
ghost use Rattle.vrp_text.specs.Inner.StatedSoFar.{IsInRange, nothing_stated, with_value, with_numbers, FitKey};

use crate::complete::{Complete, Source};
use crate::error::TextError;
use crate::lexer::{
    FileLineFault, Key, Tokens, WeightFormat, WeightKind, capacity, dimension, problem_type,
    weight_format, weight_kind,
};
use std::marker::Model;

/// The statements, each if it is present.
#[derive(Drop)]
pub(crate) struct Statements {
    // The file is of the type CVRP.
    problem: Option<()>,
    nodes: Option<u16>,
    capacity: Option<u64>,
    kind: Option<WeightKind>,
    format: Option<WeightFormat>,
    coordinates: Option<Vec<i64>>,
    weights: Option<Vec<i64>>,
    demands: Option<Vec<i64>>,
    depots: Option<Vec<i64>>,
}

impl Model for Statements {
    ghost use Rattle.vrp_text.specs.Stated.{Stated};

    ghost Value = { Stated };

    ghost use Rattle.std.specs.Prelude.{option_map};

    ghost view = { λ s. record {
      problem = s.problem;
      nodes = s.nodes;
      capacity = s.capacity;
      kind = s.kind;
      format = s.format;
      coordinates = option_map (λ numbers. numbers.items) s.coordinates;
      weights = option_map (λ numbers. numbers.items) s.weights;
      demands = option_map (λ numbers. numbers.items) s.demands;
      depots = option_map (λ numbers. numbers.items) s.depots;
    } };

    ghost use Rattle.vrp_text.specs.Inner.StatedSoFar.{AreInRange};

    ghost invariant = { λ s. AreInRange (record {
      problem = s.problem;
      nodes = s.nodes;
      capacity = s.capacity;
      kind = s.kind;
      format = s.format;
      coordinates = option_map (λ numbers. numbers.items) s.coordinates;
      weights = option_map (λ numbers. numbers.items) s.weights;
      demands = option_map (λ numbers. numbers.items) s.demands;
      depots = option_map (λ numbers. numbers.items) s.depots;
    }) };
}

impl Statements {
    /// No statements.
    pub(crate) fn new() -> Self
        ensures { result ≡ nothing_stated }
    {
        Statements {
            problem: None,
            nodes: None,
            capacity: None,
            kind: None,
            format: None,
            coordinates: None,
            weights: None,
            demands: None,
            depots: None,
        }
    }

    /// Reads the value behind a key. A section's keyword has none.
    pub(crate) fn read_value(
        &mut self,
        explicit: bool,
        key: Key,
        behind: &[u8],
    ) -> Result<(), FileLineFault>
        ensures sound { OnOk result (value_fault explicit key (tokens_of behind.now) ≡ None) }
        ensures read { OnOk result
            (self.new ≡ with_value explicit key (tokens_of behind.now) self.old) }
        ensures refused { FailsWith result (value_fault explicit key (tokens_of behind.now)) }
    {
        match key {
            Key::Problem => self.problem = Some(problem_type(value(behind))?),
            Key::Dimension => self.nodes = Some(dimension(value(behind))?),
            Key::Capacity => self.capacity = Some(capacity(value(behind))?),
            Key::WeightKind => self.kind = Some(weight_kind(value(behind))?),
            Key::WeightFormat => self.format = Some(weight_format(explicit, value(behind))?),
            Key::NodeCoord => no_value(behind)?,
            Key::EdgeWeight => no_value(behind)?,
            Key::Demand => no_value(behind)?,
            Key::Depot => no_value(behind)?,
        }
        Ok(())
    }

    /// Keeps the numbers of a section.
    pub(crate) fn put_numbers(&mut self, key: Key, numbers: Vec<i64>)
        requires { FitKey key numbers.items }
        ensures { self.new ≡ with_numbers key numbers.items self.old }
    {
        match key {
            Key::NodeCoord => self.coordinates = Some(numbers),
            Key::EdgeWeight => self.weights = Some(numbers),
            Key::Demand => self.demands = Some(numbers),
            Key::Depot => self.depots = Some(numbers),
            _ => {}
        }
    }

    /// The complete statements, or the first missing key.
    pub(crate) fn complete(self) -> Result<Complete, TextError>
        ensures value { IfOk result (λ complete. complete_of self ≡ Ok (complete_in complete)) }
        ensures refused { IfErr result (λ error. complete_of self ≡ Err error) }
        ensures in_range { IfOk result (λ complete. IsInRange (complete_in complete)) }
    {
        let Statements {
            problem,
            nodes,
            capacity,
            kind,
            format,
            coordinates,
            weights,
            demands,
            depots,
        } = self;
        needed(Key::Problem, problem)?;
        let nodes = needed(Key::Dimension, nodes)?;
        let capacity = needed(Key::Capacity, capacity)?;
        let kind = needed(Key::WeightKind, kind)?;
        let source = match kind {
            WeightKind::Points(metric) => Source::Points(
                metric,
                needed(Key::NodeCoord, coordinates)?,
            ),
            WeightKind::Explicit => matrix(format, weights)?,
        };
        let demands = needed(Key::Demand, demands)?;
        let depots = needed(Key::Depot, depots)?;
        Ok(Complete {
            nodes,
            capacity,
            source,
            demands,
            depots,
        })
    }
}

// The matrix of an explicit file.
fn matrix(format: Option<WeightFormat>, weights: Option<Vec<i64>>) -> Result<Source, TextError>
    ensures value { IfOk result (λ source. matrix_in format weights ≡ Ok (source_in source)) }
    ensures refused { IfErr result (λ error. matrix_in format weights ≡ Err error) }
{
    let format = needed(Key::WeightFormat, format)?;
    let weights = needed(Key::EdgeWeight, weights)?;
    match format {
        WeightFormat::Matrix(layout) => Ok(Source::Matrix(layout, weights)),
        // Can't happen: in an explicit file this is a bad value.
        WeightFormat::Function => Err(TextError::Missing(Key::WeightFormat)),
    }
}

// The statement of a key, which must be present.
fn needed<T: Drop>(key: Key, value: Option<T>) -> Result<T, TextError>
    ensures value { IfOk result (λ given. value ≡ Some given) }
    ensures none { OnErr result (value ≡ None) }
    ensures missing { IfErr result (λ error. error ≡ TextError.Missing key) }
{
    match value {
        Some(given) => Ok(given),
        None => Err(TextError::Missing(key)),
    }
}

/// The first token, or nothing if there is none.
pub(crate) fn value<'a>(behind: &'a [u8]) -> &'a [u8]
    ensures { result.now ≡ value_of (tokens_of behind.now) }
{
    Tokens::of(behind).next().unwrap_or(&[])
}

/// Nothing may follow the keyword of a section.
pub(crate) fn no_value(behind: &[u8]) -> Result<(), FileLineFault>
    ensures { result ≡ no_value (tokens_of behind.now) }
{
    if !Tokens::of(behind).is_empty() {
        return Err(FileLineFault::BadValue);
    }
    Ok(())
}
