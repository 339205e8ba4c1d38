//! The values of keywords.
ghost use Rattle.std.specs.Prelude.{◌≡◌, ◌≤◌, IfOk};
ghost use Rattle.std.specs.List.{list_any};
ghost use Rattle.std.specs.Map.{lookup};
ghost use Rattle.std.specs.Str.{bytes_eq};
ghost use Rattle.vrp_text.specs.Value.{problem_type, dimension, capacity, weight_kind, other_weight_kinds, weight_format, weight_formats};

use crate::lexer::fault::FileLineFault;
use crate::lexer::numeral::number;
use vrp_model::{Layout, MAX_CAPACITY, MAX_NODES, Metric};

/// The source of the weights.
#[derive(Clone, Copy, Debug, PartialEq, Eq)]
pub enum WeightKind {
    /// A matrix.
    Explicit,
    /// The distances of points.
    Points(Metric),
}

/// How weights are given.
#[derive(Clone, Copy, Debug, PartialEq, Eq)]
pub enum WeightFormat {
    /// By the distances.
    Function,
    /// By a matrix.
    Matrix(Layout),
}

/// Whether a file of the type `word` can be read: only CVRP can.
pub fn problem_type(word: &[u8]) -> Result<(), FileLineFault>
    ensures { result ≡ problem_type word.now }
{
    match word {
        b"CVRP" => Ok(()),
        b"TSP" | b"ATSP" | b"SOP" | b"HCP" | b"TOUR" => Err(FileLineFault::Unsupported),
        _ => Err(FileLineFault::BadValue),
    }
}

/// The number of nodes that `word` states.
pub fn dimension(word: &[u8]) -> Result<u16, FileLineFault>
    ensures value { result ≡ dimension word.now }
    ensures in_range { IfOk result (λ nodes. (1 ≤ nodes) × (nodes ≤ MAX_NODES)) }
{
    match number(word, 1, i64::from(MAX_NODES)) {
        Ok(nodes) => Ok(nodes as u16),
        Err(_) => Err(FileLineFault::BadValue),
    }
}

/// The capacity that `word` states.
pub fn capacity(word: &[u8]) -> Result<u64, FileLineFault>
    ensures value { result ≡ capacity word.now }
    ensures in_range { IfOk result (λ load. (1 ≤ load) × (load ≤ MAX_CAPACITY)) }
{
    match number(word, 1, MAX_CAPACITY as i64) {
        Ok(load) => Ok(load as u64),
        Err(_) => Err(FileLineFault::BadValue),
    }
}

// Whether the standard has the word, but it is not supported.
fn is_other_weight_kind(word: &[u8]) -> bool
    ensures { result ≡ list_any (bytes_eq word.now) other_weight_kinds }
{
    word == b"EUC_3D".as_slice()
        || word == b"MAX_3D".as_slice()
        || word == b"MAN_3D".as_slice()
        || word == b"GEO".as_slice()
        || word == b"XRAY1".as_slice()
        || word == b"XRAY2".as_slice()
        || word == b"SPECIAL".as_slice()
}

/// The source of the weights that a file names by `word`.
pub fn weight_kind(word: &[u8]) -> Result<WeightKind, FileLineFault>
    ensures { result ≡ weight_kind word.now }
{
    if word == b"EXPLICIT".as_slice() {
        Ok(WeightKind::Explicit)
    } else if word == b"EUC_2D".as_slice() {
        Ok(WeightKind::Points(Metric::Euc2d))
    } else if word == b"CEIL_2D".as_slice() {
        Ok(WeightKind::Points(Metric::Ceil2d))
    } else if word == b"MAN_2D".as_slice() {
        Ok(WeightKind::Points(Metric::Man2d))
    } else if word == b"MAX_2D".as_slice() {
        Ok(WeightKind::Points(Metric::Max2d))
    } else if word == b"ATT".as_slice() {
        Ok(WeightKind::Points(Metric::Att))
    } else if is_other_weight_kind(word) {
        Err(FileLineFault::Unsupported)
    } else {
        Err(FileLineFault::BadValue)
    }
}

// The format with this name.
fn named_format(word: &[u8]) -> Option<WeightFormat>
    ensures { result ≡ lookup (bytes_eq word.now) weight_formats }
{
    if word == b"FUNCTION".as_slice() {
        Some(WeightFormat::Function)
    } else if word == b"FULL_MATRIX".as_slice() {
        Some(WeightFormat::Matrix(Layout::FullMatrix))
    } else if word == b"UPPER_ROW".as_slice() {
        Some(WeightFormat::Matrix(Layout::UpperRow))
    } else if word == b"LOWER_ROW".as_slice() {
        Some(WeightFormat::Matrix(Layout::LowerRow))
    } else if word == b"UPPER_DIAG_ROW".as_slice() {
        Some(WeightFormat::Matrix(Layout::UpperDiagRow))
    } else if word == b"LOWER_DIAG_ROW".as_slice() {
        Some(WeightFormat::Matrix(Layout::LowerDiagRow))
    } else if word == b"UPPER_COL".as_slice() {
        Some(WeightFormat::Matrix(Layout::UpperCol))
    } else if word == b"LOWER_COL".as_slice() {
        Some(WeightFormat::Matrix(Layout::LowerCol))
    } else if word == b"UPPER_DIAG_COL".as_slice() {
        Some(WeightFormat::Matrix(Layout::UpperDiagCol))
    } else if word == b"LOWER_DIAG_COL".as_slice() {
        Some(WeightFormat::Matrix(Layout::LowerDiagCol))
    } else {
        None
    }
}

/// The format of the weights that a file names by `word`; in an explicit file it can't be a function.
pub fn weight_format(explicit: bool, word: &[u8]) -> Result<WeightFormat, FileLineFault>
    ensures { result ≡ weight_format explicit word.now }
{
    match named_format(word) {
        Some(WeightFormat::Function) if explicit => Err(FileLineFault::BadValue),
        Some(format) => Ok(format),
        None => Err(FileLineFault::BadValue),
    }
}
