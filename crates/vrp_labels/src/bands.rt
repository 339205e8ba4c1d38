//! Bands of load among the labels of a place: a beginning looks only at labels that may be light and cheap enough.
ghost use Rattle.std.specs.Prelude.{◌≡◌, ◌≤◌, ◌<◌, ◌*◌, ◌^◌, ℕ, IfOk, length, slice_index_or, unsigned_abs};
ghost use Rattle.std.specs.List.{All};
ghost use Rattle.vrp_labels.specs.Bands.{AreBanded, AreBands, IsBand, IsShift};
ghost use Rattle.vrp_labels.specs.Label.{pile_at};
ghost use Rattle.vrp_labels.specs.Sorting.{IsBanded};
ghost use Rattle.vrp_labels.specs.declared.graph.TheConstants.{MAX_UNITS};

use crate::label::Label;
use crate::piles::LabelPiles;
use std::alloc::{AllocError, Global};

/// The number of bands of a place.
pub const BANDS: u32 = 32;

// No label costs more.
const HIGHEST_COST: i64 = 3 << 60;

/// The labels of one band of a place: those from one index up to another. No label of the band or a lower one costs less than the least.
#[derive(Clone, Copy, Debug)]
pub struct Band {
    pub from: usize,
    pub to: usize,
    pub least: i64,
}

/// The number of low bits of a load that don't tell its band, so that there are bands for each load.
pub fn band_shift(capacity: u32) -> u32
    requires { capacity ≤ MAX_UNITS }
    ensures { IsShift result capacity }
{
    for shift in 0..12 {
        if capacity >> shift < BANDS {
            return shift;
        }
    }
    12
}

/// The bands of each place. The only error is lack of memory.
pub fn bands_by_place(
    alloc: Global,
    kept: &LabelPiles,
    shift: u32,
) -> Result<Vec<Vec<Band>>, AllocError>
    requires shift { shift < 32 }
    requires banded { (place : ℕ) → place < length kept.now → IsBanded shift (pile_at kept.now place) }
    requires small { (place : ℕ) → All (λ label. unsigned_abs label.cost ≤ 3 * 2 ^ 60) (pile_at kept.now place) }
    ensures { IfOk result (λ bands. AreBanded shift kept.now bands.items) }
{
    let mut bands = Vec::with_capacity(alloc, kept.len())?;
    for place in 0..kept.len() {
        bands.push(bands_of(alloc, kept.get(place), shift)?)?;
    }
    Ok(bands)
}

// The bands of one place.
fn bands_of(alloc: Global, pile: &[Label], shift: u32) -> Result<Vec<Band>, AllocError>
    requires shift { shift < 32 }
    requires banded { IsBanded shift pile.now }
    requires small { All (λ label. unsigned_abs label.cost ≤ 3 * 2 ^ 60) pile.now }
    ensures { IfOk result (λ bands. AreBands shift pile.now bands.items) }
{
    let mut bands = Vec::with_capacity(alloc, BANDS as usize)?;
    for b in 0..BANDS {
        bands.push(band_of(pile, shift, b))?;
    }
    Ok(bands)
}

// One band.
fn band_of(pile: &[Label], shift: u32, b: u32) -> Band
    requires shift { shift < 32 }
    requires banded { IsBanded shift pile.now }
    requires small { All (λ label. unsigned_abs label.cost ≤ 3 * 2 ^ 60) pile.now }
    ensures { IsBand shift b pile.now result }
{
    let mut from = 0;
    let mut to = 0;
    let mut least = HIGHEST_COST;
    for label in pile {
        let at = label.load >> shift;
        if at > b {
            return Band { from, to, least };
        }
        if at < b {
            from += 1;
        }
        to += 1;
        least = least.min(label.cost);
    }
    Band { from, to, least }
}
