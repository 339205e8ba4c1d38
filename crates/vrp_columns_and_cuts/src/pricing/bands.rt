//! Closed labels by place and band of loads, by rising cost: what meets a label is looked for only where it may be cheap and light enough.

use crate::pricing::label::{Label, NO_LABEL};
use crate::pricing::price_table::PriceTable;
use std::alloc::Global;
use vrp_duals::RowSet;
use vrp_model::NoMemory;

// The number of bands of a place.
const BANDS: usize = 24;

// Where a label belongs: keys are compared by band, then by cost.
#[derive(Clone, Copy, Debug, PartialEq, Eq, PartialOrd, Ord)]
struct BandKey {
    band: usize,
    cost: i64,
    number: u32,
}

// What is read of a label where it may meet another, with its number.
// Wider fields come first: so it takes 48 bytes.
#[derive(Clone, Copy, Debug)]
struct BandedLabel {
    rows: RowSet,
    cost: i64,
    number: u32,
    load: u16,
    mask: u8,
}

/// The labels by band.
#[derive(Drop)]
pub struct LabelBands {
    // The loads of a band.
    width: usize,
    // Where each band starts, by place and then by load.
    starts: Vec<usize>,
    labels: Vec<BandedLabel>,
}

/// What is to meet a label: a label of at most this load at a place that remembers none of these customers.
#[derive(Clone, Copy)]
pub struct Partner {
    pub place: u16,
    pub most_load: u16,
    pub mask: u8,
    pub rows: RowSet,
}

/// The cheapest partner so far: what it and the meeting cost, and its number. `NO_LABEL` if there is none, and then the cost is one that a
/// partner has to be below.
#[derive(Clone, Copy)]
pub struct BestPartner {
    pub cost: i64,
    pub number: u32,
}

impl LabelBands {
    /// The bands of these labels, whose loads are below `loads`.
    pub fn new(
        alloc: Global,
        labels: &[Label],
        places: u16,
        loads: u16,
    ) -> Result<LabelBands, NoMemory> {
        let width = usize::from(loads) / BANDS + 1;
        let keys = sorted_keys(alloc, labels, width)?;
        let mut bands = LabelBands {
            width,
            starts: Vec::new(alloc),
            labels: Vec::new(alloc),
        };
        for band in 0..usize::from(places) * BANDS + 1 {
            bands
                .starts
                .push(keys.partition_point(|key| key.band < band))?;
        }
        for key in &keys {
            if let Some(label) = labels.get(key.number as usize) {
                bands.labels.push(BandedLabel {
                    rows: label.rows,
                    cost: label.cost,
                    number: key.number,
                    load: label.load,
                    mask: label.mask,
                })?;
            }
        }
        Ok(bands)
    }

    /// The cheapest partner that costs less than this one.
    #[inline(always)]
    pub fn cheapest(
        &self,
        prices: &PriceTable<'_>,
        partner: &Partner,
        best: BestPartner,
    ) -> BestPartner {
        let first = usize::from(partner.place) * BANDS;
        let last = usize::from(partner.most_load) / self.width.max(1);
        let mut found = best;
        for band in first..first + last.min(BANDS - 1) + 1 {
            found = cheapest_in(self.band(band), prices, partner, found);
        }
        found
    }

    // The labels of a band.
    #[inline(always)]
    fn band(&self, band: usize) -> &[BandedLabel] {
        let from = self.starts.get(band).copied().unwrap_or(0);
        let to = self.starts.get(band.wrapping_add(1)).copied().unwrap_or(0);
        if from <= to && to <= self.labels.len() {
            &self.labels[from..to]
        } else {
            &self.labels[..0]
        }
    }
}

// The keys of labels, in order.
fn sorted_keys(alloc: Global, labels: &[Label], width: usize) -> Result<Vec<BandKey>, NoMemory> {
    let mut keys = Vec::new(alloc);
    for (index, label) in labels.iter().enumerate() {
        let of_load = usize::from(label.load) / width.max(1);
        keys.push(BandKey {
            band: of_load.wrapping_add(usize::from(label.at) * BANDS),
            cost: label.cost,
            number: u32::try_from(index).unwrap_or(NO_LABEL),
        })?;
    }
    keys.sort_unstable();
    Ok(keys)
}

// The cheapest partner among labels that come by rising cost.
#[inline(always)]
fn cheapest_in(
    labels: &[BandedLabel],
    prices: &PriceTable<'_>,
    partner: &Partner,
    best: BestPartner,
) -> BestPartner {
    let mut found = best;
    for label in labels {
        if label.cost >= found.cost {
            break;
        }
        if label.load <= partner.most_load && label.mask & partner.mask == 0 {
            let due = prices.due_at_meeting(partner.rows, label.rows);
            let cost = label.cost.wrapping_add(due);
            if cost < found.cost {
                found = BestPartner {
                    cost,
                    number: label.number,
                };
            }
        }
    }
    found
}
