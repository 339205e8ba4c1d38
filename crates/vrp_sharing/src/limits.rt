//! The greatest numbers of drawers of a pile.

/// The greatest number of drawers of a pile: its owner and the thieves.
pub const MAX_DRAWERS: u32 = 64;

/// The greatest number of thieves of a pile.
pub const MAX_THIEVES: u32 = 63;
