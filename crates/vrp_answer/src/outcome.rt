//! The workers' results for the pieces.
use vrp_model::Plan;
use vrp_search_tree::Piece;
use vrp_sharing::Owner;

/// A finished piece: each word under it costs more than the floor, or is not before `last_offer`, the last plan that its
/// search offered, if any.
#[derive(Debug, Drop)]
pub struct Finished {
    /// The piece's position in its cutting.
    pub number: u32,
    /// A cost known when the search ended: no word under the piece costs less.
    pub floor: u64,
    /// The last plan that the search offered; it is before all its other offers.
    pub last_offer: Option<Plan>,
}

/// A piece whose tree has more partial plans than were looked at. Public for the crates of vrp_solver alone.
#[derive(Debug, Drop)]
pub struct OpenPiece {
    pub piece: Piece,
    /// No plan under the piece costs less, by tables over all customers.
    pub low: u64,
}

/// How the search of a piece ended. Public for the crates of vrp_solver alone.
#[derive(Debug, Drop)]
pub enum PieceOutcome {
    /// The piece is finished.
    Finished(Finished),
    /// The piece is unfinished.
    Unfinished(OpenPiece),
}

/// All pieces were searched. Public for the crates of vrp_solver alone.
#[derive(Drop)]
pub struct Searched {
    /// The empty pile.
    pub pile: Owner,
    /// The outcome of each piece, in drawing order.
    pub outcomes: Vec<PieceOutcome>,
    /// A plan that costs no more than any worker's offer, if there is one.
    pub best: Option<Plan>,
}
