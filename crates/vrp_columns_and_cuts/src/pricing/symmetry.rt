//! Whether a route costs the same either way under prices.
ghost use Rattle.std.specs.Prelude.{◌<◌};

use vrp_duals::FoldedDuals;
use vrp_model::CustomerSet;

/// Whether each route costs as much backward as forward, and may be run backward if it may be run forward. So it is where the two prices of
/// each arc differ by the difference of two numbers, one for each place. No clause pins the answer.
pub fn is_symmetric(duals: &FoldedDuals, followers: &[CustomerSet]) -> bool {
    for from in 0..duals.places() {
        if !is_row_symmetric(duals, followers, from) {
            return false;
        }
    }
    true
}

// Whether it is so for the arcs between a place and those below.
fn is_row_symmetric(duals: &FoldedDuals, followers: &[CustomerSet], from: u16) -> bool
    requires { from < duals.now.places }
{
    let own = turned(duals, 0, from);
    for to in 0..from {
        if turned(duals, to, from) != own.wrapping_sub(turned(duals, 0, to)) {
            return false;
        }
        if follows(followers, from, to) != follows(followers, to, from) {
            return false;
        }
    }
    true
}

// What an arc costs more than the reverse one.
fn turned(duals: &FoldedDuals, from: u16, to: u16) -> i64
    requires from { from < duals.now.places }
    requires to { to < duals.now.places }
{
    duals
        .arc_price(from, to)
        .wrapping_sub(duals.arc_price(to, from))
}

/// Whether a place may come next after another. Places above 255 never do.
pub fn follows(followers: &[CustomerSet], from: u16, to: u16) -> bool {
    match followers.get(usize::from(from)) {
        Some(next) => to < 256 && next.contains(to),
        None => false,
    }
}
