//! A plan laid out on a page: its routes, its places and the caption.
ghost use Rattle.vrp_plan_text.specs.Stops.{ArePlaces, HaveStopsIn};

use crate::writing::frame::Frame;
use crate::writing::points::{Point, Points};
use std::alloc::{AllocError, Global};
use vrp_answer::Finding;
use vrp_model::{Instance, Plan, route_cost, route_load};

/// A route on the page.
#[derive(Drop)]
pub(crate) struct Track {
    /// The depot first.
    pub(crate) corners: Vec<Point>,
    /// Its load and its cost, as text.
    pub(crate) told: String,
}

impl Track {
    /// The corners of its customers.
    pub(crate) fn stops(&self) -> &[Point] {
        match self.corners.as_slice() {
            [_, stops @ ..] => stops,
            [] => &[],
        }
    }

    /// The corners of its arcs to and from the depot: its first customer, the depot and its last customer.
    pub(crate) fn legs(&self) -> Option<[Point; 3]> {
        match self.corners.as_slice() {
            [depot, only] => Some([*only, *depot, *only]),
            [depot, first, .., last] => Some([*first, *depot, *last]),
            _ => None,
        }
    }
}

/// A place on the page.
#[derive(Clone, Copy, Drop)]
pub(crate) struct Mark {
    pub(crate) node: u16,
    pub(crate) demand: u64,
    pub(crate) at: Point,
}

/// The routes of a plan on the page.
pub(crate) fn tracks(
    alloc: Global,
    instance: &Instance,
    plan: &Plan,
    points: &Points,
    frame: Frame,
) -> Result<Vec<Track>, AllocError>
    requires { HaveStopsIn instance.now plan.now.routes }
{
    let mut tracks = Vec::new(alloc);
    for index in 0..plan.routes() {
        let stops = plan.route(index);
        tracks.push(Track {
            corners: corners(alloc, stops, points.by_place(), frame)?,
            told: told(alloc, instance, stops)?,
        })?;
    }
    Ok(tracks)
}

// The load and the cost of a route, as text.
fn told(alloc: Global, instance: &Instance, stops: &[u16]) -> Result<String, AllocError>
    requires { ArePlaces instance.now stops.now }
{
    // There is a depot.
    let _customers = instance.customers();
    let load = route_load(instance, stops);
    let capacity = instance.capacity();
    let cost = route_cost(instance, stops);
    format!(in alloc; "load {load} of {capacity}, cost {cost}")
}

// The depot and the stops of a route on the page.
fn corners(
    alloc: Global,
    stops: &[u16],
    by_place: &[Point],
    frame: Frame,
) -> Result<Vec<Point>, AllocError> {
    let mut corners = Vec::new(alloc);
    for place in [0].iter().chain(stops) {
        if let Some(point) = by_place.get(usize::from(*place)) {
            corners.push(frame.on_page(*point))?;
        }
    }
    Ok(corners)
}

/// All places on the page, the depot first.
pub(crate) fn marks(
    alloc: Global,
    instance: &Instance,
    points: &Points,
    frame: Frame,
) -> Result<Vec<Mark>, AllocError> {
    let mut marks = Vec::new(alloc);
    for place in 0..instance.customers() + 1 {
        if let Some(point) = points.by_place().get(usize::from(place)) {
            marks.push(Mark {
                node: instance.node(place),
                demand: instance.demand(place),
                at: frame.on_page(*point),
            })?;
        }
    }
    Ok(marks)
}

/// The caption below the map: the cost and the verdict.
pub(crate) fn caption(alloc: Global, finding: &Finding<'_>) -> Result<String, AllocError> {
    let verdict = finding.status;
    let Some(plan) = finding.plan else {
        return format!(in alloc; "{verdict}");
    };
    let cost = plan.cost();
    match finding.lower_bound {
        Some(bound) if bound < cost => format!(in alloc;
            "Cost {cost}, lower bound {bound}, {verdict}"
        ),
        _ => format!(in alloc; "Cost {cost}, {verdict}"),
    }
}
