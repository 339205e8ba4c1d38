//! A plan drawn over the coordinates of its places, as SVG 1.1.
ghost use Rattle.std.specs.Prelude.{None};
ghost use Rattle.std.specs.Option.{ForSome, option_map};
ghost use Rattle.vrp_model.specs.Route.{IsPlanOf};

use crate::writing::drawing::{Mark, Track, caption, marks, tracks};
use crate::writing::frame::{Frame, MARGIN};
use crate::writing::layout::{CAPTION_LETTERS, LIST_LETTERS, PageLayout, SAMPLE, SPACE};
use crate::writing::points::{Point, Points};
use crate::writing::style::{Sizes, color};
use std::alloc::Global;
use std::fmt;
use vrp_answer::Finding;
use vrp_model::{Instance, NoMemory};

// The greatest number of customers whose nodes are written beside them.
const MOST_LABELS: usize = 150;

// The greatest number of routes that are listed. With more, the arcs to and from the depot are drawn thin and pale.
const MOST_LISTED: usize = 24;

/// The plan as an SVG picture: the routes over the points of their places, each with its own colour and dashes, which differ
/// in grey too; the depot as a square; the nodes' numbers and the list of the routes if there are few; and below these the
/// cost and the verdict. If there are many routes, their arcs to and from the depot are thin and pale. Without a plan only
/// the places are drawn.
///
/// The contract leaves the text open.
pub fn picture_text(
    alloc: Global,
    instance: &Instance,
    finding: &Finding<'_>,
    points: &Points,
) -> Result<String, NoMemory>
    requires { ForSome (option_map (λ plan. plan.now) finding.now.plan)
        (IsPlanOf instance.now) }
{
    // What is known of every instance.
    let _customers = instance.customers();
    let frame = Frame::around(points.by_place());
    let tracks = match finding.plan {
        Some(plan) => tracks(alloc, instance, plan, points, frame)?,
        None => Vec::new(alloc),
    };
    let caption = caption(alloc, finding)?;
    let picture = Picture {
        layout: layout(frame, &tracks, caption.as_str()),
        sizes: Sizes::of(instance.customers()),
        tracks,
        marks: marks(alloc, instance, points, frame)?,
        caption,
    };
    Ok(picture.to_string(alloc)?)
}

// The layout of a page with these routes.
fn layout(frame: Frame, tracks: &[Track], caption: &str) -> PageLayout {
    let listed = listed(tracks);
    PageLayout::around(frame, listed.len(), longest(listed), caption.len())
}

// The routes that are listed: all of them, or none if there are many.
fn listed(tracks: &[Track]) -> &[Track] {
    if tracks.len() <= MOST_LISTED {
        tracks
    } else {
        &[]
    }
}

// The number of letters of the longest text in the list.
fn longest(tracks: &[Track]) -> usize {
    let mut longest = 0;
    for track in tracks {
        longest = longest.max(track.told.len());
    }
    longest.saturating_add("#24: ".len())
}

// The contents of the picture.
#[derive(Drop)]
struct Picture {
    layout: PageLayout,
    sizes: Sizes,
    tracks: Vec<Track>,
    marks: Vec<Mark>,
    caption: String,
}

impl fmt::Display for Picture {
    ghost output = { λ _. None };

    fn fmt<W: fmt::Write>(&self, f: &mut fmt::Formatter<W>) -> fmt::Result {
        self.write_heading(f)?;
        if self.has_pale_legs() {
            self.write_legs(f)?;
            self.write_inner_tracks(f)?;
        } else {
            self.write_tracks(f)?;
        }
        if self.has_labels() {
            self.write_labels(f)?;
        }
        self.write_marks(f)?;
        if self.has_list() {
            self.write_list(f)?;
        }
        self.write_caption(f)
    }
}

impl Picture {
    // Whether there is room for the nodes' numbers.
    fn has_labels(&self) -> bool {
        self.marks.len() <= MOST_LABELS + 1
    }

    // Whether there are so many routes that their arcs to and from the depot would hide the others.
    fn has_pale_legs(&self) -> bool {
        self.tracks.len() > MOST_LISTED
    }

    // Whether there is a list of the routes.
    fn has_list(&self) -> bool {
        !listed(&self.tracks).is_empty()
    }

    // The size of the page, its title and its ground.
    fn write_heading<W: fmt::Write>(&self, f: &mut fmt::Formatter<W>) -> fmt::Result {
        let PageLayout { width, height, .. } = self.layout;
        writeln!(
            f,
            "<svg xmlns=\"http://www.w3.org/2000/svg\" viewBox=\"0 0 {width} {height}\" width=\"{}\" height=\"{}\" font-family=\"sans-serif\">",
            width / 10,
            height / 10
        )?;
        writeln!(f, "<title>{}</title>", self.caption.as_str())?;
        writeln!(
            f,
            "<rect width=\"{width}\" height=\"{height}\" fill=\"#ffffff\"/>"
        )
    }

    // The routes, each from the depot and back to it.
    fn write_tracks<W: fmt::Write>(&self, f: &mut fmt::Formatter<W>) -> fmt::Result {
        self.write_pens(f)?;
        for (index, track) in self.tracks.iter().enumerate() {
            write_pen(f, index, self.sizes)?;
            write_corners(f, &track.corners)?;
            write!(f, "Z")?;
            write_title(f, index, track)?;
        }
        writeln!(f, "</g>")
    }

    // The routes, each from its first customer to its last.
    fn write_inner_tracks<W: fmt::Write>(&self, f: &mut fmt::Formatter<W>) -> fmt::Result {
        self.write_pens(f)?;
        for (index, track) in self.tracks.iter().enumerate() {
            write_pen(f, index, self.sizes)?;
            write_corners(f, track.stops())?;
            write_title(f, index, track)?;
        }
        writeln!(f, "</g>")
    }

    // The heading of the routes.
    fn write_pens<W: fmt::Write>(&self, f: &mut fmt::Formatter<W>) -> fmt::Result {
        writeln!(
            f,
            "<g fill=\"none\" stroke-width=\"{}\" stroke-linejoin=\"round\">",
            self.sizes.line
        )
    }

    // The arcs to and from the depot, thin and pale.
    fn write_legs<W: fmt::Write>(&self, f: &mut fmt::Formatter<W>) -> fmt::Result {
        writeln!(
            f,
            "<g fill=\"none\" stroke-width=\"8\" stroke-opacity=\"0.4\">"
        )?;
        for (index, track) in self.tracks.iter().enumerate() {
            if let Some(legs) = track.legs() {
                write!(f, "<path stroke=\"{}\" d=\"", color(index))?;
                write_corners(f, &legs)?;
                writeln!(f, "\"/>")?;
            }
        }
        writeln!(f, "</g>")
    }

    // The customers as dots, and the depot as a square.
    fn write_marks<W: fmt::Write>(&self, f: &mut fmt::Formatter<W>) -> fmt::Result {
        for (place, mark) in self.marks.iter().enumerate() {
            if place == 0 {
                write_depot(f, mark, self.sizes.depot)?;
            } else {
                write_customer(f, mark, self.sizes.dot)?;
            }
        }
        Ok(())
    }

    // The nodes' numbers, each above its mark to the right.
    fn write_labels<W: fmt::Write>(&self, f: &mut fmt::Formatter<W>) -> fmt::Result {
        writeln!(
            f,
            "<g font-size=\"{}\" stroke=\"#ffffff\" stroke-width=\"40\" paint-order=\"stroke\">",
            self.sizes.letters
        )?;
        for (place, mark) in self.marks.iter().enumerate() {
            let mark_size = if place == 0 {
                self.sizes.depot
            } else {
                self.sizes.dot
            };
            let away = mark_size.saturating_add(20);
            let x = mark.at.x.saturating_add(away);
            let y = mark.at.y.saturating_sub(away);
            writeln!(f, "<text x=\"{x}\" y=\"{y}\">{}</text>", mark.node)?;
        }
        writeln!(f, "</g>")
    }

    // The list of the routes, each behind its sample line.
    fn write_list<W: fmt::Write>(&self, f: &mut fmt::Formatter<W>) -> fmt::Result {
        writeln!(
            f,
            "<g font-size=\"{LIST_LETTERS}\" stroke-width=\"{}\">",
            self.sizes.line
        )?;
        for (index, track) in self.tracks.iter().enumerate() {
            let Point { x, y } = self.layout.listed(index);
            write_pen(f, index, self.sizes)?;
            writeln!(f, "M{x} {y}h{SAMPLE}\"/>")?;
            let x = x.saturating_add(SAMPLE + SPACE);
            let y = y.saturating_add(70);
            let number = index.saturating_add(1);
            writeln!(
                f,
                "<text x=\"{x}\" y=\"{y}\">#{number}: {}</text>",
                track.told.as_str()
            )?;
        }
        writeln!(f, "</g>")
    }

    // The caption at the bottom.
    fn write_caption<W: fmt::Write>(&self, f: &mut fmt::Formatter<W>) -> fmt::Result {
        let Point { x, y } = self.layout.caption();
        writeln!(
            f,
            "<text x=\"{x}\" y=\"{y}\" font-size=\"{CAPTION_LETTERS}\">{}</text>\n</svg>",
            self.caption.as_str()
        )
    }
}

// A square with the depot's data.
fn write_depot<W: fmt::Write>(f: &mut fmt::Formatter<W>, mark: &Mark, half: i64) -> fmt::Result {
    let x = mark.at.x.saturating_sub(half);
    let y = mark.at.y.saturating_sub(half);
    let side = half.saturating_mul(2);
    writeln!(
        f,
        "<rect x=\"{x}\" y=\"{y}\" width=\"{side}\" height=\"{side}\"><title>depot, node {}</title></rect>",
        mark.node
    )
}

// A dot with a customer's data.
fn write_customer<W: fmt::Write>(
    f: &mut fmt::Formatter<W>,
    mark: &Mark,
    radius: i64,
) -> fmt::Result {
    writeln!(
        f,
        "<circle cx=\"{}\" cy=\"{}\" r=\"{radius}\"><title>node {}, demand {}</title></circle>",
        mark.at.x, mark.at.y, mark.node, mark.demand
    )
}

// The beginning of a path with the colour and dashes of this route.
fn write_pen<W: fmt::Write>(f: &mut fmt::Formatter<W>, index: usize, sizes: Sizes) -> fmt::Result {
    write!(
        f,
        "<path stroke=\"{}\" stroke-dasharray=\"{}\" d=\"",
        color(index),
        sizes.dashes(index)
    )
}

// The path through these corners.
fn write_corners<W: fmt::Write>(f: &mut fmt::Formatter<W>, corners: &[Point]) -> fmt::Result {
    for (index, corner) in corners.iter().enumerate() {
        let step = if index == 0 { 'M' } else { 'L' };
        write!(f, "{step}{} {}", corner.x, corner.y)?;
    }
    Ok(())
}

// The end of a path with the data of this route.
fn write_title<W: fmt::Write>(
    f: &mut fmt::Formatter<W>,
    index: usize,
    track: &Track,
) -> fmt::Result {
    let number = index.saturating_add(1);
    writeln!(
        f,
        "\"><title>Route #{number}: {}</title></path>",
        track.told.as_str()
    )
}
