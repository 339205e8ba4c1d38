//! The coordinates of a file's places, for drawing.
ghost use Rattle.std.specs.Prelude.{◌≡◌, OnOk};
ghost use Rattle.vrp_text.specs.Inner.LinesLeft.{parts_left};

use std::alloc::Global;
use vrp_model::{Instance, MAX_COORDINATE, MAX_NODES, NoMemory};
use vrp_text::{DataLine, Key, Keyword, Lines, MAX_BYTES, Tokens, number};

/// A point of the plane. The y axis points up.
#[derive(Clone, Copy, Debug, PartialEq, Eq, Drop)]
pub(crate) struct Point {
    pub(crate) x: i64,
    pub(crate) y: i64,
}

/// A point for each place of an instance.
#[derive(Debug, Drop)]
pub struct Points {
    by_place: Vec<Point>,
}

impl Points {
    /// The points of the places, from the first section of a file that has whole coordinates for each of them:
    /// `NODE_COORD_SECTION` or `DISPLAY_DATA_SECTION` (TSPLIB 95, section 1.2). None if no section has.
    ///
    /// The contract leaves the points open.
    pub fn read(
        alloc: Global,
        bytes: &[u8],
        instance: &Instance,
    ) -> Result<Option<Points>, NoMemory> {
        if bytes.len() > MAX_BYTES {
            return Ok(None);
        }
        let mut lines = Lines::of(bytes);
        while let Some(heading) = lines.next_heading() {
            if has_coordinates(heading.keyword) {
                let points = read_section(alloc, &mut lines, instance)?;
                if points.is_some() {
                    return Ok(points);
                }
            }
        }
        Ok(None)
    }

    /// The points, place by place.
    pub(crate) fn by_place(&self) -> &[Point] {
        &self.by_place
    }
}

// Whether a keyword is followed by coordinates.
fn has_coordinates(keyword: Option<Keyword>) -> bool {
    matches!(
        keyword,
        Some(Keyword::Key(Key::NodeCoord)) | Some(Keyword::Display)
    )
}

// The points of a section, if it has whole coordinates for each place.
fn read_section(
    alloc: Global,
    lines: &mut Lines<'_>,
    instance: &Instance,
) -> Result<Option<Points>, NoMemory>
    ensures { OnOk result (parts_left lines.new ≡ parts_left lines.old) }
{
    let mut numbers = Vec::new(alloc);
    while let Some(line) = lines.next_data() {
        if !push_numbers(&mut numbers, line)? {
            return Ok(None);
        }
    }
    let by_node = points_by_node(alloc, &numbers)?;
    points_of(alloc, instance, &by_node)
}

// Appends the numbers of a line. Answers whether all its tokens are whole numbers within the range of a coordinate.
fn push_numbers(numbers: &mut Vec<i64>, line: DataLine<'_>) -> Result<bool, NoMemory> {
    let mut tokens = Tokens::of(line.text);
    while let Some(token) = tokens.next() {
        let Ok(number) = number(token, -MAX_COORDINATE, MAX_COORDINATE) else {
            return Ok(false);
        };
        numbers.push(number)?;
    }
    Ok(true)
}

// The points indexed by node, from rows of a node and two coordinates.
fn points_by_node(alloc: Global, numbers: &[i64]) -> Result<Vec<Option<Point>>, NoMemory> {
    let mut by_node = vec![in alloc; None; usize::from(MAX_NODES) + 1]?;
    for row in numbers.chunks_exact(3) {
        let [node, x, y] = *row else {
            continue;
        };
        if let Some(slot) = usize::try_from(node)
            .ok()
            .and_then(|node| by_node.get_mut(node))
        {
            *slot = Some(Point { x, y });
        }
    }
    Ok(by_node)
}

// The points of the places, if each has one.
fn points_of(
    alloc: Global,
    instance: &Instance,
    by_node: &[Option<Point>],
) -> Result<Option<Points>, NoMemory> {
    let mut by_place = Vec::with_capacity(alloc, usize::from(instance.customers()) + 1)?;
    for place in 0..instance.customers() + 1 {
        let node = usize::from(instance.node(place));
        let Some(Some(point)) = by_node.get(node) else {
            return Ok(None);
        };
        by_place.push(*point)?;
    }
    Ok(Some(Points { by_place }))
}
