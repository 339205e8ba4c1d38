//! The routes of the linear program's columns, by the names that the program has for them.
use std::alloc::{AllocError, Global};

// The stops of a route in the list of all.
#[derive(Clone, Copy, Debug)]
struct Span {
    start: usize,
    end: usize,
}

/// Routes, numbered from 0: their stops, one route behind the other.
#[derive(Clone, Debug, Drop)]
pub(crate) struct Columns {
    stops: Vec<u16>,
    spans: Vec<Span>,
}

impl Columns {
    /// No routes.
    pub(crate) fn new(alloc: Global) -> Columns {
        Columns {
            stops: Vec::new(alloc),
            spans: Vec::new(alloc),
        }
    }

    /// Adds a route. Its name, or none if there are too many.
    pub(crate) fn push(&mut self, stops: &[u16]) -> Result<Option<u32>, AllocError> {
        let Ok(name) = u32::try_from(self.spans.len()) else {
            return Ok(None);
        };
        let start = self.stops.len();
        self.stops.extend_from_slice(stops)?;
        let end = self.stops.len();
        self.spans.push(Span { start, end })?;
        Ok(Some(name))
    }

    /// The stops of a route; none for an unknown name.
    pub(crate) fn stops(&self, name: u32) -> &[u16] {
        match self.spans.get(name as usize) {
            Some(span) => self.stops.get(span.start..span.end).unwrap_or(&[]),
            None => &[],
        }
    }
}
