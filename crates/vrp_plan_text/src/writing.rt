//! Findings in the formats of other programs: JSON, with the name and the gap that go with it, and a picture in SVG: the plan's routes,
//! drawn over the places of its instance.

mod drawing;
mod frame;
mod gap;
mod json;
mod layout;
mod name;
mod picture;
mod points;
mod style;

pub use json::{Context, Settings, json_text};
pub use name::name_of;
pub use picture::picture_text;
pub use points::Points;
