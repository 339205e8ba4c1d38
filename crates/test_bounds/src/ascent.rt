//! Tests of the search for prices by values from outside.

mod fine;
mod found;
mod many;
mod remembered;
