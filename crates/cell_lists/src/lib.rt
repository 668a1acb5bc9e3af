//! Lists of numbers that share one array of cells. A list takes 12 bytes beside its cells, and none of these as long as it
//! never had two numbers. The caller keeps the array, and the segments that say where its lists lie.
//!
//!     let mut cells = Vec::new(alloc);
//!     let mut list = EMPTY;
//!     make_place(&mut cells, &mut list, 0)?;
//!     push(&mut cells, &mut list, 7);
//!     take_out(&mut cells, &mut list, 7);
//!
//! Writing one list leaves each that is apart from it as it was.
#![tactic(auto)]

mod segment;

pub use segment::{
    EMPTY, Segment, exchange, is_last, is_short, items, make_place, make_places, more_reserved,
    push, spare, take_at, take_out,
};
