//! Lists of distinct names in order, in which a name's number is found in constant time, and values under such names.
//!
//! `Names` is seen as the plain list of the names' bytes. A name's number is its place in the list, counted from 0.
//! Names are added at the end, so a number changes only when a name before it is removed. `Named` is seen as such a
//! list with a value at each place.
#![tactic(auto)]

mod named;
mod names;

pub use named::Named;
pub use names::Names;
