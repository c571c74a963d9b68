//! The holes of a block: where each stands, and the block with its holes filled (PRINS, TS 33.501 clause 13.2).
#![tactic(auto)]

mod filling;
mod holes;
mod line;
mod marked;
mod settle;
mod site;
mod spelling;
mod walk;

pub use filling::{FillFault, fill};
pub use holes::{Holes, HolesFault, Place, places};
pub use marked::{goes_beneath_hole, holds_hole};
pub use spelling::has_hole_spelling;
