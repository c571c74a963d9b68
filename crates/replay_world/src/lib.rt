//! The world of a replay: its nodes, wire and records, and one answer for each event of a script.
#![tactic(auto)]

mod answering;
mod faults;
mod handing_in;
mod handshaking;
mod passing;
mod reading;
mod reporting;
mod sites;
mod traffic;
mod wire;
mod world;

pub use answering::step;
pub use world::{Site, SiteList, World, load_world, new_world};
