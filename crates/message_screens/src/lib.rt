//! Screens: rules on the messages that a SEPP hands on, by the network of the peer (after the anti-spoofing of
//! TS 33.501 clause 13.2.4.8).
#![tactic(auto)]

mod rules;
mod screen;
mod uses;

pub use rules::{MethodRule, OriginRule, ScreenRule};
pub use screen::Screen;
pub use uses::{screened_by_method, screened_by_origin};
