//! The open containers: which items an open span accepts, what it takes at the exit of each span in
//! it, and the node at its own exit.
#![tactic(auto)]

pub mod container;
pub mod open_container;
