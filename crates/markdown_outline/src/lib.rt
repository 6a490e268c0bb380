//! What the outline of a document needs of its events, with the laws that say so.
#![tactic(auto)]

pub mod heading_filter;
pub mod laws;
