//! Which spans may begin, end and occur at each point, by the grammar. No tree is made.
//!
//! [`open_spans::OpenSpans`] are the spans that are open. They keep of the items what acceptance
//! depends on, and accept a span exactly if a stated test is true. The steps of a compilation take
//! what they accept, and no accepted list of events continues with what they refuse ([`laws`]).
#![tactic(auto)]

pub mod content_model;
pub mod error;
pub mod laws;
pub mod open_spans;
pub mod part_set;
pub mod site;
