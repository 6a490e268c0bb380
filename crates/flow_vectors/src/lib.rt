//! Worked examples of `markdown_flow`, each a test with the expected pieces.
//!
//! They show what no contract says. Their values were worked out by hand from CommonMark, GFM and
//! the spans of micromark; none comes from a run of this repository.
#![tactic(auto)]

#[cfg(test)]
mod constructs;
#[cfg(test)]
mod definitions;
#[cfg(test)]
mod pieces;
#[cfg(test)]
mod reading;
