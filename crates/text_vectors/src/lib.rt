//! Worked examples of `markdown_text`: documents, each a test with the expected events.
//!
//! They show what no contract says. Their values were worked out by hand from CommonMark, GFM and
//! the spans of micromark; none comes from a run of this repository.
#![tactic(auto)]

#[cfg(test)]
mod constructs;
#[cfg(test)]
mod inlines;
#[cfg(test)]
mod labels;
#[cfg(test)]
mod reading;
#[cfg(test)]
mod stretches;
