//! Tests of the HTML of documents and of trees made by hand. The pages are worked out by hand,
//! after the rules of mdast-util-to-hast and the lines of CommonMark's examples.
#![tactic(auto)]

#[cfg(test)]
mod documents;
#[cfg(test)]
mod expect;
#[cfg(test)]
mod footnotes;
#[cfg(test)]
mod limits;
#[cfg(test)]
mod random;
#[cfg(test)]
mod safety;
#[cfg(test)]
mod tags;
#[cfg(test)]
mod trees;
