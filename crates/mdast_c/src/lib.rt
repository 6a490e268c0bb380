//! The C interface: the functions that C, and languages that call C, link against.
#![tactic(auto)]

ghost use Rattle.mdast_programs.specs.Outcomes.{IsOutcome};
ghost use Rattle.mdast_programs.specs.Parsed.{IsParsed};

use mdast_programs::outcomes::parsed::parsed;
use mdast_programs::outcomes::{Outcome, outcome_of};
use std::alloc::Global;

/// Parses a document for a caller in C, or in a language that calls C, and returns a form of its
/// tree.
///
/// The outcome is set to the result of [`parsed`] for the same arguments. See there for the
/// statuses, and for what the outcome says with each. Every field of the outcome is set, whatever
/// it was before. The form is ours.
///
/// For `# Hi`, the constructs `1 << 18`, which are only headings with number signs, and the form 2,
/// the outline, the status is 0, and `text` is `Hi (1:1)` and a line feed.
#[unsafe(no_mangle)]
pub extern "C" fn mdast_parse(
    alloc: Global,
    document: &[u8],
    constructs: u32,
    form: u32,
    outcome: &mut Outcome,
)
    ensures { IsParsed outcome.new document.now constructs form }
{
    *outcome = parsed(alloc, document, constructs, form);
}

/// Parses a document for a caller in C, or in a language that calls C, and returns HTML that is
/// safe in a page, without the HTML of the document.
///
/// It is [`mdast_parse`] with the form 4. The form is ours.
///
/// For `# Hi`, the constructs `1 << 18`, which are only headings with number signs, the status is
/// 0, and `text` is `<h1>Hi</h1>` and a line feed.
#[unsafe(no_mangle)]
pub extern "C" fn mdast_html(alloc: Global, document: &[u8], constructs: u32, outcome: &mut Outcome)
    ensures { IsParsed outcome.new document.now constructs 4 }
{
    *outcome = parsed(alloc, document, constructs, 4);
}

/// Compiles the tree of a document for a caller in C, or in a language that calls C.
///
/// The outcome is set to the result of [`outcome_of`] for the same arguments. See there for the
/// statuses, and for what the outcome says with each. Every field of the outcome is set, whatever
/// it was before. The form is ours.
///
/// For `Hi` and the events of a paragraph with one data span the status is 0, and `text` is a root
/// with a paragraph with a text.
#[unsafe(no_mangle)]
pub extern "C" fn mdast_compile(
    alloc: Global,
    document: &[u8],
    event_lines: &[u8],
    references: &[u8],
    outcome: &mut Outcome,
)
    ensures { IsOutcome outcome.new document.now event_lines.now references.now }
{
    *outcome = outcome_of(alloc, document, event_lines, references);
}
