//! One run of a program that checks a tree.

ghost use Rattle.std.specs.Prelude.{◌≡◌, ◌≢◌, ◌≤◌, List, ℕ, [], IfOk, string_bytes};
ghost use Rattle.std.specs.Io.KnownBytes.{IsAtEnd, Appends};
ghost use Rattle.mdast_programs.specs.Programs.{memory_line};
ghost use Rattle.markdown_nodes.specs.declared.mdast.Node.{Node};
ghost use Rattle.mdast_check.specs.References.{open_in};
ghost use Rattle.mdast_check.specs.Report.{IsReport};
ghost use Rattle.mdast_programs.specs.Check.{IsChecked};
ghost use Rattle.mdast_programs.specs.Run.{IsRefusedWith, Means};
ghost use Rattle.mdast_programs.specs.declared.run.Answer.TheVariants as answers;
ghost use Rattle.markdown_nodes.specs.View.{view};

use crate::output::say;
use crate::program::OUT_OF_MEMORY;
use crate::run::{Answer, answer_to};
use markdown_nodes::mdast::Node;
use mdast_check::report::report_of;
use std::alloc::{AllocError, Global};
use std::io::{Read, Write};

/// Prints the headings and the open references of the tree of a document and the events in `input`,
/// or what is wrong. Returns the exit status.
///
/// The lines are `heading DEPTH TEXT` and `open KIND IDENTIFIER POSITION`, as in
/// [`report_of`](mdast_check::report::report_of); nothing is printed if there are none. The status
/// is 0 if no reference is open, and 4 if one is. The statuses 1 to 3, and the output for them, are
/// those of [`run`](crate::run::run).
pub fn run_check<I: Read, O: Write>(alloc: Global, doc: &[u8], input: &mut I, output: &mut O) -> u8
    ensures bound { result ≤ 4 }

    // Unless the status is 2 or 3, the events were read to their end.
    ensures end { result ≢ 2 → result ≢ 3 → IsAtEnd (I.remaining input.new) }

    // The events have a tree in which no reference is open, and its report is written.
    ensures closed { result ≡ 0 → (tree : Node) × Means (I.remaining input.old) doc.now tree
        × (open_in (view tree) ≡ [])
        × ((text : List ℕ) × IsReport (view tree) text × Appends (O.contents output.old) (O.contents output.new) text) }

    // The events have a tree in which a reference is open, and its report is written.
    ensures opens { result ≡ 4 → (tree : Node) × Means (I.remaining input.old) doc.now tree
        × (open_in (view tree) ≢ [])
        × ((text : List ℕ) × IsReport (view tree) text × Appends (O.contents output.old) (O.contents output.new) text) }

    // The events have no tree, and a message of the compiler is written.
    ensures refused { result ≡ 1
        → IsRefusedWith (I.remaining input.old) doc.now (Appends (O.contents output.old) (O.contents output.new)) }

    // The line says that memory ran out, and nothing else is written.
    ensures memory { result ≡ 3 → Appends (O.contents output.old) (O.contents output.new) memory_line }
{
    let Ok(answer) = answer_to(alloc, doc, input) else {
        return say(output, OUT_OF_MEMORY, 3);
    };
    match checked(alloc, &answer) {
        Ok(said) => say(output, said.text.as_str(), said.status),
        Err(_) => say(output, OUT_OF_MEMORY, 3),
    }
}

/// What is printed, and the exit status.
#[derive(Drop)]
struct Said {
    text: String,
    status: u8,
}

/// Returns what a checking run prints for an answer, and its exit status.
fn checked(alloc: Global, answer: &Answer) -> Result<Said, AllocError>
    ensures { IfOk result (λ said. IsChecked answer.now (string_bytes said.text) said.status) }
{
    if let Answer::Tree(tree) = answer {
        return checked_tree(alloc, tree);
    }
    // Without a tree the line says nothing about the document.
    let text = answer.line(alloc)?;
    let status = answer.status();
    Ok(Said { text, status })
}

/// Returns the report of a tree, and its exit status.
fn checked_tree(alloc: Global, tree: &Node) -> Result<Said, AllocError>
    ensures { IfOk result (λ said. IsChecked (answers.Tree tree.now) (string_bytes said.text) said.status) }
{
    let report = report_of(alloc, tree)?;
    let status = if report.is_open { 4 } else { 0 };
    Ok(Said {
        text: report.text,
        status,
    })
}
