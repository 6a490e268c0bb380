//! One run of the program.

ghost use Rattle.std.specs.Prelude.{◌≡◌, ◌≤◌, List, ℕ, IfOk, IfSome, IsSome, string_bytes};
ghost use Rattle.std.specs.Io.KnownBytes.{IsAtEnd, Appends};
ghost use Rattle.mdast_programs.specs.Programs.{memory_line};
ghost use Rattle.markdown_nodes.specs.declared.mdast.Node.{Node};
ghost use Rattle.mdast_programs.specs.Run;
ghost use Rattle.mdast_programs.specs.Run.{IsAnswer, IsCompiled, IsLineOf, IsRefusedWith, Means, Prints, status_of};
ghost use Rattle.mdast_programs.specs.declared.run.Answer.TheVariants as answers;
ghost use Rattle.markdown_nodes.specs.View.{view};

use crate::input::{ReadError, read_all};
use crate::output::say;
use crate::program::{OUT_OF_MEMORY, UNREADABLE_EVENTS};
use character_references::decoder::Decoder;
use event_lines::lines::{LinesError, events};
use markdown_nodes::event::Event;
use markdown_nodes::mdast::Node;
use markdown_nodes::message::{Fault, Message};
use markdown_tree::to_mdast::compile;
use std::alloc::{AllocError, Global};
use std::io::{Read, Write};
use std::mem;

/// The result of a run, if memory does not run out.
#[derive(Debug, Drop)]
pub enum Answer {
    /// The tree that the events stand for.
    Tree(Node),
    /// Why the events stand for no tree.
    Refused(Message),
    /// This line of the events, counted from 1, cannot be read.
    UnreadLine(usize),
    /// The events cannot be read: a read failed, or none of the reads of
    /// [`read_all`](crate::input::read_all) reached the end.
    UnreadEvents,
}

impl Answer {
    /// Returns the exit status of the program.
    pub fn status(&self) -> u8
        ensures { result ≡ status_of self.now }
    {
        match self {
            Answer::Tree(_) => 0,
            Answer::Refused(_) => 1,
            Answer::UnreadLine(_) | Answer::UnreadEvents => 2,
        }
    }

    /// Returns what the program prints.
    pub fn line(&self, alloc: Global) -> Result<String, AllocError>
        ensures { IfOk result (λ line. Prints self.now (string_bytes line)) }
    {
        match self {
            Answer::Tree(tree) => tree_line(alloc, tree),
            Answer::Refused(message) => message_line(alloc, message),
            Answer::UnreadLine(number) => unread_line(alloc, *number),
            Answer::UnreadEvents => String::from_str(alloc, UNREADABLE_EVENTS),
        }
    }
}

/// The outcome of a run.
#[derive(Debug, Drop)]
pub struct RunOutcome {
    /// The exit status.
    pub status: u8,
    /// The answer, if memory did not run out before there was one.
    pub answer: Option<Answer>,
}

impl RunOutcome {
    /// Returns the exit status, and forgets the answer: the tree is not freed node by node.
    ///
    /// It is for the last step of a program, whose memory ends with it. In `main`,
    /// `run_whole(..).forget()` is 0 if a tree was printed.
    pub fn forget(self) -> u8
        ensures { result ≡ self.status }
    {
        let status = self.status;
        mem::forget(self);
        status
    }
}

/// Prints the tree of a document and the events in `input`, or what is wrong. Returns the exit
/// status.
///
/// The status is 0 for a tree, 1 if the events are refused, 2 if they cannot be read or the line
/// cannot be written, and 3 if memory ran out. The contract describes the bytes of `input` and
/// `output` only where their types name them, as a slice and a `Vec` do.
///
/// Over the document `Hi` and the four event lines of a paragraph with one data span it prints the
/// line of a root with a paragraph with a text, and returns 0.
pub fn run<I: Read, O: Write>(alloc: Global, doc: &[u8], input: &mut I, output: &mut O) -> u8
    ensures bound { result ≤ 3 }

    // The events were read to their end.
    ensures end { result ≤ 1 → IsAtEnd (I.remaining input.new) }

    // The events have a tree, and its line is written.
    ensures tree { result ≡ 0 → (tree : Node) × Means (I.remaining input.old) doc.now tree
        × ((line : List ℕ) × IsLineOf (view tree) line
        × Appends (O.contents output.old) (O.contents output.new) line) }

    // The events have no tree, and a message of the compiler is written.
    ensures refused { result ≡ 1
        → IsRefusedWith (I.remaining input.old) doc.now (Appends (O.contents output.old) (O.contents output.new)) }

    // The line says that memory ran out, and nothing else is written.
    ensures memory { result ≡ 3 → Appends (O.contents output.old) (O.contents output.new) memory_line }
{
    run_whole(alloc, doc, input, output).status
}

/// Does what [`run`] does, and also returns the answer.
///
/// A library drops the outcome, and with it the tree. A program that ends here may
/// [`forget`](RunOutcome::forget) it.
///
/// Over the document `Hi` and the four event lines of a paragraph with one data span the status is
/// 0, and the answer a root.
pub fn run_whole<I: Read, O: Write>(
    alloc: Global,
    doc: &[u8],
    input: &mut I,
    output: &mut O,
) -> RunOutcome
    ensures bound { result.status ≤ 3 }
    ensures end { result.status ≤ 1 → IsAtEnd (I.remaining input.new) }
    ensures tree { result.status ≡ 0 → (tree : Node) × Means (I.remaining input.old) doc.now tree
        × ((line : List ℕ) × IsLineOf (view tree) line
        × Appends (O.contents output.old) (O.contents output.new) line) }
    ensures refused { result.status ≡ 1
        → IsRefusedWith (I.remaining input.old) doc.now (Appends (O.contents output.old) (O.contents output.new)) }
    ensures memory { result.status ≡ 3 → Appends (O.contents output.old) (O.contents output.new) memory_line }

    // The answer is the one for the events, and it is present if a tree or a refusal was written.
    ensures answer { IfSome result.answer (λ answer. IsAnswer answer (I.remaining input.old) (I.remaining input.new) doc.now) }
    ensures answered { result.status ≤ 1 → IsSome result.answer }
{
    let Ok(answer) = answer_to(alloc, doc, input) else {
        let status = say(output, OUT_OF_MEMORY, 3);
        return RunOutcome {
            status,
            answer: None,
        };
    };
    let status = match answer.line(alloc) {
        Ok(line) => say(output, line.as_str(), answer.status()),
        Err(_) => say(output, OUT_OF_MEMORY, 3),
    };
    RunOutcome {
        status,
        answer: Some(answer),
    }
}

/// Returns the answer for the events.
pub fn answer_to<I: Read>(alloc: Global, doc: &[u8], input: &mut I) -> Result<Answer, AllocError>
    ensures { IfOk result (λ answer. IsAnswer answer (I.remaining input.old) (I.remaining input.new) doc.now) }
{
    let text = match read_all(alloc, input) {
        Ok(text) => text,
        Err(ReadError::Failed) => return Ok(Answer::UnreadEvents),
        Err(ReadError::Memory(error)) => return Err(error),
    };
    let events = match events(alloc, &text) {
        Ok(events) => events,
        Err(LinesError::Unread(number)) => return Ok(Answer::UnreadLine(number)),
        Err(LinesError::Memory(error)) => return Err(error),
    };
    // The tree needs the events but not their lines.
    drop(text);
    compiled(alloc, &events, doc)
}

/// Returns the answer of the compiler for the events.
fn compiled(alloc: Global, events: &[Event], doc: &[u8]) -> Result<Answer, AllocError>
    ensures { IfOk result (λ answer. IsCompiled answer events.now doc.now) }
{
    match compile(alloc, events, doc, &Decoder) {
        Ok(tree) => Ok(Answer::Tree(tree)),
        Err(Fault::Message(message)) => Ok(Answer::Refused(message)),
        Err(Fault::Memory(error)) => Err(error),
    }
}

/// Returns the line of a tree: its text as Debug writes it, and a line feed.
fn tree_line(alloc: Global, tree: &Node) -> Result<String, AllocError>
    ensures { IfOk result (λ line. IsLineOf (view tree.now) (string_bytes line)) }
{
    let mut line = tree.to_debug_string(alloc)?;
    line.push_str("\n")?;
    Ok(line)
}

/// Returns `mdast_show: event line 2 cannot be read`, with this number.
fn unread_line(alloc: Global, number: usize) -> Result<String, AllocError>
    ensures { IfOk result (λ line. Prints (answers.UnreadLine number) (string_bytes line)) }
{
    let mut line = String::from_str(alloc, "mdast_show: event line ")?;
    line.push_str(number.to_string(alloc)?.as_str())?;
    line.push_str(" cannot be read\n")?;
    Ok(line)
}

/// Returns the line of a message: `line:column (offset): reason (rule_id)`.
fn message_line(alloc: Global, message: &Message) -> Result<String, AllocError>
    ensures { IfOk result (λ line. string_bytes line ≡ Run.message_line message.now) }
{
    let mut line = message.to_string(alloc)?;
    line.push_str("\n")?;
    Ok(line)
}
