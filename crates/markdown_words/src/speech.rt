//! What is said so far of a document.

ghost use Rattle.std.specs.Prelude.{◌≡◌, ◌&&◌, IfOk, OnOk, string_bytes, true};
ghost use Rattle.markdown_events.specs.Texts.{raw, spaces, trim};
ghost use Rattle.std.specs.List.{list_all};
ghost use Rattle.markdown_parts.specs.ValueTexts.{is_kept, is_unpadded};
ghost use Rattle.mdast_util.specs.PlainText.{ended};
ghost use Rattle.markdown_words.specs.Saying.{add, add_code, begins, is_code, opened_in, put, since};
ghost use Rattle.markdown_words.specs.Standings.{at_first};

use markdown_events::event::Point;
use markdown_events::role::{Content, ItemKind};
use markdown_parts::texts::{block_value, inline_value};
use std::alloc::{AllocError, Global};
use std::marker::Model;

/// What is said so far, and where the code begins that is open in it.
#[derive(Drop)]
pub struct Speech {
    /// The words so far.
    text: String,
    /// How long the text was where the code began that is open, or was open last.
    mark: usize,
    /// Where in the document the last text of that code ends.
    last: usize,
}

impl Model for Speech {
    ghost use Rattle.std.specs.Prelude.{string_bytes};
    ghost use Rattle.markdown_words.specs.Saying.{Said};

    ghost Value = { Said };

    ghost view = { λ s. record { text = string_bytes s.text; mark = s.mark; last = s.last } };
}

impl Speech {
    /// Returns what is said before the first event: nothing.
    pub fn new(alloc: Global) -> Speech
        ensures { result ≡ at_first.said }
    {
        Speech {
            text: String::new(alloc),
            mark: 0,
            last: 0,
        }
    }

    /// Returns the words, with a line feed after the last.
    pub fn into_text(self) -> Result<String, AllocError>
        ensures { IfOk result (λ text. string_bytes text ≡ ended self.text) }
    {
        let Speech { mut text, .. } = self;
        end_line(&mut text)?;
        Ok(text)
    }

    /// Returns where the last text of the open code ends.
    pub fn last(&self) -> usize
        ensures { result ≡ self.now.last }
    {
        self.last
    }

    /// Says words.
    #[inline(always)]
    pub fn say(&mut self, words: &str) -> Result<(), AllocError>
        ensures { OnOk result (self.new ≡ add words.now self.old) }
    {
        self.text.push_str(words)
    }

    /// Says words in code, which end at a point of the document.
    #[inline(always)]
    pub fn say_in_code(&mut self, words: &str, end: &Point) -> Result<(), AllocError>
        ensures { OnOk result (self.new ≡ add_code words.now end.now self.old) }
    {
        self.last = end.index;
        self.text.push_str(words)
    }

    /// Begins an item among blocks or inlines: it may begin a line, and be code.
    #[inline(always)]
    pub fn open(&mut self, in_label: bool, what: ItemKind) -> Result<(), AllocError>
        ensures { OnOk result (self.new ≡ opened_in in_label what self.old) }
    {
        if begins_line(what) && !in_label {
            end_line(&mut self.text)?;
        }
        if is_code(what) {
            self.mark = self.text.len();
        }
        Ok(())
    }

    /// Puts the value of code or math in a line in place of what was said since it began. Returns
    /// whether the text can be cut there.
    pub fn end_inline(&mut self, alloc: Global, in_table: bool) -> Result<bool, AllocError>
        ensures { IfOk result (λ done. done ≡ true → self.new ≡ put (raw (spaces (since self.old)) in_table) self.old) }
    {
        if !self.text.is_char_boundary(self.mark) {
            return Ok(false);
        }
        if is_its_own_value(&self.text.as_bytes()[self.mark..]) {
            return Ok(true);
        }
        let code = self.text.split_off(self.mark)?;
        let value = inline_value(alloc, code, in_table)?;
        self.text.push_str(value.as_str())?;
        Ok(true)
    }

    /// Puts the value of a block of code or math in place of what was said since it began. Returns
    /// whether the text can be cut there.
    pub fn end_block(&mut self, at_start: bool, at_end: bool) -> Result<bool, AllocError>
        ensures { IfOk result (λ done. done ≡ true → self.new ≡ put (trim (since self.old) at_start at_end) self.old) }
    {
        if !self.text.is_char_boundary(self.mark) {
            return Ok(false);
        }
        let code = self.text.split_off(self.mark)?;
        let value = block_value(code, at_start, at_end);
        self.text.push_str(value.as_str())?;
        Ok(true)
    }
}

/// Appends a line feed, unless the text is empty.
fn end_line(text: &mut String) -> Result<(), AllocError>
    ensures { OnOk result (string_bytes text.new ≡ ended (string_bytes text.old)) }
{
    if text.is_empty() {
        return Ok(());
    }
    text.push_str("\n")
}

/// Whether an item begins a line.
#[inline(always)]
pub fn begins_line(what: ItemKind) -> bool
    ensures { result ≡ begins what }
{
    matches!(
        what,
        ItemKind::Content(
            Content::Paragraph
                | Content::HeadingAtx
                | Content::HeadingSetext
                | Content::TableCell
                | Content::CodeFenced
                | Content::CodeIndented
                | Content::MathFlow
        )
    )
}

/// Whether the items in an item are code or math.
#[inline(always)]
pub fn is_code(what: ItemKind) -> bool
    ensures { result ≡ is_code what }
{
    matches!(
        what,
        ItemKind::Content(
            Content::CodeFenced
                | Content::CodeIndented
                | Content::CodeText
                | Content::MathFlow
                | Content::MathText
        )
    )
}

/// Whether a text does not begin with a space, and contains neither a line ending nor a backslash.
fn is_its_own_value(text: &[u8]) -> bool
    ensures { result ≡ (is_unpadded text.now && list_all is_kept text.now) }
{
    match text {
        [b' ', ..] => false,
        _ => is_kept_whole(text),
    }
}

/// Whether a text contains neither a line ending nor a backslash.
fn is_kept_whole(text: &[u8]) -> bool
    ensures { result ≡ list_all is_kept text.now }
{
    text.iter()
        .all(|byte| !matches!(*byte, b'\n' | b'\r' | b'\\'))
}
