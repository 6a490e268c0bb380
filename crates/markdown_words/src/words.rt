//! The words of a document, said event by event.

ghost use Rattle.std.specs.Prelude.{◌≡◌, ◌∷◌, [], IfOk, OnOk, false, string_bytes, true};
ghost use Rattle.markdown_events.specs.Forest.{enter, exit};
ghost use Rattle.markdown_events.specs.declared.event.Point.{Point};
ghost use Rattle.markdown_events.specs.declared.role.Content.TheVariants as contents;
ghost use Rattle.markdown_events.specs.declared.role.ItemKind.TheVariants as item_kinds;
ghost use Rattle.markdown_words.specs.declared.setting.Voice.TheVariants as voices;
ghost use Rattle.markdown_grammar.specs.declared.values.Values.TheVariants.{Whole};
ghost use Rattle.mdast_util.specs.PlainText.{ended};
ghost use Rattle.markdown_words.specs.Saying.{is_marked, is_valued, opened, says_at_end};
ghost use Rattle.markdown_words.specs.Settings.{fits};
ghost use Rattle.markdown_words.specs.Shown.{EndsIn, Enters, Goes, Leaves, Passes, Shows};
ghost use Rattle.markdown_words.specs.Standings.{at_first};

use crate::closing::{close, say_ending, say_ending_in_code, say_in_code, say_value};
use crate::setting::{Setting, Voice, fits};
use crate::speech::{Speech, begins_line, is_code};
use markdown_events::event::{Name, Point};
use markdown_events::role::{Content, ItemKind, Part, Role};
use markdown_parts::slice::Document;
use std::alloc::{AllocError, Global};

/// The words of the events so far (ours).
///
/// An item of which it is not known what it says is strange. After one, the words mean nothing.
///
/// These calls say `Hi`, and `into_text` returns that with a line feed:
///
/// ```text
/// let mut words = Words::new(alloc, "Hi");
/// words.enter(Name::Paragraph)?;
/// words.token(Name::Data, &start, &end)?;
/// words.exit(Name::Paragraph, &end)?;
/// let text = words.into_text()?;
/// ```
#[derive(Drop)]
pub struct Words<'d> {
    /// The document.
    document: Document<'d>,
    /// What is said so far.
    speech: Speech,
    /// How the next item is said.
    setting: Setting,
    /// How the open items are said, the innermost last.
    outer: Vec<Setting>,
    /// Whether an event was strange.
    strange: bool,
    /// The allocator.
    alloc: Global,
}

impl<'d> Words<'d> {
    /// Returns the words before the first event: none. No byte of the document is hidden.
    pub fn new(alloc: Global, text: &'d str) -> Words<'d>
        ensures shows { Shows result at_first }
        ensures document { result.document.bytes ≡ text.now }
        ensures hidden { result.document.hidden ≡ [] }
    {
        Words::hiding(alloc, text, &[])
    }

    /// Returns the words before the first event, in a document of which some bytes are hidden, as
    /// `Document::of_text` says.
    pub fn hiding(alloc: Global, text: &'d str, hidden: &'d [bool]) -> Words<'d>
        ensures shows { Shows result at_first }
        ensures document { result.document.bytes ≡ text.now }
        ensures hidden { result.document.hidden ≡ hidden.now }
    {
        Words {
            document: Document::of_text(text, hidden),
            speech: Speech::new(alloc),
            setting: Setting::of_root(),
            outer: Vec::new(alloc),
            strange: false,
            alloc,
        }
    }

    /// Whether an event was strange, so that the words mean nothing.
    pub fn is_strange(&self) -> bool
        ensures { result ≡ self.now.strange }
    {
        self.strange
    }

    /// Gives up, after an event that was not taken.
    pub fn give_up(&mut self)
        ensures strange { self.new.strange ≡ true }
        ensures document { self.new.document ≡ self.old.document }
    {
        self.strange = true;
    }

    /// Returns the words, with a line feed after the last. The only error is that memory ran out.
    pub fn into_text(self) -> Result<String, AllocError>
        ensures { IfOk result (λ text. string_bytes text ≡ ended self.entry.speech.text) }
    {
        let Words { speech, .. } = self;
        speech.into_text()
    }

    /// Takes the enter of a span. The only error is that memory ran out: call `give_up` then.
    #[inline(always)]
    pub fn enter(&mut self, name: Name) -> Result<(), AllocError>
        ensures goes { OnOk result ((at : Point) → Goes (enter name at ∷ []) self.old self.new) }
        ensures document { self.new.document ≡ self.old.document }
    {
        match name.role() {
            Role::Transparent(_) => Ok(()),
            Role::Significant(what) => self.enter_item(what),
        }
    }

    /// Takes the exit of a span. The only error is that memory ran out, as in `enter`.
    #[inline(always)]
    pub fn exit(&mut self, name: Name, end: &Point) -> Result<(), AllocError>
        ensures goes { OnOk result (Goes (exit name end.now ∷ []) self.old self.new) }
        ensures document { self.new.document ≡ self.old.document }
    {
        match name.role() {
            Role::Transparent(_) => Ok(()),
            Role::Significant(what) => self.exit_item(what, end),
        }
    }

    /// Takes the enter and the exit of a token. The only error is that memory ran out, as in `enter`.
    #[inline(always)]
    pub fn token(&mut self, name: Name, start: &Point, end: &Point) -> Result<(), AllocError>
        ensures goes { OnOk result (Goes (enter name start.now ∷ exit name end.now ∷ []) self.old self.new) }
        ensures document { self.new.document ≡ self.old.document }
    {
        match name.role() {
            Role::Transparent(_) => Ok(()),
            Role::Significant(what) => self.pass(what, start, end),
        }
    }

    /// Passes an item with nothing in it. Most are silent, data or line endings.
    #[inline(always)]
    fn pass(&mut self, what: ItemKind, start: &Point, end: &Point) -> Result<(), AllocError>
        ensures passes { OnOk result (self.new.strange ≡ false → Passes what start.now end.now self.old self.new) }
        ensures document { self.new.document ≡ self.old.document }
    {
        match self.setting.voice {
            Voice::Silent => Ok(()),
            Voice::Text if is_data(what) => self.pass_data(start, end),
            Voice::Raw if is_data(what) => self.pass_code(start, end),
            Voice::Flow if is_line_ending(what) => Ok(()),
            Voice::Text if is_line_ending(what) => self.pass_ending(start, end),
            Voice::Raw if is_line_ending(what) => self.pass_ending_in_code(start, end),
            _ => self.pass_any(what, start, end),
        }
    }

    /// Passes data among inlines.
    #[inline(always)]
    fn pass_data(&mut self, start: &Point, end: &Point) -> Result<(), AllocError>
        requires { self.old.setting.voice ≡ voices.Text }
        ensures passes { OnOk result (self.new.strange ≡ false → Passes (item_kinds.Content contents.Data) start.now end.now self.old self.new) }
        ensures document { self.new.document ≡ self.old.document }
    {
        if !say_value(self.alloc, &mut self.speech, &self.document, start, end)? {
            self.strange = true;
        }
        Ok(())
    }

    /// Passes data in code.
    #[inline(always)]
    fn pass_code(&mut self, start: &Point, end: &Point) -> Result<(), AllocError>
        requires { self.old.setting.voice ≡ voices.Raw }
        ensures passes { OnOk result (self.new.strange ≡ false → Passes (item_kinds.Content contents.Data) start.now end.now self.old self.new) }
        ensures document { self.new.document ≡ self.old.document }
    {
        if !say_in_code(self.alloc, &mut self.speech, &self.document, start, end)? {
            self.strange = true;
        }
        Ok(())
    }

    /// Passes a line ending among inlines.
    #[inline(never)]
    fn pass_ending(&mut self, start: &Point, end: &Point) -> Result<(), AllocError>
        requires { self.old.setting.voice ≡ voices.Text }
        ensures passes { OnOk result (self.new.strange ≡ false → Passes (item_kinds.Content contents.LineEnding) start.now end.now self.old self.new) }
        ensures document { self.new.document ≡ self.old.document }
    {
        if !say_ending(self.alloc, &mut self.speech, &self.document, start, end)? {
            self.strange = true;
        }
        Ok(())
    }

    /// Passes a line ending in code.
    #[inline(never)]
    fn pass_ending_in_code(&mut self, start: &Point, end: &Point) -> Result<(), AllocError>
        requires { self.old.setting.voice ≡ voices.Raw }
        ensures passes { OnOk result (self.new.strange ≡ false → Passes (item_kinds.Content contents.LineEnding) start.now end.now self.old self.new) }
        ensures document { self.new.document ≡ self.old.document }
    {
        if !say_ending_in_code(self.alloc, &mut self.speech, &self.document, start, end)? {
            self.strange = true;
        }
        Ok(())
    }

    /// Enters an item whose start is not read.
    fn enter_item(&mut self, what: ItemKind) -> Result<(), AllocError>
        ensures enters { OnOk result (self.new.strange ≡ false → Enters what self.old self.new) }
        ensures document { self.new.document ≡ self.old.document }
    {
        let setting = self.setting;
        let known = fits(setting.voice, setting.in_label, what) && !is_valued(what);
        self.strange = self.strange | !known;
        open(&mut self.speech, setting, what)?;
        self.outer.push(setting)?;
        self.setting = setting.inside(what);
        Ok(())
    }

    /// Leaves an item whose start is not read.
    fn exit_item(&mut self, what: ItemKind, end: &Point) -> Result<(), AllocError>
        ensures leaves { OnOk result (self.new.strange ≡ false → Leaves what end.now self.old self.new) }
        ensures document { self.new.document ≡ self.old.document }
    {
        let Some(setting) = self.outer.pop() else {
            self.strange = true;
            return Ok(());
        };
        self.setting = setting.after(what);
        self.strange = self.strange | is_valued(what) | is_marked(setting.voice);
        self.end_item(setting, what, end)
    }

    /// Ends an item whose start is not read. Most say nothing.
    #[inline(always)]
    fn end_item(&mut self, setting: Setting, what: ItemKind, end: &Point) -> Result<(), AllocError>
        ensures ends { OnOk result (self.new.strange ≡ false → EndsIn setting what end.now self.old self.new) }
        ensures document { self.new.document ≡ self.old.document }
    {
        if says_at_end(what) {
            return self.say_at_end(setting, what, end);
        }
        Ok(())
    }

    /// Says what an item says where it ends.
    #[inline(never)]
    fn say_at_end(
        &mut self,
        setting: Setting,
        what: ItemKind,
        end: &Point,
    ) -> Result<(), AllocError>
        ensures ends { OnOk result (self.new.strange ≡ false → EndsIn setting what end.now self.old self.new) }
        ensures document { self.new.document ≡ self.old.document }
    {
        let known = close(
            self.alloc,
            &mut self.speech,
            &self.document,
            setting,
            what,
            end,
            end,
        )?;
        self.strange = self.strange | !known;
        Ok(())
    }

    /// Passes any item with nothing in it.
    #[inline(never)]
    fn pass_any(&mut self, what: ItemKind, start: &Point, end: &Point) -> Result<(), AllocError>
        ensures passes { OnOk result (self.new.strange ≡ false → Passes what start.now end.now self.old self.new) }
        ensures document { self.new.document ≡ self.old.document }
    {
        let setting = self.setting;
        let known = fits(setting.voice, setting.in_label, what);
        self.setting = setting.after(what);
        open(&mut self.speech, setting, what)?;
        let suits = close(
            self.alloc,
            &mut self.speech,
            &self.document,
            setting,
            what,
            start,
            end,
        )?;
        self.strange = self.strange | !known | !suits;
        Ok(())
    }
}

/// Whether an item is data.
#[inline(always)]
fn is_data(what: ItemKind) -> bool
    ensures { result ≡ true → what ≡ item_kinds.Content contents.Data }
{
    matches!(what, ItemKind::Content(Content::Data))
}

/// Whether an item is a line ending.
#[inline(always)]
fn is_line_ending(what: ItemKind) -> bool
    ensures { result ≡ true → what ≡ item_kinds.Content contents.LineEnding }
{
    matches!(what, ItemKind::Content(Content::LineEnding))
}

/// Begins an item in a setting.
fn open(speech: &mut Speech, setting: Setting, what: ItemKind) -> Result<(), AllocError>
    ensures { OnOk result (speech.new ≡ opened setting.voice setting.in_label what speech.old) }
{
    if !begins_line(what) && !is_code(what) {
        return Ok(());
    }
    match setting.voice {
        Voice::Flow | Voice::Text | Voice::Item | Voice::First => {
            speech.open(setting.in_label, what)
        }
        _ => Ok(()),
    }
}

/// Whether an item says the bytes from its start to its end.
#[inline(always)]
fn is_valued(what: ItemKind) -> bool
    ensures { result ≡ is_valued what }
{
    matches!(
        what,
        ItemKind::Content(
            Content::Data
                | Content::LineEnding
                | Content::AutolinkLiteralEmail
                | Content::AutolinkLiteralWww
                | Content::AutolinkLiteralWhole
        ) | ItemKind::Part(
            Part::AutolinkEmail | Part::AutolinkProtocol | Part::CharacterReferenceValue
        )
    )
}

/// Whether an item whose start is not read says something where it ends.
#[inline(always)]
fn says_at_end(what: ItemKind) -> bool
    ensures { result ≡ says_at_end what }
{
    matches!(
        what,
        ItemKind::Content(
            Content::HardBreak
                | Content::CodeFenced
                | Content::CodeIndented
                | Content::CodeText
                | Content::MathFlow
                | Content::MathText
        )
    )
}

/// Whether the first text is still to come, after a task mark.
#[inline(always)]
fn is_marked(voice: Voice) -> bool
    ensures { result ≡ is_marked voice }
{
    matches!(voice, Voice::Marked)
}
