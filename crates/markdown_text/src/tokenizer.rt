//! The first pass over a text: the constructs in it, in order.

ghost use Rattle.std.specs.Prelude.{Bool, List, None, Some, [], false, true, ◌≡◌, ◌≢◌, ◌<◌, ◌≤◌, ◌+◌, ◌-◌, ◌⊎◌, length, IfOk, IfSome, MatchOption, OnOk, ℕ};
ghost use Rattle.std.proofs.Props.{props};
ghost use Rattle.commonmark_syntax.specs.HtmlTags.{AreMissing};
ghost use Rattle.commonmark_syntax.specs.Strings.{AreLast};
ghost use Rattle.markdown_attention.specs.ExtendedAddresses.{HasNoExtendedAutolink, IsExtendedAutolink, IsRefused};
ghost use Rattle.markdown_options.specs.declared.Constructs.{Constructs};
ghost use Rattle.markdown_text.specs.AttentionRuns.{HasNoClosing};
ghost use Rattle.markdown_text.specs.AttentionWaiting.{ArePairsOf, HasNoLaterMarker, Wait, WaitWith};
ghost use Rattle.markdown_text.specs.Constructs.{AreBracketsOn, AreDelimitersOn, AreTokensOn, IsMarker, is_form_on, is_found_on, is_label_on};
ghost use Rattle.markdown_text.specs.Cursors.{byte_at, bytes_from};
ghost use Rattle.markdown_text.specs.Reached.{AreOpen, AreOpenWith, IsOpen, IsWith, ReachAsFar, form_size, has_bracket};
ghost use Rattle.markdown_text.specs.Runs.{IsAttentionOn};
ghost use Rattle.markdown_text.specs.Texts.{bare, text_of};
ghost use Rattle.markdown_text.specs.Tokens.{AreTokens, BeginsLabel, IsFound, label_start};
ghost use Rattle.markdown_text.specs.declared.brackets.Bracket.{Bracket};
ghost use Rattle.markdown_text.specs.declared.token.TokenKind.TheVariants.{LabelEnd, LabelStart};

use crate::attention::Attention;
use crate::brackets::{Bracket, Brackets, LabelForm};
use crate::cursor::Cursor;
use crate::delimiter_run::{is_delimiter_run, run_at};
use crate::label_end::{self, Match};
use crate::plain::plain_length;
use crate::source::Source;
use crate::spare_lists::{SpareLists, take_cleared};
use crate::token::{Found, Labelled, Token, TokenKind};
use crate::{
    autolink, character_escape, character_reference, gfm_autolink_literal,
    gfm_label_start_footnote, gfm_task_list_item_check, hard_break_escape, html_text,
    label_start_image, label_start_link, raw_text,
};
use character_references::references::References;
use commonmark_syntax::code_span::LastStrings;
use commonmark_syntax::html_tag::MissingEnds;
use markdown_attention::delimiter::Delimiter;
use markdown_attention::extended_autolink_address::RefusedDomain;
use markdown_options::Constructs;
use std::alloc::{AllocError, Global};

/// The constructs in a text.
#[derive(Drop)]
pub struct Tokens {
    /// The tokens, in order. The bytes between them are data.
    pub tokens: Vec<Token>,
    /// The sequence of a delimiter run that begins at each offset, if any. It is empty if there are
    /// no runs.
    pub delimiters: Vec<Delimiter>,
}

impl Tokens {
    /// Makes the lists spare.
    #[inline(always)]
    pub fn keep_lists(self, lists: &mut SpareLists) {
        lists.tokens = self.tokens;
        lists.delimiters = self.delimiters;
    }
}

/// Returns the constructs in a text. With `is_task` it may begin with the mark of a task. The only
/// error is that memory ran out.
pub fn tokenize<R: References>(
    source: &Source<'_, R>,
    is_task: bool,
    lists: &mut SpareLists,
) -> Result<Tokens, AllocError>
    requires task { is_task ≡ true → source.now.reading.now.options.constructs.gfm_task_list_item ≡ true }
    ensures found { IfOk result (λ found. AreTokens (text_of source.now.bytes.now (R.text source.now.reading.now.references.now) is_task) 0 found.tokens.items) }
    ensures on { IfOk result (λ found. AreTokensOn source.now.reading.now.options.constructs found.tokens.items) }
    ensures delimiters { IfOk result (λ found. AreDelimitersOn source.now.reading.now.options.constructs found.delimiters.items) }
    ensures pairs { HasNoClosing source.now.bytes.now → IfOk result (λ found. ArePairsOf source.now.reading.now.options source.now.bytes.now found.tokens.items found.delimiters.items) }
{
    let content = source.bytes;
    let mut tokenizer = Tokenizer::new(source, lists);
    let mut at = 0;
    'tokens: while at < content.len() {
        let cursor = Cursor { content, at };
        let found = tokenizer.find(cursor, is_task)?;
        tokenizer.push(cursor, found)?;
        at += found.size;
    }
    tokenizer
        .attention
        .resolve(source.reading.alloc, content.len(), 0)?;
    tokenizer.brackets.keep_list(lists);
    Ok(Tokens {
        tokens: tokenizer.tokens,
        delimiters: tokenizer.attention.into_delimiters(lists),
    })
}

/// The first pass.
#[derive(Drop)]
struct Tokenizer<'c, R> {
    /// The content.
    source: &'c Source<'c, R>,
    /// The tokens so far.
    tokens: Vec<Token>,
    /// The runs of delimiters so far.
    attention: Attention,
    /// The brackets that are open.
    brackets: Brackets,
    /// What is known of the strings of backticks.
    backtick_strings: Option<LastStrings>,
    /// What is known of the strings of dollars.
    dollar_strings: Option<LastStrings>,
    /// What is known of the ends of HTML tags.
    missing: MissingEnds,
    /// The last domain of an autolink literal that was refused.
    refused: RefusedDomain,
    ghost tokens_on: { AreTokensOn source.now.reading.now.options.constructs tokens.items } by { Prim.hlevel props },
    ghost brackets_on: { AreBracketsOn source.now.reading.now.options.constructs brackets.stack.items } by { Prim.hlevel props },
    ghost attention_on: { IsAttentionOn source.now.reading.now.options.constructs attention } by { Prim.hlevel props },
    ghost backticks_known: { IfSome backtick_strings (AreLast 96 source.now.bytes.now) } by { Prim.hlevel props },
    ghost dollars_known: { IfSome dollar_strings (AreLast 36 source.now.bytes.now) } by { Prim.hlevel props },
    ghost missing_known: { AreMissing source.now.bytes.now missing } by { Prim.hlevel props },
    ghost refused_known: { IsRefused source.now.bytes.now refused } by { Prim.hlevel props },
}

impl<'c, R: References> Tokenizer<'c, R> {
    /// Returns a tokenizer at the start of a content, with lists that are spare.
    #[inline(always)]
    fn new(source: &'c Source<'c, R>, lists: &mut SpareLists) -> Self
        ensures source { result.source.now ≡ source.now }
        ensures tokens { result.tokens.items ≡ [] }
        ensures brackets { result.brackets.stack.items ≡ [] }
        ensures wait { Wait source.now.reading.now.options source.now.bytes.now [] 0 result.attention }
    {
        let alloc = source.reading.alloc;
        Tokenizer {
            source,
            tokens: take_cleared(&mut lists.tokens, alloc),
            attention: Attention::new(lists, alloc),
            brackets: Brackets::new(lists, alloc),
            backtick_strings: None,
            dollar_strings: None,
            missing: MissingEnds::new(source.bytes.len()),
            refused: RefusedDomain::new(),
        }
    }

    /// Returns which constructs are on.
    fn constructs(&self) -> &'c Constructs
        ensures { result.now ≡ self.now.source.now.reading.now.options.constructs }
    {
        &self.source.reading.options.constructs
    }

    /// Adds what was found at the cursor. Data is not kept. The only error is that memory ran out.
    #[inline(always)]
    fn push(&mut self, cursor: Cursor<'_>, found: Found) -> Result<(), AllocError>
        requires size { found.size ≤ bytes_from cursor }
        requires on { is_found_on self.old.source.now.reading.now.options.constructs found.kind ≡ true }
        ensures tokens { OnOk result (IsWith self.old.tokens.items cursor.entry.at found.kind (cursor.entry.at + found.size) self.new.tokens.items) }
        ensures source { self.new.source.now ≡ self.old.source.now }
        ensures brackets { self.new.brackets ≡ self.old.brackets }
        ensures attention { self.new.attention ≡ self.old.attention }
    {
        if let Some(kind) = found.kind {
            self.tokens.push(Token {
                kind,
                start: cursor.at,
                end: cursor.at + found.size,
            })?;
        }
        Ok(())
    }

    /// Returns what begins at the cursor. With `is_task` the text may begin with the mark of a
    /// task. The only error is that memory ran out.
    #[inline(always)]
    fn find(&mut self, cursor: Cursor<'_>, is_task: bool) -> Result<Found, AllocError>
        requires content { cursor.content.now ≡ self.old.source.now.bytes.now }
        requires wait { Wait self.old.source.now.reading.now.options cursor.content.now self.old.tokens.items cursor.at self.old.attention }
        requires opened { AreOpen self.old.tokens.items self.old.brackets.stack.items }
        requires task { is_task ≡ true → self.old.source.now.reading.now.options.constructs.gfm_task_list_item ≡ true }
        ensures found { IfOk result (λ found. IsFound (text_of cursor.entry.content.now (R.text self.old.source.now.reading.now.references.now) is_task) found.kind cursor.entry.at (cursor.entry.at + found.size)) }
        ensures source { self.new.source.now ≡ self.old.source.now }
        ensures reach { OnOk result (ReachAsFar self.old.tokens.items self.new.tokens.items) }
        ensures opened { IfOk result (λ found. AreOpenWith self.new.tokens.items cursor.entry.at found self.new.brackets.stack.items) }
        ensures on { IfOk result (λ found. is_found_on self.old.source.now.reading.now.options.constructs found.kind ≡ true) }
        ensures wait { IfOk result (λ found. WaitWith self.old.source.now.reading.now.options cursor.entry.content.now self.new.tokens.items cursor.entry.at found self.new.attention) }
    {
        if is_task && cursor.at == 0 {
            return self.task(cursor);
        }
        self.scan(cursor)
    }

    /// Returns the mark of a task, or what else is at the start of a text that may begin with one.
    /// The only error is that memory ran out.
    fn task(&mut self, cursor: Cursor<'_>) -> Result<Found, AllocError>
        requires content { cursor.content.now ≡ self.old.source.now.bytes.now }
        requires start { cursor.at ≡ 0 }
        requires wait { Wait self.old.source.now.reading.now.options cursor.content.now self.old.tokens.items cursor.at self.old.attention }
        requires opened { AreOpen self.old.tokens.items self.old.brackets.stack.items }
        requires on { self.old.source.now.reading.now.options.constructs.gfm_task_list_item ≡ true }
        ensures found { IfOk result (λ found. IsFound (text_of cursor.entry.content.now (R.text self.old.source.now.reading.now.references.now) true) found.kind cursor.entry.at (cursor.entry.at + found.size)) }
        ensures source { self.new.source.now ≡ self.old.source.now }
        ensures reach { OnOk result (ReachAsFar self.old.tokens.items self.new.tokens.items) }
        ensures opened { IfOk result (λ found. AreOpenWith self.new.tokens.items cursor.entry.at found self.new.brackets.stack.items) }
        ensures on { IfOk result (λ found. is_found_on self.old.source.now.reading.now.options.constructs found.kind ≡ true) }
        ensures wait { IfOk result (λ found. WaitWith self.old.source.now.reading.now.options cursor.entry.content.now self.new.tokens.items cursor.entry.at found self.new.attention) }
    {
        match gfm_task_list_item_check::scan(cursor.rest()) {
            Some(found) => Ok(found),
            None => self.scan(cursor),
        }
    }

    /// Returns what begins at the cursor, except the mark of a task. The only error is that memory
    /// ran out.
    #[inline(always)]
    fn scan(&mut self, cursor: Cursor<'_>) -> Result<Found, AllocError>
        requires content { cursor.content.now ≡ self.old.source.now.bytes.now }
        requires wait { Wait self.old.source.now.reading.now.options cursor.content.now self.old.tokens.items cursor.at self.old.attention }
        requires opened { AreOpen self.old.tokens.items self.old.brackets.stack.items }
        ensures found { IfOk result (λ found. IsFound (text_of cursor.entry.content.now (R.text self.old.source.now.reading.now.references.now) false) found.kind cursor.entry.at (cursor.entry.at + found.size)) }
        ensures source { self.new.source.now ≡ self.old.source.now }
        ensures reach { OnOk result (ReachAsFar self.old.tokens.items self.new.tokens.items) }
        ensures opened { IfOk result (λ found. AreOpenWith self.new.tokens.items cursor.entry.at found self.new.brackets.stack.items) }
        ensures on { IfOk result (λ found. is_found_on self.old.source.now.reading.now.options.constructs found.kind ≡ true) }
        ensures wait { IfOk result (λ found. WaitWith self.old.source.now.reading.now.options cursor.entry.content.now self.new.tokens.items cursor.entry.at found self.new.attention) }
    {
        match cursor.byte() {
            b'!' | b'[' => self.label_start(cursor),
            b']' => self.label_end(cursor),
            b'*' | b'_' | b'~' => self.attention(cursor),
            _ => self.construct(cursor),
        }
    }

    /// Returns the construct that begins at the cursor, except labels and attention. The only error
    /// is that memory ran out.
    #[inline(always)]
    fn construct(&mut self, cursor: Cursor<'_>) -> Result<Found, AllocError>
        requires content { cursor.content.now ≡ self.old.source.now.bytes.now }
        ensures found { IfOk result (λ found. IsFound (text_of cursor.entry.content.now (R.text self.old.source.now.reading.now.references.now) false) found.kind cursor.entry.at (cursor.entry.at + found.size)) }
        ensures source { self.new.source.now ≡ self.old.source.now }
        ensures tokens { self.new.tokens ≡ self.old.tokens }
        ensures brackets { self.new.brackets ≡ self.old.brackets }
        ensures on { IfOk result (λ found. is_found_on self.old.source.now.reading.now.options.constructs found.kind ≡ true) }
        ensures attention { self.new.attention ≡ self.old.attention }
        ensures later { IfOk result (λ found. HasNoLaterMarker cursor.entry.content.now cursor.entry.at found) }
    {
        match cursor.byte() {
            b'\n' => Ok(Found::token(TokenKind::LineEnding, 1)),
            b'\\' => Ok(self.backslash(cursor)),
            b'&' => self.character_reference(cursor),
            b'`' => self.code_text(cursor),
            b'$' => self.math_text(cursor),
            b'<' => Ok(self.angle_bracket(cursor)),
            b'f' | b'F' | b'h' | b'H' | b'w' | b'W' => Ok(self.autolink_literal(cursor)),
            _ => Ok(data(cursor, self.constructs().gfm_autolink_literal)),
        }
    }

    /// Returns what a backslash begins.
    fn backslash(&self, cursor: Cursor<'_>) -> Found
        requires { byte_at cursor ≡ 92 }
        ensures found { IsFound (bare cursor.entry.content.now) result.kind cursor.entry.at (cursor.entry.at + result.size) }
        ensures on { is_found_on self.now.source.now.reading.now.options.constructs result.kind ≡ true }
        ensures later { HasNoLaterMarker cursor.entry.content.now cursor.entry.at result }
    {
        let constructs = self.constructs();
        if constructs.hard_break_escape
            && let Some(size) = hard_break_escape::scan(cursor.rest())
        {
            return Found::token(TokenKind::HardBreakEscape, size);
        }
        if constructs.character_escape
            && let Some(size) = character_escape::scan(cursor.rest())
        {
            return Found::token(TokenKind::CharacterEscape, size);
        }
        Found::data(1)
    }

    /// Returns what an ampersand begins. The only error is that memory ran out.
    fn character_reference(&self, cursor: Cursor<'_>) -> Result<Found, AllocError>
        requires { byte_at cursor ≡ 38 }
        ensures found { IfOk result (λ found. IsFound (text_of cursor.entry.content.now (R.text self.now.source.now.reading.now.references.now) false) found.kind cursor.entry.at (cursor.entry.at + found.size)) }
        ensures on { IfOk result (λ found. is_found_on self.now.source.now.reading.now.options.constructs found.kind ≡ true) }
        ensures later { IfOk result (λ found. HasNoLaterMarker cursor.entry.content.now cursor.entry.at found) }
    {
        if !self.constructs().character_reference {
            return Ok(Found::data(1));
        }
        let source = self.source;
        let alloc = source.reading.alloc;
        if let Some(found) = character_reference::scan(
            alloc,
            cursor.rest(),
            source.reading.references,
        )? {
            return Ok(found);
        }
        Ok(Found::data(1))
    }

    /// Returns what a run of backticks begins. The only error is that memory ran out.
    fn code_text(&mut self, cursor: Cursor<'_>) -> Result<Found, AllocError>
        requires content { cursor.content.now ≡ self.old.source.now.bytes.now }
        requires byte { byte_at cursor ≡ 96 }
        ensures found { IfOk result (λ found. IsFound (bare cursor.entry.content.now) found.kind cursor.entry.at (cursor.entry.at + found.size)) }
        ensures source { self.new.source.now ≡ self.old.source.now }
        ensures tokens { self.new.tokens ≡ self.old.tokens }
        ensures brackets { self.new.brackets ≡ self.old.brackets }
        ensures on { IfOk result (λ found. is_found_on self.old.source.now.reading.now.options.constructs found.kind ≡ true) }
        ensures attention { self.new.attention ≡ self.old.attention }
        ensures later { IfOk result (λ found. HasNoLaterMarker cursor.entry.content.now cursor.entry.at found) }
    {
        let sequence = cursor.run_length();
        if !self.constructs().code_text {
            return Ok(Found::data(sequence));
        }
        let alloc = self.source.reading.alloc;
        match raw_text::scan(alloc, cursor, sequence, &mut self.backtick_strings)? {
            Some(size) => Ok(Found::token(TokenKind::CodeText(sequence), size)),
            None => Ok(Found::data(sequence)),
        }
    }

    /// Returns what a run of dollars begins. The only error is that memory ran out.
    fn math_text(&mut self, cursor: Cursor<'_>) -> Result<Found, AllocError>
        requires content { cursor.content.now ≡ self.old.source.now.bytes.now }
        requires byte { byte_at cursor ≡ 36 }
        ensures found { IfOk result (λ found. IsFound (bare cursor.entry.content.now) found.kind cursor.entry.at (cursor.entry.at + found.size)) }
        ensures source { self.new.source.now ≡ self.old.source.now }
        ensures tokens { self.new.tokens ≡ self.old.tokens }
        ensures brackets { self.new.brackets ≡ self.old.brackets }
        ensures on { IfOk result (λ found. is_found_on self.old.source.now.reading.now.options.constructs found.kind ≡ true) }
        ensures attention { self.new.attention ≡ self.old.attention }
        ensures later { IfOk result (λ found. HasNoLaterMarker cursor.entry.content.now cursor.entry.at found) }
    {
        let sequence = cursor.run_length();
        let is_short = sequence == 1 && !self.source.reading.options.math_text_single_dollar;
        if !self.constructs().math_text || is_short {
            return Ok(Found::data(sequence));
        }
        let alloc = self.source.reading.alloc;
        match raw_text::scan(alloc, cursor, sequence, &mut self.dollar_strings)? {
            Some(size) => Ok(Found::token(TokenKind::MathText(sequence), size)),
            None => Ok(Found::data(sequence)),
        }
    }

    /// Returns what a run of delimiters is. The only error is that memory ran out.
    fn attention(&mut self, cursor: Cursor<'_>) -> Result<Found, AllocError>
        requires content { cursor.content.now ≡ self.old.source.now.bytes.now }
        requires wait { Wait self.old.source.now.reading.now.options cursor.content.now self.old.tokens.items cursor.at self.old.attention }
        requires marker { IsMarker (byte_at cursor) }
        requires ascii { byte_at cursor < 128 }
        requires line { byte_at cursor ≢ 10 }
        ensures found { IfOk result (λ found. IsFound (bare cursor.entry.content.now) found.kind cursor.entry.at (cursor.entry.at + found.size)) }
        ensures source { self.new.source.now ≡ self.old.source.now }
        ensures tokens { self.new.tokens ≡ self.old.tokens }
        ensures brackets { self.new.brackets ≡ self.old.brackets }
        ensures on { IfOk result (λ found. is_found_on self.old.source.now.reading.now.options.constructs found.kind ≡ true) }
        ensures wait { IfOk result (λ found. WaitWith self.old.source.now.reading.now.options cursor.entry.content.now self.new.tokens.items cursor.entry.at found self.new.attention) }
    {
        let size = cursor.run_length();
        if !is_delimiter_run(cursor.byte(), size, &self.source.reading.options) {
            return Ok(Found::data(size));
        }
        self.attention.push(run_at(cursor, size))?;
        Ok(Found::token(TokenKind::Attention, size))
    }

    /// Returns what an angle bracket begins.
    fn angle_bracket(&mut self, cursor: Cursor<'_>) -> Found
        requires content { cursor.content.now ≡ self.old.source.now.bytes.now }
        requires byte { byte_at cursor ≡ 60 }
        ensures found { IsFound (bare cursor.entry.content.now) result.kind cursor.entry.at (cursor.entry.at + result.size) }
        ensures source { self.new.source.now ≡ self.old.source.now }
        ensures tokens { self.new.tokens ≡ self.old.tokens }
        ensures brackets { self.new.brackets ≡ self.old.brackets }
        ensures on { is_found_on self.old.source.now.reading.now.options.constructs result.kind ≡ true }
        ensures attention { self.new.attention ≡ self.old.attention }
        ensures later { HasNoLaterMarker cursor.entry.content.now cursor.entry.at result }
    {
        if self.constructs().autolink
            && let Some(found) = autolink::scan(cursor.rest())
        {
            return found;
        }
        if self.constructs().html_text
            && let Some(size) = html_text::scan(cursor, &mut self.missing)
        {
            return Found::token(TokenKind::HtmlText, size);
        }
        Found::data(1)
    }

    /// Returns what an exclamation mark or an opening bracket begins. The only error is that memory
    /// ran out.
    fn label_start(&mut self, cursor: Cursor<'_>) -> Result<Found, AllocError>
        requires begins { BeginsLabel (byte_at cursor) }
        requires ascii { byte_at cursor < 128 }
        requires line { byte_at cursor ≢ 10 }
        requires opened { AreOpen self.old.tokens.items self.old.brackets.stack.items }
        ensures found { IfOk result (λ found. IsFound (bare cursor.entry.content.now) found.kind cursor.entry.at (cursor.entry.at + found.size)) }
        ensures source { self.new.source.now ≡ self.old.source.now }
        ensures tokens { self.new.tokens ≡ self.old.tokens }
        ensures opened { IfOk result (λ found. AreOpenWith self.new.tokens.items cursor.entry.at found self.new.brackets.stack.items) }
        ensures on { IfOk result (λ found. is_found_on self.old.source.now.reading.now.options.constructs found.kind ≡ true) }
        ensures attention { self.new.attention ≡ self.old.attention }
        ensures kind { IfOk result (λ found. (found.kind ≡ None) ⊎ (found.kind ≡ Some (LabelStart None))) }
        ensures later { IfOk result (λ found. HasNoLaterMarker cursor.entry.content.now cursor.entry.at found) }
    {
        let constructs = self.constructs();
        let text = cursor.rest();
        if let Some(size) = label_start_image::scan(text, constructs) {
            return self.open(cursor, LabelForm::Image, size);
        }
        if let Some(size) = gfm_label_start_footnote::scan(text, constructs) {
            return self.open(cursor, LabelForm::Footnote, size);
        }
        if let Some(size) = label_start_link::scan(text, constructs) {
            return self.open(cursor, LabelForm::Link, size);
        }
        Ok(Found::data(1))
    }

    /// Opens a bracket of `size` bytes. The only error is that memory ran out.
    fn open(
        &mut self,
        cursor: Cursor<'_>,
        form: LabelForm,
        size: usize,
    ) -> Result<Found, AllocError>
        requires size { size ≡ form_size form }
        requires opened { AreOpen self.old.tokens.items self.old.brackets.stack.items }
        requires on { is_form_on self.old.source.now.reading.now.options.constructs form ≡ true }
        ensures kind { IfOk result (λ found. found.kind ≡ Some (LabelStart None)) }
        ensures size { IfOk result (λ found. found.size ≡ size) }
        ensures source { self.new.source.now ≡ self.old.source.now }
        ensures tokens { self.new.tokens ≡ self.old.tokens }
        ensures opened { IfOk result (λ found. AreOpenWith self.new.tokens.items cursor.entry.at found self.new.brackets.stack.items) }
        ensures on { IfOk result (λ found. is_found_on self.old.source.now.reading.now.options.constructs found.kind ≡ true) }
        ensures attention { self.new.attention ≡ self.old.attention }
    {
        self.brackets.push(Bracket {
            form,
            token: self.tokens.len(),
            start: cursor.at,
            waiting: self.attention.waiting(),
            has_bracket: false,
        })?;
        Ok(Found::token(TokenKind::LabelStart(None), size))
    }

    /// Returns what a closing bracket ends. The only error is that memory ran out.
    fn label_end(&mut self, cursor: Cursor<'_>) -> Result<Found, AllocError>
        requires byte { byte_at cursor ≡ 93 }
        requires opened { AreOpen self.old.tokens.items self.old.brackets.stack.items }
        ensures found { IfOk result (λ found. IsFound (bare cursor.entry.content.now) found.kind cursor.entry.at (cursor.entry.at + found.size)) }
        ensures source { self.new.source.now ≡ self.old.source.now }
        ensures reach { OnOk result (ReachAsFar self.old.tokens.items self.new.tokens.items) }
        ensures opened { OnOk result (AreOpen self.new.tokens.items self.new.brackets.stack.items) }
        ensures on { IfOk result (λ found. is_found_on self.old.source.now.reading.now.options.constructs found.kind ≡ true) }
    {
        if !self.constructs().label_end {
            return Ok(Found::data(1));
        }
        let Some(bracket) = self.brackets.pop() else {
            return Ok(Found::data(1));
        };
        match label_end::scan(self.source, cursor, &bracket)? {
            Some(found) => self.close(&bracket, &found),
            None => Ok(Found::data(1)),
        }
    }

    /// Closes a bracket with what it makes. The only error is that memory ran out.
    fn close(&mut self, bracket: &Bracket, found: &Match) -> Result<Found, AllocError>
        requires closed { IsOpen self.old.tokens.items bracket.now }
        requires labelled { label_start found.now.labelled ≤ form_size bracket.now.form }
        requires opened { AreOpen self.old.tokens.items self.old.brackets.stack.items }
        requires on { is_label_on self.old.source.now.reading.now.options.constructs found.now.labelled ≡ true }
        ensures kind { IfOk result (λ token. token.kind ≡ Some (LabelEnd found.now.labelled found.now.target)) }
        ensures size { IfOk result (λ token. token.size ≡ found.now.size) }
        ensures source { self.new.source.now ≡ self.old.source.now }
        ensures reach { OnOk result (ReachAsFar self.old.tokens.items self.new.tokens.items) }
        ensures opened { OnOk result (AreOpen self.new.tokens.items self.new.brackets.stack.items) }
    {
        self.brackets.found(found.labelled);
        let alloc = self.source.reading.alloc;
        let size = self.source.bytes.len();
        self.attention.resolve(alloc, size, bracket.waiting)?;
        set_label(&mut self.tokens, bracket, found.labelled);
        let kind = TokenKind::LabelEnd(found.labelled, found.target);
        Ok(Found::token(kind, found.size))
    }

    /// Returns the autolink literal, or the data, that a letter begins.
    fn autolink_literal(&mut self, cursor: Cursor<'_>) -> Found
        requires content { cursor.content.now ≡ self.old.source.now.bytes.now }
        requires byte { byte_at cursor ≢ 10 }
        ensures exact { self.old.source.now.reading.now.options.constructs.gfm_autolink_literal ≡ true
            → MatchOption result.kind (HasNoExtendedAutolink (has_bracket self.old.brackets.stack.items) cursor.entry.content.now cursor.entry.at) (λ kind. IsExtendedAutolink (has_bracket self.old.brackets.stack.items) cursor.entry.content.now cursor.entry.at result.size) }
        ensures found { IsFound (bare cursor.entry.content.now) result.kind cursor.entry.at (cursor.entry.at + result.size) }
        ensures source { self.new.source.now ≡ self.old.source.now }
        ensures tokens { self.new.tokens ≡ self.old.tokens }
        ensures brackets { self.new.brackets ≡ self.old.brackets }
        ensures on { is_found_on self.old.source.now.reading.now.options.constructs result.kind ≡ true }
        ensures attention { self.new.attention ≡ self.old.attention }
        ensures later { HasNoLaterMarker cursor.entry.content.now cursor.entry.at result }
    {
        if !self.constructs().gfm_autolink_literal {
            return data(cursor, false);
        }
        let in_bracket = self.brackets.are_open();
        match gfm_autolink_literal::scan(cursor, in_bracket, &mut self.refused) {
            Some(found) => found,
            None => data(cursor, true),
        }
    }
}

/// Records what the label of a bracket belongs to.
fn set_label(tokens: &mut Vec<Token>, bracket: &Bracket, labelled: Labelled)
    requires opened { IsOpen tokens.old.items bracket.now }
    requires size { label_start labelled ≤ form_size bracket.now.form }
    ensures reach { ReachAsFar tokens.old.items tokens.new.items }
    ensures opened { (brackets : List Bracket) → AreOpen tokens.old.items brackets → AreOpen tokens.new.items brackets }
    ensures on { (c : Constructs) → is_label_on c labelled ≡ true → AreTokensOn c tokens.old.items → AreTokensOn c tokens.new.items }
{
    tokens[bracket.token].kind = TokenKind::LabelStart(Some(labelled));
}

/// Returns the data at the cursor, up to a byte that may begin something. With `literals`, an
/// extended autolink is something.
fn data(cursor: Cursor<'_>, literals: bool) -> Found
    requires { byte_at cursor ≢ 10 }
    ensures kind { result.kind ≡ None }
    ensures found { IsFound (bare cursor.entry.content.now) result.kind cursor.entry.at (cursor.entry.at + result.size) }
    ensures later { HasNoLaterMarker cursor.entry.content.now cursor.entry.at result }
    ensures literals { literals ≡ true → (in_bracket : Bool) → (k : ℕ) → cursor.entry.at < k → k < cursor.entry.at + result.size → HasNoExtendedAutolink in_bracket cursor.entry.content.now k }
{
    Found::data(1 + plain_length(cursor.rest(), literals))
}
