//! A cursor in a content.

ghost use Rattle.std.specs.Prelude.{◌≡◌, ◌≢◌, ◌≤◌, ◌<◌, ◌+◌, ◌-◌, drop, length, slice_index};
ghost use Rattle.commonmark_syntax.specs.Cuts.{IsCut, IsRunOf};
ghost use Rattle.commonmark_syntax.specs.Inlines.{delimiter_run};
ghost use Rattle.commonmark_syntax.specs.Language.{Leaves};
ghost use Rattle.markdown_text.specs.Contents.{IsAsciiPart};

use commonmark_syntax::bytes::after;
use commonmark_syntax::delimiter_run;

/// A byte of a content, and the bytes around it. No character extends across its start.
#[derive(Clone, Copy)]
pub struct Cursor<'c> {
    /// The bytes of the content.
    pub content: &'c [u8],
    /// The offset of the byte.
    pub at: usize,
    ghost within: { at < length content.now },
    ghost cut: { IsCut content.now at },
}

impl<'c> Cursor<'c> {
    ghost use Rattle.markdown_text.specs.Cursors.{before_of, byte_at, bytes_from, rest_of, through};

    /// Returns the byte.
    pub fn byte(&self) -> u8
        ensures { result ≡ byte_at self.now }
    {
        self.content[self.at]
    }

    /// Returns the bytes before it.
    pub fn before(&self) -> &'c [u8]
        ensures { result.now ≡ before_of self.now }
    {
        &self.content[..self.at]
    }

    /// Returns the bytes up to it, and the byte itself.
    pub fn through(&self) -> &'c [u8]
        ensures { result.now ≡ through self.now }
    {
        &self.content[..self.at + 1]
    }

    /// Returns the bytes from it on.
    pub fn rest(&self) -> &'c [u8]
        ensures length { length result.now ≡ bytes_from self.now }
        ensures rest { result.now ≡ rest_of self.now }
    {
        after(self.content, self.at)
    }

    /// Returns the length of the run that the byte begins: all bytes in a row that equal it.
    pub fn run_length(&self) -> usize
        ensures exact { Leaves (delimiter_run (byte_at self.now)) (rest_of self.now) (drop result (rest_of self.now)) }
        ensures run { IsRunOf (rest_of self.now) (byte_at self.now) result }
        ensures most { result ≤ bytes_from self.now }
        ensures least { 0 < result }
        ensures next { self.now.at + result < length self.now.content.now → slice_index self.now.content.now (self.now.at + result) ≢ byte_at self.now }
        ensures part { byte_at self.now < 128 → byte_at self.now ≢ 10 → IsAsciiPart self.now.content.now self.now.at (self.now.at + result) }
    {
        delimiter_run::size(self.rest())
    }
}
