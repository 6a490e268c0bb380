//! Runs of delimiters (CommonMark).

ghost use Rattle.std.specs.Prelude.{◌≡◌, ◌≤◌, ◌<◌, ◌+◌, ◌-◌};

use crate::delimiter::AttentionKind;
use crate::flanks::Flanks;

/// A run of delimiters. Closing sequences are taken from its start, and opening ones from its end.
#[derive(Clone, Copy, PartialEq, Eq, Debug)]
pub struct Run {
    /// The byte of its markers.
    marker: u8,
    /// The offset where it begins.
    start: usize,
    /// The offset where it ends.
    end: usize,
    /// How many markers close something.
    closing: usize,
    /// How many markers open something.
    opening: usize,
    /// Whether it can open something.
    can_open: bool,
    /// Whether it can close something.
    can_close: bool,
    ghost ordered: { start ≤ end },
    ghost within: { closing + opening ≤ end - start },
}

impl Run {
    ghost use Rattle.markdown_attention.specs.Emphasis.{closed, goes_with, kind_with, opened};
    ghost use Rattle.markdown_attention.specs.Flanking as page;
    ghost use Rattle.markdown_attention.specs.Openers.{class_of};
    ghost use Rattle.markdown_attention.specs.Runs.{IsWhole, view};

    /// Returns the run of a marker from one offset to another. Its flanks say what it can open and
    /// close.
    ///
    /// The run from 0 to 1 in `*a` can open something.
    pub fn new(marker: u8, start: usize, end: usize, flanks: Flanks) -> Run
        requires { start ≤ end }
        ensures { IsWhole (view result) marker start (end - start) (page.can_open marker flanks.before flanks.after) (page.can_close marker flanks.before flanks.after) }
    {
        Run {
            marker,
            start,
            end,
            closing: 0,
            opening: 0,
            can_open: flanks.can_open(marker),
            can_close: flanks.can_close(marker),
        }
    }

    /// Whether it can open something.
    pub(crate) fn can_open(&self) -> bool
        ensures { result ≡ (view self.now).can_open }
    {
        self.can_open
    }

    /// Whether it can close something.
    pub(crate) fn can_close(&self) -> bool
        ensures { result ≡ (view self.now).can_close }
    {
        self.can_close
    }

    /// Returns how many markers it has.
    pub(crate) fn size(&self) -> usize
        ensures { result ≡ self.now.end - self.now.start }
    {
        self.end - self.start
    }

    /// Returns how many markers are not taken yet.
    pub(crate) fn left(&self) -> usize
        ensures { result ≡ self.now.end - self.now.start - (self.now.closing + self.now.opening) }
    {
        self.size() - (self.closing + self.opening)
    }

    /// Whether this run, as the opening one, goes with a closing one (CommonMark, the rule of three; GFM,
    /// tildes of the same number).
    pub(crate) fn goes_with(&self, closer: &Run) -> bool
        ensures { result ≡ goes_with (view self.now) (view closer.now) }
    {
        if self.marker != closer.marker {
            return false;
        }
        if self.marker == b'~' {
            return self.size() == closer.size();
        }
        !(self.can_close || closer.can_open)
            || closer.size() % 3 == 0
            || (self.size() % 3 + closer.size() % 3) % 3 != 0
    }

    /// Returns what this run, as the opening one, makes with a closing one.
    pub(crate) fn kind_with(&self, closer: &Run) -> AttentionKind
        ensures { result ≡ kind_with (view self.now) (view closer.now) }
    {
        let is_double = self.left() > 1 && closer.left() > 1;
        match (self.marker, is_double) {
            (b'~', true) => AttentionKind::DoubleStrikethrough,
            (b'~', false) => AttentionKind::Strikethrough,
            (_, true) => AttentionKind::Strong,
            (_, false) => AttentionKind::Emphasis,
        }
    }

    /// Takes this number of markers that close something, and returns the offset where they begin.
    pub(crate) fn close(&mut self, size: usize) -> usize
        requires { size ≤ self.old.end - self.old.start - (self.old.closing + self.old.opening) }
        ensures run { view self.new ≡ closed size (view self.old) }
        ensures at { result ≡ (view self.old).first }
    {
        let at = self.start + self.closing;
        self.closing += size;
        at
    }

    /// Takes this number of markers that open something, and returns the offset where they begin.
    pub(crate) fn open(&mut self, size: usize) -> usize
        requires { size ≤ self.old.end - self.old.start - (self.old.closing + self.old.opening) }
        ensures run { view self.new ≡ opened size (view self.old) }
        ensures at { result ≡ (view self.old).first + ((view self.old).left - size) }
    {
        self.opening += size;
        self.end - self.opening
    }

    /// Returns the class of this run among closing ones: an opening run goes with all runs of a
    /// class, or with none.
    pub(crate) fn class(&self) -> usize
        ensures class { result ≡ class_of (view self.now) }
        ensures most { result < 14 }
    {
        let length = self.size() % 3 + if self.can_open { 3 } else { 0 };
        match self.marker {
            b'~' => self.size() % 2,
            b'_' => 2 + length,
            _ => 8 + length,
        }
    }
}
