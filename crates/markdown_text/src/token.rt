//! Tokens: what the first pass over a text finds, in order.

ghost use Rattle.std.specs.Prelude.{None, Some, ◌≡◌, ◌<◌};

use crate::character_reference::ReferenceKind;
use crate::resource::Resource;
use markdown_events::event::Name;

/// What a label belongs to (CommonMark, GFM).
#[derive(Clone, Copy, PartialEq, Eq)]
pub enum Labelled {
    /// A link: `[a](b)`.
    Link,
    /// An image: `![a](b)`.
    Image,
    /// A call of a footnote: `[^a]`.
    FootnoteCall,
}

impl Labelled {
    ghost use Rattle.markdown_text.specs.Opens.{label_start_name, labelled_name};
    ghost use Rattle.markdown_text.specs.Tokens.{has_target, label_start};

    /// Returns the name of its span.
    pub fn name(self) -> Name
        ensures { result ≡ labelled_name self }
    {
        match self {
            Labelled::Link => Name::Link,
            Labelled::Image => Name::Image,
            Labelled::FootnoteCall => Name::GfmFootnoteCall,
        }
    }

    /// Returns the name of the span of the signs that begin its label.
    pub fn start_name(self) -> Name
        ensures { result ≡ label_start_name self }
    {
        match self {
            Labelled::Link => Name::LabelLink,
            Labelled::Image => Name::LabelImage,
            Labelled::FootnoteCall => Name::GfmFootnoteCallLabel,
        }
    }

    /// Returns how many bytes are written at the start of its label.
    pub fn start_size(self) -> usize
        ensures { result ≡ label_start self }
    {
        match self {
            Labelled::Link => 1,
            Labelled::Image => 2,
            Labelled::FootnoteCall => 2,
        }
    }

    /// Whether a target comes after its label.
    pub fn has_target(self) -> bool
        ensures { result ≡ has_target self }
    {
        match self {
            Labelled::Link | Labelled::Image => true,
            Labelled::FootnoteCall => false,
        }
    }
}

/// What comes after the label of a link or an image (CommonMark).
#[derive(Clone, Copy)]
pub enum Target {
    /// Nothing: the label itself is the reference.
    Shortcut,
    /// An empty label: `[]`.
    Collapsed,
    /// A label: `[b]`.
    Full,
    /// A resource: `(b "c")`.
    Resource(Resource),
}

/// What a token is.
#[derive(Clone, Copy)]
pub enum TokenKind {
    /// A line ending.
    LineEnding,
    /// A backslash and the line ending after it.
    HardBreakEscape,
    /// A backslash and the character after it.
    CharacterEscape,
    /// A character reference.
    CharacterReference(ReferenceKind),
    /// Code, with the number of backticks in each of its sequences.
    CodeText(usize),
    /// Math, with the number of dollars in each of its sequences.
    MathText(usize),
    /// An autolink, with the name of the address in it: `Name::AutolinkProtocol` or
    /// `Name::AutolinkEmail`.
    Autolink(Name),
    /// HTML.
    HtmlText,
    /// An autolink literal, with its name.
    AutolinkLiteral(Name),
    /// A run of asterisks, underscores or tildes.
    Attention,
    /// The start of a label, with what the label belongs to, once that is known.
    LabelStart(Option<Labelled>),
    /// The end of a label, with what the label belongs to and what comes after it.
    LabelEnd(Labelled, Target),
    /// The mark of a task, and whether it is checked.
    TaskListItemCheck(bool),
}

/// A construct that a text begins with, or data.
#[derive(Clone, Copy)]
pub struct Found {
    /// What it is. `None` is data.
    pub kind: Option<TokenKind>,
    /// Its length in bytes.
    pub size: usize,
    ghost filled: { 0 < size },
}

impl Found {
    /// Returns a construct of `size` bytes.
    pub fn token(kind: TokenKind, size: usize) -> Found
        requires { 0 < size }
        ensures size { result.size ≡ size }
        ensures kind { result.kind ≡ Some kind }
    {
        Found {
            kind: Some(kind),
            size,
        }
    }

    /// Returns `size` bytes of data.
    pub fn data(size: usize) -> Found
        requires { 0 < size }
        ensures size { result.size ≡ size }
        ensures kind { result.kind ≡ None }
    {
        Found { kind: None, size }
    }
}

/// A construct in a text. The bytes between two tokens are data.
#[derive(Clone, Copy)]
pub struct Token {
    /// What it is.
    pub kind: TokenKind,
    /// The offset in the content where it begins.
    pub start: usize,
    /// The offset in the content where it ends.
    pub end: usize,
    ghost filled: { start < end },
}
