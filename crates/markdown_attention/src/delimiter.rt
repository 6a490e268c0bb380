//! What the delimiters of a content make.

ghost use Rattle.std.specs.Prelude.{◌≡◌};
ghost use Rattle.markdown_attention.specs.Emphasis.{kind_size};

/// What a pair of sequences of markers makes.
#[derive(Clone, Copy, PartialEq, Eq, Debug)]
pub enum AttentionKind {
    /// Emphasis: `*a*`.
    Emphasis,
    /// Strong emphasis: `**a**`.
    Strong,
    /// Strikethrough with single tildes: `~a~`.
    Strikethrough,
    /// Strikethrough with double tildes: `~~a~~`.
    DoubleStrikethrough,
}

impl AttentionKind {
    /// Returns how many markers each of its sequences has.
    ///
    /// Strong emphasis has 2.
    pub fn size(self) -> usize
        ensures { result ≡ kind_size self }
    {
        match self {
            AttentionKind::Emphasis | AttentionKind::Strikethrough => 1,
            AttentionKind::Strong | AttentionKind::DoubleStrikethrough => 2,
        }
    }
}

/// What begins at a marker of a run. All markers of a sequence but the first are `Data`.
#[derive(Clone, Copy, PartialEq, Eq, Debug)]
pub enum Delimiter {
    /// Nothing: it is data, or continues a sequence.
    Data,
    /// A sequence that opens this.
    Opening(AttentionKind),
    /// A sequence that closes this.
    Closing(AttentionKind),
}
