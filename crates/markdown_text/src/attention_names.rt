//! The names of the spans of attention (micromark).

ghost use Rattle.std.specs.Prelude.{◌≡◌};
ghost use Rattle.markdown_text.specs.Opens.{group_name, sequence_name, text_name};

use markdown_attention::delimiter::AttentionKind;
use markdown_events::event::Name;

/// Returns the name of the span of all of it.
pub fn group_name(kind: AttentionKind) -> Name
    ensures { result ≡ group_name kind }
{
    match kind {
        AttentionKind::Emphasis => Name::Emphasis,
        AttentionKind::Strong => Name::Strong,
        AttentionKind::Strikethrough | AttentionKind::DoubleStrikethrough => Name::GfmStrikethrough,
    }
}

/// Returns the name of the span of a sequence at either end.
pub fn sequence_name(kind: AttentionKind) -> Name
    ensures { result ≡ sequence_name kind }
{
    match kind {
        AttentionKind::Emphasis => Name::EmphasisSequence,
        AttentionKind::Strong => Name::StrongSequence,
        AttentionKind::Strikethrough | AttentionKind::DoubleStrikethrough => {
            Name::GfmStrikethroughSequence
        }
    }
}

/// Returns the name of the span between its sequences.
pub fn text_name(kind: AttentionKind) -> Name
    ensures { result ≡ text_name kind }
{
    match kind {
        AttentionKind::Emphasis => Name::EmphasisText,
        AttentionKind::Strong => Name::StrongText,
        AttentionKind::Strikethrough | AttentionKind::DoubleStrikethrough => {
            Name::GfmStrikethroughText
        }
    }
}
