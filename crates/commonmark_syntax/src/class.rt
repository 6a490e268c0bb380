//! Classes of bytes, as on the page of the syntax.

ghost use Rattle.std.specs.Int.{bit_at};
ghost use Rattle.std.specs.Prelude.{◌≡◌, ◌≤◌, ◌<◌, ◌==◌, ℕ, Bool, codes, cond, false, length, refl, slice_index};
ghost use Rattle.commonmark_syntax.specs.Blocks as blocks;
ghost use Rattle.commonmark_syntax.specs.EmailLiterals as literals;
ghost use Rattle.commonmark_syntax.specs.ExtendedAutolinks as extended;
ghost use Rattle.commonmark_syntax.specs.Inlines as inlines;
ghost use Rattle.commonmark_syntax.specs.Parentheses as parentheses;
ghost use Rattle.commonmark_syntax.specs.Syntax as page;

use crate::bytes::is_control;
use std::simd::prelude::*;

/// A class of bytes.
pub trait Class {
    ghost class: { ℕ → Bool };

    /// Whether a byte is in the class.
    fn has(byte: u8) -> bool
        ensures { result ≡ class byte };
}

/// A class of bytes that stand for themselves where a backslash escapes, so that it has no
/// backslash. 16 bytes are tested at a time.
pub trait PlainClass: Class {
    /// Returns a number with a bit for each of the first 16 bytes of a text, which is set where the
    /// byte is not in the class.
    fn others(text: &[u8]) -> u64
        requires { 16 ≤ length text.now }
        ensures { (k : ℕ) → k < 16 → bit_at result k ≡ cond (Self.class (slice_index text.now k)) 0 1 };

    ghost no_backslash: { Self.class 92 ≡ false };
}

/// ASCII letters.
pub struct Letter;

impl Class for Letter {
    ghost class = { page.is_letter };

    fn has(byte: u8) -> bool {
        byte.is_ascii_alphabetic()
    }
}

/// Spaces and tabs.
pub struct Blank;

impl Class for Blank {
    ghost class = { page.is_blank };

    fn has(byte: u8) -> bool {
        byte == b' ' || byte == b'\t'
    }
}

/// The bytes of a tag name, after its first.
pub struct OfTagName;

impl Class for OfTagName {
    ghost class = { page.is_of_tag_name };

    fn has(byte: u8) -> bool {
        byte.is_ascii_alphanumeric() || byte == b'-'
    }
}

/// The bytes that an attribute name may begin with.
pub struct BeginsAttributeName;

impl Class for BeginsAttributeName {
    ghost class = { page.begins_attribute_name };

    fn has(byte: u8) -> bool {
        byte.is_ascii_alphabetic() || byte == b'_' || byte == b':'
    }
}

/// The bytes of an attribute name, after its first.
pub struct OfAttributeName;

impl Class for OfAttributeName {
    ghost class = { page.is_of_attribute_name };

    fn has(byte: u8) -> bool {
        BeginsAttributeName::has(byte) || byte.is_ascii_digit() || matches!(byte, b'.' | b'-')
    }
}

/// The bytes of a value without quotes.
pub struct Unquoted;

impl Class for Unquoted {
    ghost class = { page.is_unquoted };

    fn has(byte: u8) -> bool {
        !matches!(
            byte,
            b' ' | b'\t' | b'\n' | b'"' | b'\'' | b'=' | b'<' | b'>' | b'`'
        )
    }
}

/// All bytes.
pub struct AnyByte;

impl Class for AnyByte {
    ghost class = { page.is_any };

    fn has(byte: u8) -> bool {
        let _ = byte;
        true
    }
}

/// All bytes except line endings.
pub struct InLine;

impl Class for InLine {
    ghost class = { page.in_line };

    fn has(byte: u8) -> bool {
        byte != b'\n'
    }
}

/// The bytes of a title between double quotes that stand for themselves.
pub struct InDoubleQuotes;

impl Class for InDoubleQuotes {
    ghost class = { page.in_double_quotes };

    fn has(byte: u8) -> bool {
        !matches!(byte, b'"' | b'\\')
    }
}

impl PlainClass for InDoubleQuotes {
    ghost no_backslash = { refl };

    #[inline(always)]
    fn others(text: &[u8]) -> u64 {
        let bytes = u8x16::from_slice(text);
        let others = bytes.simd_eq(u8x16::splat(b'"')) | bytes.simd_eq(u8x16::splat(b'\\'));
        others.to_bitmask()
    }
}

/// The bytes of a title between single quotes that stand for themselves.
pub struct InSingleQuotes;

impl Class for InSingleQuotes {
    ghost class = { page.in_single_quotes };

    fn has(byte: u8) -> bool {
        !matches!(byte, b'\'' | b'\\')
    }
}

impl PlainClass for InSingleQuotes {
    ghost no_backslash = { refl };

    #[inline(always)]
    fn others(text: &[u8]) -> u64 {
        let bytes = u8x16::from_slice(text);
        let others = bytes.simd_eq(u8x16::splat(b'\'')) | bytes.simd_eq(u8x16::splat(b'\\'));
        others.to_bitmask()
    }
}

/// The bytes of a title between parentheses that stand for themselves.
pub struct InParentheses;

impl Class for InParentheses {
    ghost class = { page.in_parentheses };

    fn has(byte: u8) -> bool {
        !matches!(byte, b'(' | b')' | b'\\')
    }
}

impl PlainClass for InParentheses {
    ghost no_backslash = { refl };

    #[inline(always)]
    fn others(text: &[u8]) -> u64 {
        let bytes = u8x16::from_slice(text);
        let others = bytes.simd_eq(u8x16::splat(b'('))
            | bytes.simd_eq(u8x16::splat(b')'))
            | bytes.simd_eq(u8x16::splat(b'\\'));
        others.to_bitmask()
    }
}

/// The bytes of a label that stand for themselves.
pub struct InBrackets;

impl Class for InBrackets {
    ghost class = { page.in_brackets };

    fn has(byte: u8) -> bool {
        !matches!(byte, b'[' | b']' | b'\\')
    }
}

impl PlainClass for InBrackets {
    ghost no_backslash = { refl };

    #[inline(always)]
    fn others(text: &[u8]) -> u64 {
        let bytes = u8x16::from_slice(text);
        let others = bytes.simd_eq(u8x16::splat(b'['))
            | bytes.simd_eq(u8x16::splat(b']'))
            | bytes.simd_eq(u8x16::splat(b'\\'));
        others.to_bitmask()
    }
}

/// The bytes of a destination between angle brackets that stand for themselves.
pub struct InAngleBrackets;

impl Class for InAngleBrackets {
    ghost class = { page.in_angle_brackets };

    fn has(byte: u8) -> bool {
        !matches!(byte, b'\n' | b'<' | b'>' | b'\\')
    }
}

impl PlainClass for InAngleBrackets {
    ghost no_backslash = { refl };

    #[inline(always)]
    fn others(text: &[u8]) -> u64 {
        let bytes = u8x16::from_slice(text);
        let others = bytes.simd_eq(u8x16::splat(b'\n'))
            | bytes.simd_eq(u8x16::splat(b'<'))
            | bytes.simd_eq(u8x16::splat(b'>'))
            | bytes.simd_eq(u8x16::splat(b'\\'));
        others.to_bitmask()
    }
}

/// The bytes of a destination without angle brackets that stand for themselves.
pub struct InDestination;

impl Class for InDestination {
    ghost class = { parentheses.is_plain };

    fn has(byte: u8) -> bool {
        !is_control(byte) && !matches!(byte, b' ' | b'(' | b')' | b'\\')
    }
}

impl PlainClass for InDestination {
    ghost no_backslash = { refl };

    #[inline(always)]
    fn others(text: &[u8]) -> u64 {
        let bytes = u8x16::from_slice(text);
        let stops = (bytes - u8x16::splat(1)).simd_lt(u8x16::splat(32));
        let parentheses = (bytes - u8x16::splat(b'(')).simd_lt(u8x16::splat(2));
        let others = stops
            | parentheses
            | bytes.simd_eq(u8x16::splat(b'\\'))
            | bytes.simd_eq(u8x16::splat(127));
        others.to_bitmask()
    }
}

/// ASCII letters and digits.
pub struct Alphanumeric;

impl Class for Alphanumeric {
    ghost class = { page.is_alphanumeric };

    fn has(byte: u8) -> bool {
        byte.is_ascii_alphanumeric()
    }
}

/// The bytes of a scheme, after its first.
pub struct OfScheme;

impl Class for OfScheme {
    ghost class = { inlines.is_of_scheme };

    fn has(byte: u8) -> bool {
        byte.is_ascii_alphanumeric() || matches!(byte, b'+' | b'.' | b'-')
    }
}

/// The bytes of a URI in angle brackets, after its scheme.
pub struct OfUri;

impl Class for OfUri {
    ghost class = { inlines.is_of_uri };

    fn has(byte: u8) -> bool {
        !is_control(byte) && !matches!(byte, b' ' | b'<' | b'>')
    }
}

/// The bytes of an email address in angle brackets, before its at sign.
pub struct OfLocalPart;

impl Class for OfLocalPart {
    ghost class = { inlines.is_of_local_part };

    fn has(byte: u8) -> bool {
        byte.is_ascii_alphanumeric() || is_mark_of_local_part(byte)
    }
}

/// Whether a byte is one of the marks that may occur before the at sign of an email address.
fn is_mark_of_local_part(byte: u8) -> bool
    ensures { result ≡ page.is_one_of (codes ".!#$%&'*+/=?^_`{|}~-") byte }
{
    matches!(
        byte,
        b'.' | b'!'
            | b'#'
            | b'$'
            | b'%'
            | b'&'
            | b'\''
            | b'*'
            | b'+'
            | b'/'
            | b'='
            | b'?'
            | b'^'
            | b'_'
            | b'`'
            | b'{'
            | b'|'
            | b'}'
            | b'~'
            | b'-'
    )
}

/// The bytes of a label of a domain.
pub struct OfDomainLabel;

impl Class for OfDomainLabel {
    ghost class = { inlines.is_of_domain_label };

    fn has(byte: u8) -> bool {
        byte.is_ascii_alphanumeric() || byte == b'-'
    }
}

/// ASCII digits.
pub struct Digit;

impl Class for Digit {
    ghost class = { page.is_digit };

    fn has(byte: u8) -> bool {
        byte.is_ascii_digit()
    }
}

/// ASCII hexadecimal digits.
pub struct Hexadecimal;

impl Class for Hexadecimal {
    ghost class = { page.is_hexadecimal };

    fn has(byte: u8) -> bool {
        byte.is_ascii_hexdigit()
    }
}

/// The letters that mark a number as hexadecimal.
pub struct X;

impl Class for X {
    ghost class = { inlines.is_x };

    fn has(byte: u8) -> bool {
        matches!(byte, b'x' | b'X')
    }
}

/// ASCII punctuation.
pub struct Punctuation;

impl Class for Punctuation {
    ghost class = { inlines.is_punctuation };

    fn has(byte: u8) -> bool {
        byte.is_ascii_punctuation()
    }
}

/// White space (GFM).
pub struct WhiteSpace;

impl Class for WhiteSpace {
    ghost class = { inlines.is_gfm_white_space };

    fn has(byte: u8) -> bool {
        matches!(byte, b'\t'..=b'\r' | b' ')
    }
}

/// The marks that an extended autolink does not end with.
pub struct Trailing;

impl Class for Trailing {
    ghost class = { extended.is_trailing };

    fn has(byte: u8) -> bool {
        matches!(
            byte,
            b'?' | b'!' | b'.' | b',' | b':' | b'*' | b'_' | b'~' | b'"' | b'\'' | b';'
        )
    }
}

/// The bytes of the local part of an email literal.
pub struct OfLiteralLocal;

impl Class for OfLiteralLocal {
    ghost class = { literals.is_of_literal_local };

    fn has(byte: u8) -> bool {
        byte.is_ascii_alphanumeric() || matches!(byte, b'+' | b'-' | b'.' | b'_')
    }
}

/// The bytes of a segment of a domain.
pub struct OfSegment;

impl Class for OfSegment {
    ghost class = { literals.is_of_segment };

    fn has(byte: u8) -> bool {
        byte.is_ascii_alphanumeric() || matches!(byte, b'-' | b'_')
    }
}

/// The bytes of a segment of a domain, and slashes.
pub struct OfResource;

impl Class for OfResource {
    ghost class = { literals.is_of_resource };

    fn has(byte: u8) -> bool {
        OfSegment::has(byte) || byte == b'/'
    }
}

/// The bytes that the mark of a task may contain.
pub struct TaskValue;

impl Class for TaskValue {
    ghost class = { inlines.is_task_value };

    fn has(byte: u8) -> bool {
        WhiteSpace::has(byte) || X::has(byte)
    }
}

/// The digit zero.
pub struct Zero;

impl Class for Zero {
    ghost class = { λ c. c == 48 };

    fn has(byte: u8) -> bool {
        byte == b'0'
    }
}

/// The markers of items of bullet lists.
pub struct Bullet;

impl Class for Bullet {
    ghost class = { blocks.is_bullet };

    fn has(byte: u8) -> bool {
        matches!(byte, b'*' | b'+' | b'-')
    }
}

/// The delimiters after the numbers of items of ordered lists.
pub struct Delimiter;

impl Class for Delimiter {
    ghost class = { blocks.is_delimiter };

    fn has(byte: u8) -> bool {
        matches!(byte, b'.' | b')')
    }
}

/// The hyphen.
pub struct Hyphen;

impl Class for Hyphen {
    ghost class = { λ c. c == 45 };

    fn has(byte: u8) -> bool {
        byte == b'-'
    }
}

/// The bytes that a backslash escapes in the label of a footnote.
pub struct TakenInFootnote;

impl Class for TakenInFootnote {
    ghost class = { blocks.is_taken };

    fn has(byte: u8) -> bool {
        matches!(byte, b'[' | b']' | b'\\')
    }
}

/// The bytes of the label of a footnote that stand for themselves.
pub struct InFootnote;

impl Class for InFootnote {
    ghost class = { blocks.in_footnote };

    fn has(byte: u8) -> bool {
        !matches!(byte, b'[' | b']' | b'\\' | b' ' | b'\t' | b'\n')
    }
}
