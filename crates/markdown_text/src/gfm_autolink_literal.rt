//! Autolink literals that begin with `www.`, `http://`, `https://` or `ftp://` (GFM).

ghost use Rattle.std.specs.Prelude.{◌≡◌, ◌+◌, ◌⊎◌, IfSome, MatchOption, is_some, true};
ghost use Rattle.std.specs.Str.{IsUtf8};
ghost use Rattle.markdown_attention.specs.ExtendedAddresses.{HasNoExtendedAutolink, IsExtendedAutolink, IsRefused, may_come_before, may_come_before_www, may_follow};
ghost use Rattle.markdown_events.specs.declared.event.Name.TheVariants.{GfmAutolinkLiteralProtocol, GfmAutolinkLiteralWww};
ghost use Rattle.markdown_options.specs.declared.Constructs.{Constructs};
ghost use Rattle.markdown_text.specs.Constructs.{is_found_on};
ghost use Rattle.markdown_text.specs.Texts.{bare};
ghost use Rattle.markdown_text.specs.Tokens.{IsFound};

use crate::cursor::Cursor;
use crate::token::{Found, TokenKind};
use crate::whitespace::is_white_space;
use commonmark_syntax::extended_autolink_start;
use markdown_attention::extended_autolink_address::{self, RefusedDomain};
use markdown_events::event::Name;

/// Returns the autolink literal that begins at the cursor. With `in_bracket` a bracket is open
/// there, which a closing bracket after the literal may close.
///
/// If its domain is refused for an underscore, that is stored in `refused`.
pub fn scan(cursor: Cursor<'_>, in_bracket: bool, refused: &mut RefusedDomain) -> Option<Found>
    requires refused { IsRefused cursor.content.now refused.old }
    ensures refused { IsRefused cursor.entry.content.now refused.new }
    ensures exact { IsUtf8 cursor.entry.content.now → MatchOption result (HasNoExtendedAutolink in_bracket cursor.entry.content.now cursor.entry.at) (λ found. IsExtendedAutolink in_bracket cursor.entry.content.now cursor.entry.at found.size) }
    ensures found { IfSome result (λ found. IsFound (bare cursor.entry.content.now) found.kind cursor.entry.at (cursor.entry.at + found.size)) }
    ensures token { IfSome result (λ found. is_some found.kind ≡ true) }
    ensures on { IfSome result (λ found. (c : Constructs) → c.gfm_autolink_literal ≡ true → is_found_on c found.kind ≡ true) }
{
    if !may_follow(cursor.byte(), cursor.before()) {
        return None;
    }
    let start = extended_autolink_start::scan(cursor.rest())?;
    let at = cursor.at + start;
    let size = extended_autolink_address::scan(cursor.content, at, in_bracket, refused)?;
    let name = name_of(cursor.byte());
    Some(Found::token(TokenKind::AutolinkLiteral(name), start + size))
}

/// Returns the name of a literal that begins with this byte.
fn name_of(first: u8) -> Name
    ensures { (result ≡ GfmAutolinkLiteralProtocol) ⊎ (result ≡ GfmAutolinkLiteralWww) }
{
    match first {
        b'w' | b'W' => Name::GfmAutolinkLiteralWww,
        _ => Name::GfmAutolinkLiteralProtocol,
    }
}

/// Whether a literal with this first byte may follow a text.
fn may_follow(first: u8, before: &[u8]) -> bool
    ensures { result ≡ may_follow first before.now }
{
    match before {
        [.., last] => may_come_before(first, *last),
        [] => true,
    }
}

/// Whether a byte may come before a literal with this first byte: GFM's rule before `www.`, and any
/// byte but a letter before a scheme (micromark).
pub fn may_come_before(first: u8, before: u8) -> bool
    ensures { result ≡ may_come_before first before }
{
    match first {
        b'w' | b'W' => may_come_before_www(before),
        _ => !before.is_ascii_alphabetic(),
    }
}

/// Whether a byte may come before `www.`.
fn may_come_before_www(byte: u8) -> bool
    ensures { result ≡ may_come_before_www byte }
{
    is_white_space(byte) || matches!(byte, b'*' | b'_' | b'~' | b'(')
}
