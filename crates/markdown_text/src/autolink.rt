//! Autolinks (CommonMark): addresses in angle brackets.

ghost use Rattle.std.specs.Prelude.{◌≡◌, IfSome, MatchOption, OnOk, drop, true, is_some};
ghost use Rattle.commonmark_syntax.specs.Inlines.{email_autolink, uri_autolink};
ghost use Rattle.commonmark_syntax.specs.Language.{IsNotAt};
ghost use Rattle.markdown_options.specs.declared.Constructs.{Constructs};
ghost use Rattle.markdown_text.specs.AttentionEvents.{attention_of};
ghost use Rattle.markdown_text.specs.Constructs.{is_found_on};
ghost use Rattle.markdown_text.specs.Outputs.{Stands, WritesTo, bytes_of, AtInlines, KeepsInlines, constructs_of};
ghost use Rattle.markdown_text.specs.Texts.{bare};
ghost use Rattle.markdown_text.specs.Tokens.{IsFound, IsAutolink, LeavesAutolink};

use crate::output::{Next, Output};
use crate::token::{Found, TokenKind};
use character_references::references::References;
use commonmark_syntax::{email_autolink, uri_autolink};
use event_writer::sink::Sink;
use markdown_events::event::Name;
use std::alloc::AllocError;

/// Returns the autolink that a text begins with: an address with a scheme, or an email address.
pub fn scan(text: &[u8]) -> Option<Found>
    ensures exact { MatchOption result (IsNotAt uri_autolink text.now × IsNotAt email_autolink text.now) (λ found. LeavesAutolink text.now found.kind (drop found.size text.now)) }
    ensures found { IfSome result (λ found. IsFound (bare text.now) found.kind 0 found.size) }
    ensures on { IfSome result (λ found. (c : Constructs) → c.autolink ≡ true → is_found_on c found.kind ≡ true) }
    ensures token { IfSome result (λ found. is_some found.kind ≡ true) }
{
    if let Some(size) = uri_autolink::scan(text) {
        return Some(Found::token(TokenKind::Autolink(Name::AutolinkProtocol), size));
    }
    let size = email_autolink::scan(text)?;
    Some(Found::token(TokenKind::Autolink(Name::AutolinkEmail), size))
}

/// Writes an autolink that ends at an offset, with the name of the address in it.
pub fn write<R: References, S: Sink>(
    output: &mut Output<'_, '_, R, S>,
    address: Name,
    end: usize,
) -> Result<(), AllocError>
    requires stands { Stands output.old }
    requires autolink { IsAutolink (bytes_of output.old) address output.old.data end }
    requires inlines { AtInlines output.old }
    requires on { (constructs_of output.old).autolink ≡ true }
    ensures given { output.new.writer.value.given ≡ output.old.writer.value.given }
    ensures writes { OnOk result (WritesTo output.old output.new end) }
    ensures at { KeepsInlines result output.old output.new }
    ensures attention { OnOk result (attention_of output.new ≡ attention_of output.old) }
{
    output.flush(Next::Span)?;
    output.enter(Name::Autolink)?;
    output.token(Name::AutolinkMarker, 1)?;
    output.token_to(address, end - 1)?;
    output.token(Name::AutolinkMarker, 1)?;
    output.exit()
}
