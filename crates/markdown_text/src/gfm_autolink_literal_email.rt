//! Autolink literals that are email addresses (GFM), which are found in data.

ghost use Rattle.std.specs.Prelude.{IfSome, MatchOption, OnOk, slice_range, ℕ, ◌≡◌, true};
ghost use Rattle.commonmark_syntax.specs.EmailLiterals.{HasNoLiteral};
ghost use Rattle.markdown_text.specs.Addresses.{IsAddress, IsAddressName, IsFirstAddress, address_name};
ghost use Rattle.markdown_text.specs.AttentionEvents.{attention_of};
ghost use Rattle.markdown_text.specs.Contents.{IsPart};
ghost use Rattle.markdown_text.specs.Outputs.{AtInlines, GoesOn, KeepsInlines, Stands, WritesTo, bytes_of, constructs_of};

use crate::output::Output;
use character_references::references::References;
use commonmark_syntax::email_literal::{self, Kind};
use event_writer::sink::Sink;
use markdown_events::event::Name;
use std::alloc::AllocError;

/// An address in a text.
#[derive(Clone, Copy)]
struct Address {
    /// The name of its span.
    name: Name,
    /// The offset in the text where it begins.
    start: usize,
    /// The offset in the text where it ends.
    end: usize,
}

/// Writes data up to an offset, with the addresses in it.
pub fn write<R: References, S: Sink>(
    output: &mut Output<'_, '_, R, S>,
    end: usize,
) -> Result<(), AllocError>
    requires stands { Stands output.old }
    requires part { IsPart (bytes_of output.old) output.old.at end }
    requires inlines { AtInlines output.old }
    requires on { (constructs_of output.old).gfm_autolink_literal ≡ true }
    ensures given { output.new.writer.value.given ≡ output.old.writer.value.given }
    ensures writes { OnOk result (WritesTo output.old output.new end) }
    ensures at { KeepsInlines result output.old output.new }
    ensures attention { OnOk result (attention_of output.new ≡ attention_of output.old) }
{
    for _ in output.at()..end {
        let Some(address) = find(output.rest_to(end)) else {
            break;
        };
        write_address(output, &address)?;
    }
    output.fill_to(Name::Data, end)
}

/// Writes the data before an address, and the address, which are parts of the data.
fn write_address<R: References, S: Sink>(
    output: &mut Output<'_, '_, R, S>,
    address: &Address,
) -> Result<(), AllocError>
    requires stands { Stands output.old }
    requires address { (end : ℕ) × IsPart (bytes_of output.old) output.old.at end × IsAddress (slice_range (bytes_of output.old) output.old.at end) address.now }
    requires inlines { AtInlines output.old }
    requires on { (constructs_of output.old).gfm_autolink_literal ≡ true }
    ensures given { output.new.writer.value.given ≡ output.old.writer.value.given }
    ensures goes_on { OnOk result (GoesOn output.old output.new) }
    ensures left { (end : ℕ) → IsPart (bytes_of output.old) output.old.at end → IsAddress (slice_range (bytes_of output.old) output.old.at end) address.now → OnOk result (IsPart (bytes_of output.new) output.new.at end) }
    ensures at { KeepsInlines result output.old output.new }
    ensures attention { OnOk result (attention_of output.new ≡ attention_of output.old) }
{
    let address_end = output.offset_after(address.end);
    output.fill_to(Name::Data, output.offset_after(address.start))?;
    output.token_to(address.name, address_end)?;
    Ok(())
}

/// Returns the first address in a text.
fn find(text: &[u8]) -> Option<Address>
    ensures address { IfSome result (λ address. IsAddress text.now address) }
    ensures exact { MatchOption result (HasNoLiteral text.now) (λ address. IsFirstAddress text.now address) }
{
    if !text.contains(&b'@') {
        return None;
    }
    let literal = email_literal::find(text)?;
    Some(Address {
        name: name_of(literal.kind),
        start: literal.start,
        end: literal.end,
    })
}

/// Returns the name of an address of a kind.
fn name_of(kind: Kind) -> Name
    ensures named { IsAddressName result }
    ensures exact { result ≡ address_name kind }
{
    match kind {
        Kind::Email => Name::GfmAutolinkLiteralEmail,
        Kind::Mailto => Name::GfmAutolinkLiteralMailto,
        Kind::Xmpp => Name::GfmAutolinkLiteralXmpp,
    }
}
