//! The rules: what is wrong with a node.

ghost use Rattle.std.specs.Prelude.{◌≡◌, IfOk, if◌then◌else◌, [], ◌∷◌, ◌++◌, not};
ghost use Rattle.markdown_nodes.specs.Access.{label_of, nodes_in};
ghost use Rattle.markdown_nodes.specs.View.{views};
ghost use Rattle.mdast_check.specs.Surroundings.{asked_of, finding_in, findings_in};
ghost use Rattle.mdast_check.specs.Warnings.{
  definition_duplicate,
  definition_unused,
  findings,
  footnote_unused,
  have_text,
  image_without_alt,
  is_empty,
  jump_from,
  link_without_address,
  link_without_text,
  reference_undefined,
  when,
};

use crate::references::{OpenKind, is_known};
use crate::warnings::Problem;
use crate::warnings::around::Surroundings;
use markdown_nodes::mdast::Node;
use std::alloc::{AllocError, Global};

/// Returns what is wrong with a node, given whether there is text in its children: two problems at
/// most.
pub(crate) fn problems<'a>(
    alloc: Global,
    node: &'a Node,
    has_text: bool,
    around: &Surroundings<'a>,
) -> Result<(Option<Problem>, Option<Problem>), AllocError>
    requires { has_text ≡ have_text (views (nodes_in node.now)) }
    ensures { IfOk result (λ found. findings_in found ≡ findings (asked_of around.now) (views (nodes_in node.now)) (label_of node.now)) }
{
    match node {
        Node::Heading(heading) => Ok((jump(around.depth, heading.depth), None)),
        Node::LinkReference(link) => {
            let open = undefined(alloc, around, OpenKind::Link, link.identifier.as_str())?;
            Ok((open, textless(has_text)))
        }
        Node::ImageReference(image) => {
            let open = undefined(alloc, around, OpenKind::Image, image.identifier.as_str())?;
            Ok((open, without_alt(image.alt.as_str())))
        }
        Node::FootnoteReference(call) => {
            let open = undefined(alloc, around, OpenKind::Footnote, call.identifier.as_str())?;
            Ok((open, None))
        }
        Node::Definition(definition) => {
            let identifier = definition.identifier.as_str();
            in_definition(alloc, around, identifier)
        }
        Node::FootnoteDefinition(footnote) => {
            let identifier = footnote.identifier.as_str();
            in_footnote(alloc, around, identifier)
        }
        Node::Link(link) => Ok((empty_link(link.url.as_str(), has_text), None)),
        Node::Image(image) => Ok((without_alt(image.alt.as_str()), None)),
        _ => Ok((None, None)),
    }
}

/// Returns what is wrong with a definition of an identifier.
fn in_definition<'a>(
    alloc: Global,
    around: &Surroundings<'a>,
    identifier: &'a str,
) -> Result<(Option<Problem>, Option<Problem>), AllocError>
    ensures { IfOk result (λ found. findings_in found ≡ when (not ((asked_of around.now).used OpenKind.Link identifier.now)) (definition_unused identifier.now) ++ when ((asked_of around.now).before OpenKind.Link identifier.now) (definition_duplicate identifier.now)) }
{
    let unused = unused_definition(alloc, around, identifier)?;
    let repeated = duplicate(alloc, around, OpenKind::Link, identifier)?;
    Ok((unused, repeated))
}

/// Returns what is wrong with a footnote with an identifier.
fn in_footnote<'a>(
    alloc: Global,
    around: &Surroundings<'a>,
    identifier: &'a str,
) -> Result<(Option<Problem>, Option<Problem>), AllocError>
    ensures { IfOk result (λ found. findings_in found ≡ when (not ((asked_of around.now).used OpenKind.Footnote identifier.now)) (footnote_unused identifier.now) ++ when ((asked_of around.now).before OpenKind.Footnote identifier.now) (definition_duplicate identifier.now)) }
{
    let unused = unused_footnote(alloc, around, identifier)?;
    let repeated = duplicate(alloc, around, OpenKind::Footnote, identifier)?;
    Ok((unused, repeated))
}

/// Returns the problem of a heading that is more than one deeper than the heading before it, if
/// there is one.
fn jump(before: Option<u8>, depth: u8) -> Option<Problem>
    ensures { finding_in result ≡ jump_from before depth }
{
    let before = before?;
    if depth.saturating_sub(before) > 1 {
        Some(Problem::HeadingJump { before, depth })
    } else {
        None
    }
}

/// Returns the problem of a reference of a kind to an identifier that nothing defines.
fn undefined<'a>(
    alloc: Global,
    around: &Surroundings<'a>,
    kind: OpenKind,
    identifier: &'a str,
) -> Result<Option<Problem>, AllocError>
    ensures { IfOk result (λ found. finding_in found ≡ when (not ((asked_of around.now).defined kind identifier.now)) (reference_undefined kind identifier.now)) }
{
    if is_known(&around.defined, kind, identifier) {
        return Ok(None);
    }
    let identifier = String::from_str(alloc, identifier)?;
    Ok(Some(Problem::ReferenceUndefined { kind, identifier }))
}

/// Returns the problem of a definition of an identifier that no link and no image refers to.
fn unused_definition<'a>(
    alloc: Global,
    around: &Surroundings<'a>,
    identifier: &'a str,
) -> Result<Option<Problem>, AllocError>
    ensures { IfOk result (λ found. finding_in found ≡ when (not ((asked_of around.now).used OpenKind.Link identifier.now)) (definition_unused identifier.now)) }
{
    if is_known(&around.used, OpenKind::Link, identifier) {
        return Ok(None);
    }
    let identifier = String::from_str(alloc, identifier)?;
    Ok(Some(Problem::DefinitionUnused { identifier }))
}

/// Returns the problem of a footnote with an identifier that nothing calls.
fn unused_footnote<'a>(
    alloc: Global,
    around: &Surroundings<'a>,
    identifier: &'a str,
) -> Result<Option<Problem>, AllocError>
    ensures { IfOk result (λ found. finding_in found ≡ when (not ((asked_of around.now).used OpenKind.Footnote identifier.now)) (footnote_unused identifier.now)) }
{
    if is_known(&around.used, OpenKind::Footnote, identifier) {
        return Ok(None);
    }
    let identifier = String::from_str(alloc, identifier)?;
    Ok(Some(Problem::FootnoteUnused { identifier }))
}

/// Returns the problem of a definition of an identifier that an earlier one also defines, for
/// references of a kind.
fn duplicate<'a>(
    alloc: Global,
    around: &Surroundings<'a>,
    kind: OpenKind,
    identifier: &'a str,
) -> Result<Option<Problem>, AllocError>
    ensures { IfOk result (λ found. finding_in found ≡ when ((asked_of around.now).before kind identifier.now) (definition_duplicate identifier.now)) }
{
    if !is_known(&around.before, kind, identifier) {
        return Ok(None);
    }
    let identifier = String::from_str(alloc, identifier)?;
    Ok(Some(Problem::DefinitionDuplicate { identifier }))
}

/// Returns the problem of a link with an empty URL, or else without text.
fn empty_link(url: &str, has_text: bool) -> Option<Problem>
    ensures { finding_in result ≡ (if is_empty url.now then link_without_address ∷ [] else when (not has_text) link_without_text) }
{
    if url.is_empty() {
        return Some(Problem::LinkWithoutAddress);
    }
    textless(has_text)
}

/// Returns the problem of a link without text.
fn textless(has_text: bool) -> Option<Problem>
    ensures { finding_in result ≡ when (not has_text) link_without_text }
{
    if has_text {
        None
    } else {
        Some(Problem::LinkWithoutText)
    }
}

/// Returns the problem of an image with an empty alternative text.
fn without_alt(alt: &str) -> Option<Problem>
    ensures { finding_in result ≡ when (is_empty alt.now) image_without_alt }
{
    if alt.is_empty() {
        Some(Problem::ImageWithoutAlt)
    } else {
        None
    }
}
