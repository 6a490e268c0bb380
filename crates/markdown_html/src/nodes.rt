//! The text before and after the children of each kind of node.

ghost use Rattle.std.specs.Prelude.{◌≡◌, ◌&&◌, ◌++◌, [], OnOk, codes, drop, option_map, string_bytes, unwrap_or};
ghost use Rattle.markdown_nodes.specs.Access.{label_of, nodes_in};
ghost use Rattle.markdown_nodes.specs.View.{view, views};
ghost use Rattle.html_text.specs.Escapes.{escaped};
ghost use Rattle.markdown_html.specs.Elements.{check_box, heading_name, reference_end, task_start};
ghost use Rattle.markdown_html.specs.Html.{any_task, back_page, begins_with_paragraph, begins_with_text, call_page, cell_name, closed, count, ends_with_paragraph, entered, first_box, footnote_end, footnote_start, has_nodes, image_reference_page, is_paragraph, is_task, left, link_back, link_front, link_reference_end, link_reference_start, listed_closed, listed_opened, opened, paragraph_end, paragraph_start, phrase_closed, phrase_opened, raw_lines, row_end, table_end};
ghost use Rattle.markdown_html.specs.Page.{fresh_line};
ghost use Rattle.markdown_html.specs.Places.{checked_of, place_of, seen};
ghost use Rattle.markdown_html.specs.Pages.{page_of};
ghost use Rattle.markdown_html.specs.Given.{source_of};

use crate::code::{push_code_block, push_code_text, push_math_block, push_math_text, push_raw};
use crate::definitions::{definition_cost, title, url};
use crate::footnotes::{push_back_references, push_call, push_linked_call, push_note_start};
use crate::links::{push_image, push_link_start, reference_end};
use crate::lists::{check_box, heading_name, list_end, push_list_start, push_task_start};
use crate::page::{Page, push_block, push_fresh};
use crate::place::{Kind, Place, checked, listed_kind};
use crate::source::Source;
use crate::tables::{push_cell_end, push_cell_start, push_missing_cells};
use html_text::escapes::push_escaped;
use markdown_nodes::mdast::{AlignKind, FootnoteReference, ImageReference, LinkReference, Node};
use std::alloc::AllocError;

impl<'a> Source<'a> {
    /// Appends the text before the children of a node.
    pub fn enter(
        &self,
        page: &mut Page<'a>,
        at: Place<'a>,
        node: &'a Node,
    ) -> Result<(), AllocError>
        ensures { OnOk result (page_of page.new ≡ entered (source_of self.now) (place_of at.entry) (label_of node.now) (views (nodes_in node.now)) (page_of page.old)) }
    {
        let out = &mut page.text;
        match at.kind {
            Kind::Hidden => Ok(()),
            Kind::FirstRow => out.push_str("<thead>\n<tr>\n"),
            Kind::SecondRow => out.push_str("<tbody>\n<tr>\n"),
            Kind::LaterRow => out.push_str("<tr>\n"),
            Kind::HeaderCell => push_cell_start(out, "th", at.columns),
            Kind::Cell => push_cell_start(out, "td", at.columns),
            Kind::Text => self.open_phrase(page, false, at.is_bare, node),
            Kind::Linked => self.open_phrase(page, true, at.is_bare, node),
            Kind::LooseItem => self.open_listed(page, at.is_bare, false, node),
            Kind::TightItem => self.open_listed(page, at.is_bare, true, node),
            _ => self.open(page, at.is_bare, at.kind, node),
        }
    }

    /// Appends the text after them.
    pub fn leave(
        &self,
        page: &mut Page<'a>,
        at: Place<'a>,
        node: &'a Node,
    ) -> Result<(), AllocError>
        ensures { OnOk result (page_of page.new ≡ left (source_of self.now) (place_of at.entry) (label_of node.now) (views (nodes_in node.now)) (page_of page.old)) }
    {
        let out = &mut page.text;
        match at.kind {
            Kind::Hidden => Ok(()),
            Kind::FirstRow => {
                push_row_end(page, at, node.child_nodes())?;
                page.text.push_str("</thead>\n")
            }
            Kind::SecondRow | Kind::LaterRow => push_row_end(page, at, node.child_nodes()),
            Kind::HeaderCell => push_cell_end(out, "th", at.columns),
            Kind::Cell => push_cell_end(out, "td", at.columns),
            Kind::Text => self.close_phrase(page, false, at.is_bare, node),
            Kind::Linked => self.close_phrase(page, true, at.is_bare, node),
            Kind::LooseItem => self.close_listed(page, at.is_bare, false, node),
            Kind::TightItem => self.close_listed(page, at.is_bare, true, node),
            _ => self.close(page, at.is_bare, at.kind, node),
        }
    }

    /// Appends the start of the item of a node in a list, and of its own element unless it is a task.
    fn open_listed(
        &self,
        page: &mut Page<'a>,
        bare: bool,
        tight: bool,
        node: &'a Node,
    ) -> Result<(), AllocError>
        ensures { OnOk result (page_of page.new ≡ listed_opened (source_of self.now) bare tight (checked_of (label_of node.now)) (label_of node.now) (views (nodes_in node.now)) (page_of page.old)) }
    {
        let out = &mut page.text;
        push_fresh(out)?;
        match checked(node) {
            None => {
                out.push_str("<li>")?;
                self.open(page, bare, listed_kind(tight), node)
            }
            Some(checked) => {
                push_task_start(out)?;
                push_first_box(out, tight, checked, node.child_nodes())
            }
        }
    }

    /// Appends the end of the item.
    fn close_listed(
        &self,
        page: &mut Page<'a>,
        bare: bool,
        tight: bool,
        node: &'a Node,
    ) -> Result<(), AllocError>
        ensures { OnOk result (page_of page.new ≡ listed_closed (source_of self.now) bare tight (checked_of (label_of node.now)) (label_of node.now) (views (nodes_in node.now)) (page_of page.old)) }
    {
        if checked(node).is_none() {
            self.close(page, bare, listed_kind(tight), node)?;
        }
        page.text.push_str("</li>\n")
    }

    /// Appends the start of the element of a block, or all of a block that has no children.
    fn open(
        &self,
        page: &mut Page<'a>,
        bare: bool,
        kind: Kind,
        node: &'a Node,
    ) -> Result<(), AllocError>
        ensures { OnOk result (page_of page.new ≡ opened (source_of self.now) bare kind (label_of node.now) (views (nodes_in node.now)) (page_of page.old)) }
    {
        let out = &mut page.text;
        match node {
            Node::Paragraph(node) => push_paragraph_start(out, kind, &node.children),
            Node::Blockquote(_) => push_block(out, "<blockquote>\n"),
            Node::ThematicBreak(_) => push_block(out, "<hr />\n"),
            Node::Html(node) => self.push_html(out, node.value.as_str()),
            Node::Heading(node) => push_heading_start(out, node.depth),
            Node::List(node) => {
                push_fresh(out)?;
                push_list_start(out, node.ordered, has_task(&node.children), node.start)
            }
            Node::Table(_) => push_block(out, "<table>\n"),
            Node::Code(node) => {
                push_fresh(out)?;
                push_code_block(out, node.lang.as_deref(), node.value.as_str())
            }
            Node::Math(node) => {
                push_fresh(out)?;
                push_math_block(out, node.value.as_str())
            }
            Node::FootnoteDefinition(_) => self.open_footnote(page, kind),
            _ => self.open_phrase(page, false, bare, node),
        }
    }

    /// Appends the start of the element of a node in a text, or all of a node that has no
    /// children. A link within a link has no element, and neither has a block.
    fn open_phrase(
        &self,
        page: &mut Page<'a>,
        linked: bool,
        bare: bool,
        node: &'a Node,
    ) -> Result<(), AllocError>
        ensures { OnOk result (page_of page.new ≡ phrase_opened (source_of self.now) linked bare (label_of node.now) (page_of page.old)) }
    {
        let out = &mut page.text;
        match node {
            Node::Emphasis(_) => out.push_str("<em>"),
            Node::Strong(_) => out.push_str("<strong>"),
            Node::Delete(_) => out.push_str("<del>"),
            Node::Break(_) => out.push_str("<br />\n"),
            Node::Text(node) => push_escaped(out, node.value.as_str()),
            Node::Html(node) => push_raw(out, self.raw, node.value.as_str()),
            Node::InlineCode(node) => push_code_text(out, node.value.as_str()),
            Node::InlineMath(node) => push_math_text(out, node.value.as_str()),
            Node::Code(node) => push_code_text(out, node.value.as_str()),
            Node::Math(node) => push_math_text(out, node.value.as_str()),
            Node::Link(node) => {
                self.open_link(out, linked, node.url.as_str(), node.title.as_deref())
            }
            Node::Image(node) => push_image(
                self.alloc,
                out,
                self.raw,
                node.alt.as_str(),
                node.url.as_str(),
                node.title.as_deref(),
            ),
            Node::LinkReference(node) => self.open_link_reference(page, linked || bare, node),
            Node::ImageReference(node) => self.push_image_reference(page, bare, node),
            Node::FootnoteReference(node) => self.push_footnote_reference(page, linked, node),
            _ => Ok(()),
        }
    }

    /// Appends raw HTML among blocks, on lines of its own.
    fn push_html(&self, out: &mut String, value: &str) -> Result<(), AllocError>
        ensures { OnOk result (string_bytes out.new ≡ raw_lines self.now.raw value.now (string_bytes out.old)) }
    {
        push_fresh(out)?;
        push_raw(out, self.raw, value)?;
        push_fresh(out)
    }

    /// Appends the start of a link, unless a link is around it.
    fn open_link(
        &self,
        out: &mut String,
        linked: bool,
        url: &str,
        title: Option<&str>,
    ) -> Result<(), AllocError>
        ensures { OnOk result (string_bytes out.new ≡ string_bytes out.old ++ link_front (source_of self.now) linked url.now (option_map (λ text. text.now) title.entry)) }
    {
        if linked {
            return Ok(());
        }
        push_link_start(self.alloc, out, self.raw, url, title)
    }

    /// Appends the start of a link by reference, or of its text if nothing defines it.
    fn open_link_reference(
        &self,
        page: &mut Page<'a>,
        linked: bool,
        node: &'a LinkReference,
    ) -> Result<(), AllocError>
        ensures { OnOk result (page_of page.new ≡ link_reference_start (source_of self.now) linked (string_bytes node.now.identifier) (page_of page.old)) }
    {
        let Some(found) = self.definition(node.identifier.as_str()) else {
            return page.text.push_str("[");
        };
        if linked {
            return Ok(());
        }
        page.spend(definition_cost(found));
        push_link_start(
            self.alloc,
            &mut page.text,
            self.raw,
            url(found),
            title(found),
        )
    }

    /// Appends its end.
    fn close_link_reference(
        &self,
        out: &mut String,
        linked: bool,
        node: &'a LinkReference,
    ) -> Result<(), AllocError>
        ensures { OnOk result (string_bytes out.new ≡ string_bytes out.old ++ link_reference_end (source_of self.now) linked node.now.reference_kind (string_bytes node.now.identifier) (option_map string_bytes node.now.label)) }
    {
        match self.definition(node.identifier.as_str()) {
            None => {
                let end = reference_end(
                    self.alloc,
                    node.reference_kind,
                    node.identifier.as_str(),
                    node.label.as_deref(),
                )?;
                push_escaped(out, end.as_str())
            }
            Some(_) => out.push_str(link_back(linked)),
        }
    }

    /// Appends an image by reference, or its text if it is bare or nothing defines it.
    fn push_image_reference(
        &self,
        page: &mut Page<'a>,
        bare: bool,
        node: &'a ImageReference,
    ) -> Result<(), AllocError>
        ensures { OnOk result (page_of page.new ≡ image_reference_page (source_of self.now) bare (string_bytes node.now.alt) node.now.reference_kind (string_bytes node.now.identifier) (option_map string_bytes node.now.label) (page_of page.old)) }
    {
        let alt = node.alt.as_str();
        let Some(found) = self.definition(node.identifier.as_str()) else {
            return self.push_undefined_image(&mut page.text, node);
        };
        if bare {
            return push_escaped(&mut page.text, alt);
        }
        page.spend(definition_cost(found));
        push_image(
            self.alloc,
            &mut page.text,
            self.raw,
            alt,
            url(found),
            title(found),
        )
    }

    /// Appends the text of an image that nothing defines.
    fn push_undefined_image(
        &self,
        out: &mut String,
        node: &'a ImageReference,
    ) -> Result<(), AllocError>
        ensures { OnOk result (string_bytes out.new ≡ string_bytes out.old ++ (codes "![" ++ escaped (string_bytes node.now.alt) ++ escaped (reference_end node.now.reference_kind (string_bytes node.now.identifier) (option_map string_bytes node.now.label)))) }
    {
        let end = reference_end(
            self.alloc,
            node.reference_kind,
            node.identifier.as_str(),
            node.label.as_deref(),
        )?;
        out.push_str("![")?;
        push_escaped(out, node.alt.as_str())?;
        push_escaped(out, end.as_str())
    }

    /// Appends a call of a footnote, or its text if nothing defines it.
    fn push_footnote_reference(
        &self,
        page: &mut Page<'a>,
        linked: bool,
        node: &'a FootnoteReference,
    ) -> Result<(), AllocError>
        ensures { OnOk result (page_of page.new ≡ call_page (source_of self.now) linked (string_bytes node.now.identifier) (option_map string_bytes node.now.label) (page_of page.old)) }
    {
        let identifier = node.identifier.as_str();
        if self.footnote(identifier).is_none() {
            let label = node.label.as_deref().unwrap_or(identifier);
            return push_undefined_call(&mut page.text, label);
        }
        let (number, count) = page.calls.add(identifier)?;
        let out = &mut page.text;
        if linked {
            push_linked_call(self.alloc, out, self.id_prefix, identifier, number, count)
        } else {
            push_call(self.alloc, out, self.id_prefix, identifier, number, count)
        }
    }

    /// Appends the start of a footnote, if it is written.
    fn open_footnote(&self, page: &mut Page<'a>, kind: Kind) -> Result<(), AllocError>
        ensures { OnOk result (page_of page.new ≡ footnote_start (source_of self.now) kind (page_of page.old)) }
    {
        let Kind::Note(number) = kind else {
            return Ok(());
        };
        match page.calls.get(number) {
            None => page.text.push_str("<li>\n"),
            Some(call) => push_note_start(
                self.alloc,
                &mut page.text,
                self.id_prefix,
                call.identifier,
            ),
        }
    }

    /// Appends the back references of a footnote to its calls.
    fn push_back(&self, page: &mut Page<'a>, number: usize) -> Result<(), AllocError>
        ensures { OnOk result (page_of page.new ≡ back_page (source_of self.now) number (page_of page.old)) }
    {
        match page.calls.get(number) {
            None => Ok(()),
            Some(call) => push_back_references(
                self.alloc,
                &mut page.text,
                self.id_prefix,
                call.identifier,
                number + 1,
                call.count,
            ),
        }
    }

    /// Appends the end of the element of a block.
    fn close(
        &self,
        page: &mut Page<'a>,
        bare: bool,
        kind: Kind,
        node: &'a Node,
    ) -> Result<(), AllocError>
        ensures { OnOk result (page_of page.new ≡ closed (source_of self.now) bare kind (label_of node.now) (views (nodes_in node.now)) (page_of page.old)) }
    {
        let out = &mut page.text;
        match node {
            Node::Paragraph(_) => self.close_paragraph(page, kind),
            Node::Blockquote(_) => push_block(out, "</blockquote>\n"),
            Node::Heading(node) => push_heading_end(out, node.depth),
            Node::List(node) => out.push_str(list_end(node.ordered)),
            Node::Table(node) => out.push_str(table_end(&node.children)),
            Node::FootnoteDefinition(node) => self.close_footnote(page, kind, &node.children),
            _ => self.close_phrase(page, false, bare, node),
        }
    }

    /// Appends the end of the element of a node in a text.
    fn close_phrase(
        &self,
        page: &mut Page<'a>,
        linked: bool,
        bare: bool,
        node: &'a Node,
    ) -> Result<(), AllocError>
        ensures { OnOk result (page_of page.new ≡ phrase_closed (source_of self.now) linked bare (label_of node.now) (page_of page.old)) }
    {
        let out = &mut page.text;
        match node {
            Node::Emphasis(_) => out.push_str("</em>"),
            Node::Strong(_) => out.push_str("</strong>"),
            Node::Delete(_) => out.push_str("</del>"),
            Node::Link(_) => out.push_str(link_back(linked)),
            Node::LinkReference(node) => self.close_link_reference(out, linked || bare, node),
            _ => Ok(()),
        }
    }

    /// Appends the end of a paragraph.
    fn close_paragraph(&self, page: &mut Page<'a>, kind: Kind) -> Result<(), AllocError>
        ensures { OnOk result (page_of page.new ≡ paragraph_end (source_of self.now) kind (page_of page.old)) }
    {
        match kind {
            Kind::Tight => return Ok(()),
            Kind::Tail(number) => self.push_back(page, number)?,
            _ => {}
        }
        page.text.push_str("</p>\n")
    }

    /// Appends the end of a footnote, if it is written.
    fn close_footnote(
        &self,
        page: &mut Page<'a>,
        kind: Kind,
        children: &[Node],
    ) -> Result<(), AllocError>
        ensures { OnOk result (page_of page.new ≡ footnote_end (source_of self.now) kind (views children.now) (page_of page.old)) }
    {
        let Kind::Note(number) = kind else {
            return Ok(());
        };
        if !ends_with_paragraph(children) {
            push_fresh(&mut page.text)?;
            self.push_back(page, number)?;
            page.text.push_str("\n")?;
        }
        page.text.push_str("</li>\n")
    }
}

/// Returns the end of a link, unless a link is around it.
fn link_back(linked: bool) -> &'static str
    ensures { result.now ≡ link_back linked }
{
    if linked { "" } else { "</a>" }
}

/// Appends the check box before the children of a task, unless the first of them has it.
fn push_first_box(
    out: &mut String,
    tight: bool,
    checked: bool,
    children: &[Node],
) -> Result<(), AllocError>
    ensures { OnOk result (string_bytes out.new ≡ string_bytes out.old ++ first_box tight checked (views children.now)) }
{
    if tight {
        return out.push_str(check_box(checked, begins_with_text(children)));
    }
    if begins_with_paragraph(children) {
        return Ok(());
    }
    out.push_str("\n<p>")?;
    out.push_str(check_box(checked, false))?;
    out.push_str("</p>\n")
}

/// Whether the first of the nodes is a paragraph.
fn begins_with_paragraph(nodes: &[Node]) -> bool
    ensures { result ≡ begins_with_paragraph (views nodes.now) }
{
    match nodes.split_first() {
        Some((first, _)) => is_paragraph(first),
        None => false,
    }
}

/// Whether the first of the nodes is a paragraph that is not empty.
fn begins_with_text(nodes: &[Node]) -> bool
    ensures { result ≡ begins_with_text (views nodes.now) }
{
    match nodes.split_first() {
        Some((first, _)) => has_text(first),
        None => false,
    }
}

/// Whether a node is a paragraph that is not empty.
fn has_text(node: &Node) -> bool
    ensures { result ≡ is_paragraph (label_of node.now) && has_nodes (views (nodes_in node.now)) }
{
    is_paragraph(node) && has_nodes(node.child_nodes())
}

/// Whether there is any node.
fn has_nodes(nodes: &[Node]) -> bool
    ensures { result ≡ has_nodes (views nodes.now) }
{
    count(nodes) >= 1
}

/// Whether one of the nodes is a task.
fn has_task(nodes: &[Node]) -> bool
    ensures { result ≡ any_task (views nodes.now) }
{
    for node in nodes {
        if is_task(node) {
            return true;
        }
    }
    false
}

/// Whether a node is a task.
fn is_task(node: &Node) -> bool
    ensures { result ≡ is_task (label_of node.now) }
{
    checked(node).is_some()
}

/// Appends the start of a paragraph with these children.
fn push_paragraph_start(out: &mut String, kind: Kind, children: &[Node]) -> Result<(), AllocError>
    ensures { OnOk result (string_bytes out.new ≡ paragraph_start kind (views children.now) (string_bytes out.old)) }
{
    match kind {
        Kind::Tight => Ok(()),
        Kind::Task(checked) => {
            push_block(out, "<p>")?;
            out.push_str(check_box(checked, has_nodes(children)))
        }
        _ => push_block(out, "<p>"),
    }
}

/// Appends the start of a heading.
fn push_heading_start(out: &mut String, depth: u8) -> Result<(), AllocError>
    ensures { OnOk result (string_bytes out.new ≡ fresh_line (string_bytes out.old) ++ (codes "<" ++ heading_name depth ++ codes ">")) }
{
    push_block(out, "<")?;
    out.push_str(heading_name(depth))?;
    out.push_str(">")
}

/// Appends the end of a heading.
fn push_heading_end(out: &mut String, depth: u8) -> Result<(), AllocError>
    ensures { OnOk result (string_bytes out.new ≡ string_bytes out.old ++ (codes "</" ++ heading_name depth ++ codes ">\n")) }
{
    out.push_str("</")?;
    out.push_str(heading_name(depth))?;
    out.push_str(">\n")
}

/// Returns the end of a table with these children.
fn table_end(children: &[Node]) -> &'static str
    ensures { result.now ≡ table_end (views children.now) }
{
    if count(children) >= 2 {
        "</tbody>\n</table>\n"
    } else {
        "</table>\n"
    }
}

/// Appends the end of a row with these cells, and before it the cells in the remaining columns.
fn push_row_end(page: &mut Page<'_>, at: Place<'_>, cells: &[Node]) -> Result<(), AllocError>
    ensures { OnOk result (page_of page.new ≡ row_end (place_of at.entry) (views cells.now) (page_of page.old)) }
{
    push_missing_cells(
        page,
        cell_name(at.kind),
        left_over(at.columns, count(cells)),
    )?;
    page.text.push_str("</tr>\n")
}

/// Returns the name of the cells of a row.
fn cell_name(kind: Kind) -> &'static str
    ensures { result.now ≡ cell_name kind }
{
    match kind {
        Kind::FirstRow => "th",
        _ => "td",
    }
}

/// Returns the number of nodes.
fn count(nodes: &[Node]) -> usize
    ensures { result ≡ count (views nodes.now) }
{
    nodes.len()
}

/// Returns the columns after the first `count`.
fn left_over(columns: Option<&[AlignKind]>, count: usize) -> &[AlignKind]
    ensures { result.now ≡ drop count (unwrap_or (seen columns.entry) []) }
{
    columns.unwrap_or(&[]).get(count..).unwrap_or(&[])
}

/// Appends a call of a footnote that nothing defines, as it is written in a document.
fn push_undefined_call(out: &mut String, label: &str) -> Result<(), AllocError>
    ensures { OnOk result (string_bytes out.new ≡ string_bytes out.old ++ (codes "[^" ++ escaped label.now ++ codes "]")) }
{
    out.push_str("[^")?;
    push_escaped(out, label)?;
    out.push_str("]")
}

/// Whether the last of the nodes is a paragraph.
fn ends_with_paragraph(nodes: &[Node]) -> bool
    ensures { result ≡ ends_with_paragraph (views nodes.now) }
{
    match nodes.last() {
        Some(node) => is_paragraph(node),
        None => false,
    }
}

/// Whether a node is a paragraph.
fn is_paragraph(node: &Node) -> bool
    ensures { result ≡ is_paragraph (label_of node.now) }
{
    matches!(node, Node::Paragraph(_))
}
