//! Renders a tree as HTML, without recursion.

ghost use Rattle.std.specs.Prelude.{IfOk, OnOk, ◌≡◌, ◌≤◌, codes, false, length, string_bytes, true};
ghost use Rattle.markdown_html.specs.Bounds.{bound};
ghost use Rattle.markdown_html.specs.Pages.{page_of};
ghost use Rattle.markdown_html.specs.Given.{source_of};
ghost use Rattle.markdown_html.specs.Html.{html, is_free_tree, most_notes, notes_page, raw_of, raw_passing, safe_html, section_page, tree_page, unsafe_html};
ghost use Rattle.html_text.specs.Safe.{IsSafe};
ghost use Rattle.markdown_html.specs.declared.html.RawHtml.TheVariants.{Omit};
ghost use Rattle.markdown_html.specs.Places.{place_of};
ghost use Rattle.markdown_nodes.specs.View.{view};

use crate::calls::Calls;
use crate::footnotes::push_section_start;
use crate::page::{Page, push_fresh};
use crate::place::{Kind, Place};
use crate::source::{Raw, Source};
use markdown_nodes::mdast::Node;
use std::alloc::{AllocError, Global};

/// What happens to HTML in a document. It never passes.
///
/// `RawHtml::Escape` shows `<b>` as `&lt;b&gt;`.
#[derive(Clone, Copy, PartialEq, Eq, Debug)]
pub enum RawHtml {
    /// It is left out.
    Omit,
    /// It is shown as text.
    Escape,
}

/// How a page is written.
///
/// `HtmlOptions::default()` leaves raw HTML out, and each id begins with `user-content-`.
#[derive(Clone, Copy, PartialEq, Eq, Debug)]
pub struct HtmlOptions<'a> {
    /// What happens to HTML in the document.
    pub raw_html: RawHtml,
    /// The text that each `id` of the page begins with. A prefix keeps the ids apart from those of
    /// the surrounding page.
    pub id_prefix: &'a str,
}

/// The options of mdast-util-to-hast.
impl<'a> Default for HtmlOptions<'a> {
    ghost is_default = { λ options. (options.raw_html ≡ Omit) × (options.id_prefix.now ≡ codes "user-content-") };

    fn default() -> HtmlOptions<'a> {
        HtmlOptions {
            raw_html: RawHtml::Omit,
            id_prefix: ID_PREFIX,
        }
    }
}

/// How a page with the HTML of its document is written.
///
/// `UnsafeHtmlOptions::default()` has no filter, as in CommonMark, and each id begins with
/// `user-content-`.
#[derive(Clone, Copy, PartialEq, Eq, Debug)]
pub struct UnsafeHtmlOptions<'a> {
    /// Whether the `<` of the tags that GFM disallows is written as text (`html_text::filter`). The
    /// rest is not safe: `<a onclick=..>` passes.
    pub tag_filter: bool,
    /// The text that each `id` of the page begins with.
    pub id_prefix: &'a str,
}

impl<'a> Default for UnsafeHtmlOptions<'a> {
    ghost is_default = { λ options. (options.tag_filter ≡ false) × (options.id_prefix.now ≡ codes "user-content-") };

    fn default() -> UnsafeHtmlOptions<'a> {
        UnsafeHtmlOptions {
            tag_filter: false,
            id_prefix: ID_PREFIX,
        }
    }
}

/// The default text that each `id` begins with (mdast-util-to-hast).
pub const ID_PREFIX: &str = "user-content-";

/// A parent and its place, and the nodes in it that are not yet written, with the place of the
/// first of them.
#[derive(Drop)]
struct Frame<'a> {
    parent: &'a Node,
    around: Place<'a>,
    rest: &'a [Node],
    at: Place<'a>,
}

/// Returns a tree as HTML that is safe in a page, whoever wrote the document.
///
/// The elements are those of mdast-util-to-hast, on lines as in the examples of CommonMark. Links
/// and images by reference are resolved by the first definition of their identifier, and the
/// footnotes that are called are in a section at the end. An address whose scheme is not allowed is
/// left out (`html_text::urls`). `docs/HTML.md` says what `safe` promises, what it requires of the
/// surrounding page, and how much of definitions and of missing cells a page may copy. So the page
/// of a short tree is short (`bounded`).
///
/// The only error is that memory ran out. It does not recurse: a tree may be nested to any depth.
///
/// The tree of `*a* <b>`, with `HtmlOptions::default()`, returns `<p><em>a</em> </p>` and a line
/// feed.
pub fn to_html(alloc: Global, tree: &Node, options: &HtmlOptions<'_>) -> Result<String, AllocError>
    ensures exact { IfOk result (λ text. string_bytes text ≡ safe_html options.now.raw_html options.now.id_prefix.now (view tree.now)) }
    ensures safe { IfOk result (λ text. IsSafe (record { id_prefix = options.now.id_prefix.now; any_url = false }) (string_bytes text)) }
    ensures bounded { IfOk result (λ text. length (string_bytes text) ≤ bound options.now.id_prefix.now (view tree.now)) }
{
    let text = written(alloc, tree, raw(options.raw_html), options.id_prefix)?;
    Ok(text)
}

/// Returns a tree as HTML, with the HTML of the document unchanged, and with addresses of any
/// scheme.
///
/// Use it only for documents whose writers you trust as you trust yourself: what they write runs in
/// the page. Everything else is as in [`to_html`]. If the tree has no `Html`, the output has only
/// our markup.
///
/// The tree of `*a* <b>`, with `UnsafeHtmlOptions::default()`, returns `<p><em>a</em> <b></p>` and
/// a line feed.
pub fn to_unsafe_html(
    alloc: Global,
    tree: &Node,
    options: &UnsafeHtmlOptions<'_>,
) -> Result<String, AllocError>
    ensures exact { IfOk result (λ text. string_bytes text ≡ unsafe_html options.now.tag_filter options.now.id_prefix.now (view tree.now)) }
    ensures markup { IfOk result (λ text. is_free_tree (view tree.now) ≡ true → IsSafe (record { id_prefix = options.now.id_prefix.now; any_url = true }) (string_bytes text)) }
    ensures bounded { IfOk result (λ text. length (string_bytes text) ≤ bound options.now.id_prefix.now (view tree.now)) }
{
    let text = written(alloc, tree, passing(options.tag_filter), options.id_prefix)?;
    Ok(text)
}

/// Returns what happens to raw HTML, for use within the crate.
fn raw(raw_html: RawHtml) -> Raw
    ensures { result ≡ raw_of raw_html }
{
    match raw_html {
        RawHtml::Omit => Raw::Omit,
        RawHtml::Escape => Raw::Escape,
    }
}

/// Returns what happens to raw HTML that passes.
fn passing(tag_filter: bool) -> Raw
    ensures { result ≡ raw_passing tag_filter }
{
    if tag_filter { Raw::Filter } else { Raw::Pass }
}

/// Returns a tree as HTML.
fn written(alloc: Global, tree: &Node, raw: Raw, id_prefix: &str) -> Result<String, AllocError>
    ensures { IfOk result (λ text. string_bytes text ≡ html (record { raw = raw; id_prefix = id_prefix.now; tree = view tree.now })) }
{
    let source = Source::new(alloc, raw, id_prefix, tree)?;
    let mut page = Page {
        text: String::new(alloc),
        calls: Calls::new(alloc),
        budget: source.budget(),
    };
    source.push_tree(&mut page, Place::new(Kind::Flow), tree)?;
    source.push_section(&mut page)?;
    Ok(page.text)
}

impl<'a> Source<'a> {
    /// Appends the section of the footnotes, if one is called.
    fn push_section(&self, page: &mut Page<'a>) -> Result<(), AllocError>
        ensures { OnOk result (page_of page.new ≡ section_page (source_of self.now) (page_of page.old)) }
    {
        if page.calls.get(0).is_none() {
            return Ok(());
        }
        push_fresh(&mut page.text)?;
        push_section_start(self.alloc, &mut page.text, self.id_prefix)?;
        self.push_notes(page)?;
        page.text.push_str("</ol>\n</section>\n")
    }

    /// Appends the footnotes that are called. One that is called in another follows it.
    #[tactic(auto, unfolding(crate::specs::Html::most_notes))]
    fn push_notes(&self, page: &mut Page<'a>) -> Result<(), AllocError>
        ensures { OnOk result (page_of page.new ≡ notes_page (source_of self.now) most_notes 0 (page_of page.old)) }
    {
        for number in 0..usize::MAX {
            let Some(call) = page.calls.get(number) else {
                return Ok(());
            };
            let Some(note) = self.footnote(call.identifier) else {
                return Ok(());
            };
            self.push_tree(page, Place::new(Kind::Note(number)), note)?;
        }
        Ok(())
    }

    /// Appends a node with everything in it.
    fn push_tree(
        &self,
        page: &mut Page<'a>,
        place: Place<'a>,
        tree: &'a Node,
    ) -> Result<(), AllocError>
        ensures { OnOk result (page_of page.new ≡ tree_page (source_of self.now) (place_of place.entry) (view tree.now) (page_of page.old)) }
    {
        let mut frames: Vec<Frame<'a>> = Vec::new(self.alloc);
        let mut parent = tree;
        let mut around = self.settled(place, tree, page);
        self.enter(page, around, parent)?;
        let mut level = parent.child_nodes();
        let mut at = around.inside(parent);
        'walk: loop {
            if let Some((first, rest)) = level.split_first() {
                let here = self.settled(at.followed(rest), first, page);
                self.enter(page, here, first)?;
                frames.push(Frame {
                    parent,
                    around,
                    rest,
                    at: at.after(),
                })?;
                parent = first;
                around = here;
                level = first.child_nodes();
                at = here.inside(first);
            } else {
                self.leave(page, around, parent)?;
                let Some(frame) = frames.pop() else {
                    return Ok(());
                };
                parent = frame.parent;
                around = frame.around;
                level = frame.rest;
                at = frame.at;
            }
        }
    }
}
