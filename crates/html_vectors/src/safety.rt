//! What does not pass: raw HTML, addresses with schemes of their own, and quotes.

use crate::expect::{same, shows};
use markdown::{ParseOptions, to_mdast};
use markdown_html::{HtmlOptions, RawHtml, UnsafeHtmlOptions, to_html, to_unsafe_html};
use std::alloc::AllocError;

#[test]
fn raw_html(rt: HostRuntime) -> Result<(), AllocError> {
    let alloc = rt.alloc();
    let tree = to_mdast(alloc, "<p onclick=x>\n\na <b>", &ParseOptions::gfm())?;
    let left_out = to_html(alloc, &tree, &HtmlOptions::default())?;
    same(&rt, left_out.as_str(), "<p>a </p>\n");
    let escape = HtmlOptions {
        raw_html: RawHtml::Escape,
        id_prefix: "",
    };
    let shown = to_html(alloc, &tree, &escape)?;
    same(
        &rt,
        shown.as_str(),
        "&lt;p onclick=x&gt;\n<p>a &lt;b&gt;</p>\n",
    );
    let passing = to_unsafe_html(alloc, &tree, &UnsafeHtmlOptions::default())?;
    same(&rt, passing.as_str(), "<p onclick=x>\n<p>a <b></p>\n");
    Ok(())
}

/// Documents, and their pages with GFM's filter of tags. As in GFM's own example (653), some of the
/// names are in a block and some in a paragraph.
static FILTERED: [(&str, &str); 6] = [
    (
        "<em> <title> <Style>\n",
        "<p><em> &lt;title> &lt;Style></p>\n",
    ),
    (
        "<div>\n<XMP a='<script>'></xmp><xmps>\n</div>",
        "<div>\n&lt;XMP a='&lt;script>'>&lt;/xmp><xmps>\n</div>\n",
    ),
    (
        "a <iframe/> <noframes\tb>",
        "<p>a &lt;iframe/> &lt;noframes\tb></p>\n",
    ),
    ("<!-- <plaintext", "<!-- &lt;plaintext\n"),
    ("<?xml <textarea >?>", "<?xml &lt;textarea >?>\n"),
    (
        "`<script>` [a](<script>)",
        "<p><code>&lt;script&gt;</code> <a href=\"script\">a</a></p>\n",
    ),
];

#[test]
fn tag_filter(rt: HostRuntime) -> Result<(), AllocError> {
    let alloc = rt.alloc();
    let options = UnsafeHtmlOptions {
        tag_filter: true,
        id_prefix: "",
    };
    for (document, want) in &FILTERED {
        let tree = to_mdast(alloc, document, &ParseOptions::gfm())?;
        let page = to_unsafe_html(alloc, &tree, &options)?;
        same(&rt, page.as_str(), want);
    }
    Ok(())
}

#[test]
fn addresses(rt: HostRuntime) -> Result<(), AllocError> {
    let alloc = rt.alloc();
    shows(
        &rt,
        alloc,
        "[a](javascript:b)",
        "<p><a href=\"\">a</a></p>\n",
    )?;
    shows(
        &rt,
        alloc,
        "[a](JaVaScRiPt&#58;b)",
        "<p><a href=\"\">a</a></p>\n",
    )?;
    shows(
        &rt,
        alloc,
        "[a](mailto:b)",
        "<p><a href=\"mailto:b\">a</a></p>\n",
    )?;
    shows(
        &rt,
        alloc,
        "![a](data:b)",
        "<p><img src=\"\" alt=\"a\" /></p>\n",
    )?;
    shows(
        &rt,
        alloc,
        "![a](mailto:b)",
        "<p><img src=\"\" alt=\"a\" /></p>\n",
    )?;
    shows(&rt, alloc, "[a](b:c)", "<p><a href=\"\">a</a></p>\n")?;
    shows(&rt, alloc, "[a](./b:c)", "<p><a href=\"./b:c\">a</a></p>\n")
}

#[test]
fn quotes(rt: HostRuntime) -> Result<(), AllocError> {
    let alloc = rt.alloc();
    shows(
        &rt,
        alloc,
        "[a](b '\" onclick=\"c')",
        "<p><a href=\"b\" title=\"&quot; onclick=&quot;c\">a</a></p>\n",
    )?;
    shows(
        &rt,
        alloc,
        "```\"><b>\nc\n```",
        "<pre><code class=\"language-&quot;&gt;&lt;b&gt;\">c\n</code></pre>\n",
    )
}
