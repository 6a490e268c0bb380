//! The footnotes of a page.

use crate::expect::shows;
use std::alloc::AllocError;

/// A footnote that nothing calls is not written.
#[test]
fn one(rt: HostRuntime) -> Result<(), AllocError> {
    let alloc = rt.alloc();
    shows(
        &rt,
        alloc,
        "a[^b]\n\n[^b]: c\n\n[^d]: e",
        "<p>a<sup><a href=\"#user-content-fn-b\" id=\"user-content-fnref-b\" data-footnote-ref=\"\" aria-describedby=\"user-content-footnote-label\">1</a></sup></p>\n\
<section data-footnotes=\"\" class=\"footnotes\"><h2 class=\"sr-only\" id=\"user-content-footnote-label\">Footnotes</h2>\n<ol>\n\
<li id=\"user-content-fn-b\">\n<p>c <a href=\"#user-content-fnref-b\" data-footnote-backref=\"\" aria-label=\"Back to reference 1\" class=\"data-footnote-backref\">↩</a></p>\n</li>\n\
</ol>\n</section>\n",
    )
}

/// Footnotes are in the order of their first calls. A second call has a number of its own.
#[test]
fn calls(rt: HostRuntime) -> Result<(), AllocError> {
    let alloc = rt.alloc();
    shows(
        &rt,
        alloc,
        "[^b][^a][^b]\n\n[^a]: c\n\n[^b]: ***",
        "<p>\
<sup><a href=\"#user-content-fn-b\" id=\"user-content-fnref-b\" data-footnote-ref=\"\" aria-describedby=\"user-content-footnote-label\">1</a></sup>\
<sup><a href=\"#user-content-fn-a\" id=\"user-content-fnref-a\" data-footnote-ref=\"\" aria-describedby=\"user-content-footnote-label\">2</a></sup>\
<sup><a href=\"#user-content-fn-b\" id=\"user-content-fnref-b-2\" data-footnote-ref=\"\" aria-describedby=\"user-content-footnote-label\">1</a></sup>\
</p>\n\
<section data-footnotes=\"\" class=\"footnotes\"><h2 class=\"sr-only\" id=\"user-content-footnote-label\">Footnotes</h2>\n<ol>\n\
<li id=\"user-content-fn-b\">\n<hr />\n \
<a href=\"#user-content-fnref-b\" data-footnote-backref=\"\" aria-label=\"Back to reference 1\" class=\"data-footnote-backref\">↩</a> \
<a href=\"#user-content-fnref-b-2\" data-footnote-backref=\"\" aria-label=\"Back to reference 1-2\" class=\"data-footnote-backref\">↩<sup>2</sup></a>\n</li>\n\
<li id=\"user-content-fn-a\">\n<p>c <a href=\"#user-content-fnref-a\" data-footnote-backref=\"\" aria-label=\"Back to reference 2\" class=\"data-footnote-backref\">↩</a></p>\n</li>\n\
</ol>\n</section>\n",
    )
}

/// A footnote that another one calls follows it.
#[test]
fn calls_in_footnotes(rt: HostRuntime) -> Result<(), AllocError> {
    let alloc = rt.alloc();
    shows(
        &rt,
        alloc,
        "[^a]\n\n[^a]: [^b]\n[^b]: c",
        "<p><sup><a href=\"#user-content-fn-a\" id=\"user-content-fnref-a\" data-footnote-ref=\"\" aria-describedby=\"user-content-footnote-label\">1</a></sup></p>\n\
<section data-footnotes=\"\" class=\"footnotes\"><h2 class=\"sr-only\" id=\"user-content-footnote-label\">Footnotes</h2>\n<ol>\n\
<li id=\"user-content-fn-a\">\n<p><sup><a href=\"#user-content-fn-b\" id=\"user-content-fnref-b\" data-footnote-ref=\"\" aria-describedby=\"user-content-footnote-label\">2</a></sup> \
<a href=\"#user-content-fnref-a\" data-footnote-backref=\"\" aria-label=\"Back to reference 1\" class=\"data-footnote-backref\">↩</a></p>\n</li>\n\
<li id=\"user-content-fn-b\">\n<p>c <a href=\"#user-content-fnref-b\" data-footnote-backref=\"\" aria-label=\"Back to reference 2\" class=\"data-footnote-backref\">↩</a></p>\n</li>\n\
</ol>\n</section>\n",
    )
}

/// A call in a link is its number alone, since a link may not be in a link. The back reference leads
/// to it.
#[test]
fn calls_in_links(rt: HostRuntime) -> Result<(), AllocError> {
    let alloc = rt.alloc();
    shows(
        &rt,
        alloc,
        "[b[^a]](c)\n\n[^a]: d",
        "<p><a href=\"c\">b<sup id=\"user-content-fnref-a\">1</sup></a></p>\n\
<section data-footnotes=\"\" class=\"footnotes\"><h2 class=\"sr-only\" id=\"user-content-footnote-label\">Footnotes</h2>\n<ol>\n\
<li id=\"user-content-fn-a\">\n<p>d <a href=\"#user-content-fnref-a\" data-footnote-backref=\"\" aria-label=\"Back to reference 1\" class=\"data-footnote-backref\">↩</a></p>\n</li>\n\
</ol>\n</section>\n",
    )
}
