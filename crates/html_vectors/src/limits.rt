//! What a page copies: rows and references at its limit and beyond.

use crate::expect::shows;
use std::alloc::{AllocError, Global};
use std::process::Abort;

/// Returns a text a number of times.
fn repeated(alloc: Global, text: &str, count: usize) -> Result<String, AllocError> {
    let mut all = String::new(alloc);
    for _ in 0..count {
        all.push_str(text)?;
    }
    Ok(all)
}

/// Returns the texts, one after the other.
fn joined(alloc: Global, texts: &[&str]) -> Result<String, AllocError> {
    let mut all = String::new(alloc);
    for text in texts {
        all.push_str(text)?;
    }
    Ok(all)
}

/// Stops the test if a document that ends with the definition of an address of so many bytes, with
/// a title, has another page.
fn defines(
    rt: &impl Abort,
    alloc: Global,
    before: &str,
    size: usize,
    pieces: &[&str],
) -> Result<(), AllocError> {
    let url = repeated(alloc, "u", size)?;
    let document = joined(alloc, &[before, "\n\n[a]: ", url.as_str(), " \"tt\""])?;
    let mut page = String::new(alloc);
    for piece in pieces {
        if *piece == "URL" {
            page.push_str(url.as_str())?;
        } else {
            page.push_str(piece)?;
        }
    }
    shows(rt, alloc, document.as_str(), page.as_str())
}

/// The texts have less than 100,000 bytes, so that many are copied: two times 49,998 of an address
/// and 2 of its title. Of an address that is one byte longer, only one link is made.
#[test]
fn links(rt: HostRuntime) -> Result<(), AllocError> {
    let alloc = rt.alloc();
    defines(
        &rt,
        alloc,
        "[a] *[a]* [a]",
        49_998,
        &[
            "<p><a href=\"",
            "URL",
            "\" title=\"tt\">a</a> <em><a href=\"",
            "URL",
            "\" title=\"tt\">a</a></em> a</p>\n",
        ],
    )?;
    defines(
        &rt,
        alloc,
        "[a] *[a]* [a]",
        49_999,
        &[
            "<p><a href=\"",
            "URL",
            "\" title=\"tt\">a</a> <em>a</em> a</p>\n",
        ],
    )
}

/// An image beyond the limit is its alternative text.
#[test]
fn images(rt: HostRuntime) -> Result<(), AllocError> {
    let alloc = rt.alloc();
    defines(
        &rt,
        alloc,
        "![b][a] ![c][a] ![d][a]",
        49_998,
        &[
            "<p><img src=\"",
            "URL",
            "\" alt=\"b\" title=\"tt\" /> <img src=\"",
            "URL",
            "\" alt=\"c\" title=\"tt\" /> d</p>\n",
        ],
    )
}

/// A link is one at its end too, although the image in it has used up what was left.
#[test]
fn images_in_links(rt: HostRuntime) -> Result<(), AllocError> {
    let alloc = rt.alloc();
    defines(
        &rt,
        alloc,
        "[![b][a]][a] [![c][a]][a] [d][a]",
        33_000,
        &[
            "<p><a href=\"",
            "URL",
            "\" title=\"tt\"><img src=\"",
            "URL",
            "\" alt=\"b\" title=\"tt\" /></a> <a href=\"",
            "URL",
            "\" title=\"tt\">c</a> d</p>\n",
        ],
    )
}

/// The texts have more than 100,000 bytes, and fewer than twice the address.
#[test]
fn long_definitions(rt: HostRuntime) -> Result<(), AllocError> {
    let alloc = rt.alloc();
    defines(
        &rt,
        alloc,
        "[a]\n\n[a]",
        200_000,
        &[
            "<p><a href=\"",
            "URL",
            "\" title=\"tt\">a</a></p>\n<p>a</p>\n",
        ],
    )
}

/// The footnotes have what the text before them leaves.
#[test]
fn footnotes(rt: HostRuntime) -> Result<(), AllocError> {
    let alloc = rt.alloc();
    defines(
        &rt,
        alloc,
        "[a] [^b]\n\n[^b]: [a]",
        60_000,
        &[
            "<p><a href=\"",
            "URL",
            "\" title=\"tt\">a</a> <sup><a href=\"#user-content-fn-b\" id=\"user-content-fnref-b\" data-footnote-ref=\"\" aria-describedby=\"user-content-footnote-label\">1</a></sup></p>\n\
<section data-footnotes=\"\" class=\"footnotes\"><h2 class=\"sr-only\" id=\"user-content-footnote-label\">Footnotes</h2>\n<ol>\n\
<li id=\"user-content-fn-b\">\n<p>a <a href=\"#user-content-fnref-b\" data-footnote-backref=\"\" aria-label=\"Back to reference 1\" class=\"data-footnote-backref\">↩</a></p>\n</li>\n\
</ol>\n</section>\n",
        ],
    )
}

/// Each of eleven rows lacks 1000 cells, which count for 10 bytes each. Ten rows have them.
#[test]
fn cells(rt: HostRuntime) -> Result<(), AllocError> {
    let alloc = rt.alloc();
    let head = repeated(alloc, "|a", 1001)?;
    let columns = repeated(alloc, "|-", 1001)?;
    let rows = repeated(alloc, "|b|\n", 11)?;
    let document = joined(
        alloc,
        &[head.as_str(), "|\n", columns.as_str(), "|\n", rows.as_str()],
    )?;
    let page = page_of_rows(alloc)?;
    shows(&rt, alloc, document.as_str(), page.as_str())
}

/// Returns the page of these rows.
fn page_of_rows(alloc: Global) -> Result<String, AllocError> {
    let head = repeated(alloc, "<th>a</th>\n", 1001)?;
    let cells = repeated(alloc, "<td></td>\n", 1000)?;
    let row = joined(alloc, &["<tr>\n<td>b</td>\n", cells.as_str(), "</tr>\n"])?;
    let rows = repeated(alloc, row.as_str(), 10)?;
    joined(
        alloc,
        &[
            "<table>\n<thead>\n<tr>\n",
            head.as_str(),
            "</tr>\n</thead>\n<tbody>\n",
            rows.as_str(),
            "<tr>\n<td>b</td>\n</tr>\n</tbody>\n</table>\n",
        ],
    )
}
