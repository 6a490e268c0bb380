//! The pages of documents.

use crate::expect::shows;
use std::alloc::AllocError;

#[test]
fn text(rt: HostRuntime) -> Result<(), AllocError> {
    let alloc = rt.alloc();
    shows(&rt, alloc, "", "")?;
    shows(
        &rt,
        alloc,
        "a & \"b\" < c > d",
        "<p>a &amp; &quot;b&quot; &lt; c &gt; d</p>\n",
    )?;
    shows(
        &rt,
        alloc,
        "*a* **b** ~~c~~ `d <`",
        "<p><em>a</em> <strong>b</strong> <del>c</del> <code>d &lt;</code></p>\n",
    )?;
    shows(
        &rt,
        alloc,
        "a\\\nb  \nc\nd",
        "<p>a<br />\nb<br />\nc\nd</p>\n",
    )
}

#[test]
fn blocks(rt: HostRuntime) -> Result<(), AllocError> {
    let alloc = rt.alloc();
    shows(
        &rt,
        alloc,
        "# a\n\n###### b\n\n***",
        "<h1>a</h1>\n<h6>b</h6>\n<hr />\n",
    )?;
    shows(
        &rt,
        alloc,
        "> a\n> > b",
        "<blockquote>\n<p>a</p>\n<blockquote>\n<p>b</p>\n</blockquote>\n</blockquote>\n",
    )?;
    shows(&rt, alloc, "---\na: b\n---\nc", "<p>c</p>\n")?;
    shows(
        &rt,
        alloc,
        "```js x\na < b\n```",
        "<pre><code class=\"language-js\">a &lt; b\n</code></pre>\n",
    )?;
    shows(&rt, alloc, "```\n```", "<pre><code></code></pre>\n")
}

#[test]
fn lists(rt: HostRuntime) -> Result<(), AllocError> {
    let alloc = rt.alloc();
    shows(
        &rt,
        alloc,
        "* a\n* b",
        "<ul>\n<li>a</li>\n<li>b</li>\n</ul>\n",
    )?;
    shows(
        &rt,
        alloc,
        "7. a\n   * b\n\n8. c",
        "<ol start=\"7\">\n<li>\n<p>a</p>\n<ul>\n<li>b</li>\n</ul>\n</li>\n<li>\n<p>c</p>\n</li>\n</ol>\n",
    )?;
    shows(
        &rt,
        alloc,
        "7) a\n8) b",
        "<ol start=\"7\">\n<li>a</li>\n<li>b</li>\n</ol>\n",
    )
}

/// The classes and the place of the box are those of mdast-util-to-hast.
#[test]
fn tasks(rt: HostRuntime) -> Result<(), AllocError> {
    let alloc = rt.alloc();
    shows(
        &rt,
        alloc,
        "2. [x] a\n3. [ ] b\n4. c",
        "<ol start=\"2\" class=\"contains-task-list\">\n<li class=\"task-list-item\"><input type=\"checkbox\" checked=\"\" disabled=\"\" /> a</li>\n<li class=\"task-list-item\"><input type=\"checkbox\" disabled=\"\" /> b</li>\n<li>c</li>\n</ol>\n",
    )?;
    shows(
        &rt,
        alloc,
        "- [ ] a\n\n  b\n- c",
        "<ul class=\"contains-task-list\">\n<li class=\"task-list-item\">\n<p><input type=\"checkbox\" disabled=\"\" /> a</p>\n<p>b</p>\n</li>\n<li>\n<p>c</p>\n</li>\n</ul>\n",
    )?;
    shows(
        &rt,
        alloc,
        "- a\n  - [x] b\n    - c",
        "<ul>\n<li>a\n<ul class=\"contains-task-list\">\n<li class=\"task-list-item\"><input type=\"checkbox\" checked=\"\" disabled=\"\" /> b\n<ul>\n<li>c</li>\n</ul>\n</li>\n</ul>\n</li>\n</ul>\n",
    )
}

#[test]
fn tables(rt: HostRuntime) -> Result<(), AllocError> {
    let alloc = rt.alloc();
    shows(
        &rt,
        alloc,
        "| a | b |\n| :- | -: |",
        "<table>\n<thead>\n<tr>\n<th align=\"left\">a</th>\n<th align=\"right\">b</th>\n</tr>\n</thead>\n</table>\n",
    )?;
    shows(
        &rt,
        alloc,
        "| a | b |\n| :-: | - |\n| *c* |\n| d | e | f |",
        "<table>\n<thead>\n<tr>\n<th align=\"center\">a</th>\n<th>b</th>\n</tr>\n</thead>\n<tbody>\n<tr>\n<td align=\"center\"><em>c</em></td>\n<td></td>\n</tr>\n<tr>\n<td align=\"center\">d</td>\n<td>e</td>\n</tr>\n</tbody>\n</table>\n",
    )
}

#[test]
fn math(rt: HostRuntime) -> Result<(), AllocError> {
    let alloc = rt.alloc();
    shows(
        &rt,
        alloc,
        "$a<b$",
        "<p><code class=\"language-math math-inline\">a&lt;b</code></p>\n",
    )?;
    shows(
        &rt,
        alloc,
        "$$\na\n$$",
        "<pre><code class=\"language-math math-display\">a</code></pre>\n",
    )
}

#[test]
fn links(rt: HostRuntime) -> Result<(), AllocError> {
    let alloc = rt.alloc();
    shows(
        &rt,
        alloc,
        "[a](</b c> \"d\") ![e*f*](g 'h&')",
        "<p><a href=\"/b%20c\" title=\"d\">a</a> <img src=\"g\" alt=\"ef\" title=\"h&amp;\" /></p>\n",
    )?;
    shows(
        &rt,
        alloc,
        "<https://a.b?c&d> www.ü.e",
        "<p><a href=\"https://a.b?c&amp;d\">https://a.b?c&amp;d</a> <a href=\"http://www.%C3%BC.e\">www.ü.e</a></p>\n",
    )
}

/// The first definition of an identifier counts. A reference that nothing defines is text.
#[test]
fn references(rt: HostRuntime) -> Result<(), AllocError> {
    let alloc = rt.alloc();
    shows(
        &rt,
        alloc,
        "[a] [b][A] ![c][a] [d][]\n\n[a]: e 'f'\n[a]: g",
        "<p><a href=\"e\" title=\"f\">a</a> <a href=\"e\" title=\"f\">b</a> <img src=\"e\" alt=\"c\" title=\"f\" /> [d][]</p>\n",
    )
}
