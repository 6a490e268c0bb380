//! The outcomes of calls from other languages that take only a document, with each status that a
//! test can produce. The values were worked out by hand.

use crate::outcomes::{bare, same_outcome};
use mdast_programs::outcomes::Outcome;
use mdast_programs::outcomes::parsed::parsed;
use std::process::Abort;

/// The bits of all constructs.
const EVERYTHING: u32 = 0x1fff_ffff;

/// A heading with a character of two bytes, and a paragraph.
const PARTS: &str = "# é *b*\n\nc\n";

/// Expects the outcome of a call to have these fields.
fn expect<R: Abort + AllocGlobal>(rt: &R, document: &[u8], options: [u32; 2], wanted: &Outcome) {
    let [constructs, form] = options;
    let outcome = parsed(rt.alloc(), document, constructs, form);
    same_outcome(rt, &outcome, wanted);
}

/// Expects a call to return this text.
fn gives<R: Abort + AllocGlobal>(rt: &R, document: &str, options: [u32; 2], text: &'static [u8]) {
    let mut wanted = bare(0);
    wanted.text = text;
    expect(rt, document.as_bytes(), options, &wanted);
}

#[test]
fn json(rt: HostRuntime) {
    gives(
        &rt,
        "é!",
        [0, 0],
        "{\"type\":\"root\",\"children\":[{\"type\":\"paragraph\",\"children\":[{\"type\":\"text\",\"value\":\"é!\",\"position\":{\"start\":{\"line\":1,\"column\":1,\"offset\":0},\"end\":{\"line\":1,\"column\":4,\"offset\":3}}}],\"position\":{\"start\":{\"line\":1,\"column\":1,\"offset\":0},\"end\":{\"line\":1,\"column\":4,\"offset\":3}}}],\"position\":{\"start\":{\"line\":1,\"column\":1,\"offset\":0},\"end\":{\"line\":1,\"column\":4,\"offset\":3}}}".as_bytes(),
    );
}

#[test]
fn json_in_units(rt: HostRuntime) {
    gives(
        &rt,
        "é!",
        [EVERYTHING, 1],
        "{\"type\":\"root\",\"children\":[{\"type\":\"paragraph\",\"children\":[{\"type\":\"text\",\"value\":\"é!\",\"position\":{\"start\":{\"line\":1,\"column\":1,\"offset\":0},\"end\":{\"line\":1,\"column\":3,\"offset\":2}}}],\"position\":{\"start\":{\"line\":1,\"column\":1,\"offset\":0},\"end\":{\"line\":1,\"column\":3,\"offset\":2}}}],\"position\":{\"start\":{\"line\":1,\"column\":1,\"offset\":0},\"end\":{\"line\":1,\"column\":3,\"offset\":2}}}".as_bytes(),
    );
}

#[test]
fn an_outline(rt: HostRuntime) {
    gives(&rt, PARTS, [EVERYTHING, 2], "é b (1:1)\n".as_bytes());
    gives(&rt, "c", [EVERYTHING, 2], b"");
}

#[test]
fn a_plain_text(rt: HostRuntime) {
    gives(&rt, PARTS, [EVERYTHING, 3], "é b\nc\n".as_bytes());
    gives(&rt, "", [EVERYTHING, 3], b"");
}

/// A text, raw HTML in it, and a link whose scheme is not allowed.
const MARKED: &str = "*a* <xmp> [b](c:d)";

#[test]
fn html(rt: HostRuntime) {
    let safe = b"<p><em>a</em>  <a href=\"\">b</a></p>\n";
    gives(&rt, MARKED, [EVERYTHING, 4], safe);
    let passing = b"<p><em>a</em> <xmp> <a href=\"c:d\">b</a></p>\n";
    gives(&rt, MARKED, [EVERYTHING, 5], passing);
    let filtered = b"<p><em>a</em> &lt;xmp> <a href=\"c:d\">b</a></p>\n";
    gives(&rt, MARKED, [EVERYTHING, 6], filtered);
}

#[test]
fn struck_text_by_its_bit(rt: HostRuntime) {
    gives(&rt, "~~a~~", [1 << 13, 3], b"a\n");
    gives(&rt, "~~a~~", [EVERYTHING - (1 << 13), 3], b"~~a~~\n");
}

#[test]
fn a_document_that_is_not_utf8(rt: HostRuntime) {
    let mut wanted = bare(5);
    wanted.offset = 3;
    expect(&rt, b"a\xC3\xA9\xA9", [EVERYTHING, 0], &wanted);
}

#[test]
fn options_that_are_none(rt: HostRuntime) {
    expect(&rt, b"\xFF", [EVERYTHING + 1, 0], &bare(6));
    expect(&rt, b"\xFF", [EVERYTHING, 7], &bare(6));
}
