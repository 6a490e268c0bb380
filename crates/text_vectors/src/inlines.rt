//! Escapes, references, code, attention, autolinks, HTML, breaks and math (micromark's spans).

use crate::reading::shows;
use std::alloc::{AllocError, Global};

#[test]
fn escapes(rt: HostRuntime) -> Result<(), AllocError> {
    let alloc = rt.alloc();
    shows(
        &rt,
        alloc,
        "\\*a",
        "(Paragraph (CharacterEscape CharacterEscapeMarker:1 CharacterEscapeValue:2 ) Data:3 ) ",
    )?;
    shows(&rt, alloc, "a\\b", "(Paragraph Data:3 ) ")
}

#[test]
fn references(rt: HostRuntime) -> Result<(), AllocError> {
    let alloc = rt.alloc();
    shows(
        &rt,
        alloc,
        "&amp;",
        "(Paragraph (CharacterReference CharacterReferenceMarker:1 CharacterReferenceValue:4 CharacterReferenceMarkerSemi:5 ) ) ",
    )?;
    shows(
        &rt,
        alloc,
        "&#65;",
        "(Paragraph (CharacterReference CharacterReferenceMarker:1 CharacterReferenceMarkerNumeric:2 CharacterReferenceValue:4 CharacterReferenceMarkerSemi:5 ) ) ",
    )?;
    shows(
        &rt,
        alloc,
        "&#x41;",
        "(Paragraph (CharacterReference CharacterReferenceMarker:1 CharacterReferenceMarkerNumeric:2 CharacterReferenceMarkerHexadecimal:3 CharacterReferenceValue:5 CharacterReferenceMarkerSemi:6 ) ) ",
    )?;
    shows(&rt, alloc, "&amp", "(Paragraph Data:4 ) ")?;
    shows(&rt, alloc, "&nope;", "(Paragraph Data:6 ) ")
}

#[test]
fn code_and_math(rt: HostRuntime) -> Result<(), AllocError> {
    let alloc = rt.alloc();
    shows(
        &rt,
        alloc,
        "`a`",
        "(Paragraph (CodeText CodeTextSequence:1 CodeTextData:2 CodeTextSequence:3 ) ) ",
    )?;
    shows(
        &rt,
        alloc,
        "``a\nb``",
        "(Paragraph (CodeText CodeTextSequence:2 CodeTextData:3 LineEnding:4 CodeTextData:5 CodeTextSequence:7 ) ) ",
    )?;
    shows(&rt, alloc, "``a`", "(Paragraph Data:4 ) ")?;
    shows(
        &rt,
        alloc,
        "$a$",
        "(Paragraph (MathText MathTextSequence:1 MathTextData:2 MathTextSequence:3 ) ) ",
    )
}

#[test]
fn emphasis(rt: HostRuntime) -> Result<(), AllocError> {
    let alloc = rt.alloc();
    shows(
        &rt,
        alloc,
        "*a*",
        "(Paragraph (Emphasis EmphasisSequence:1 (EmphasisText Data:2 ) EmphasisSequence:3 ) ) ",
    )?;
    shows(
        &rt,
        alloc,
        "__a__",
        "(Paragraph (Strong StrongSequence:2 (StrongText Data:3 ) StrongSequence:5 ) ) ",
    )?;
    shows(
        &rt,
        alloc,
        "***a***",
        "(Paragraph (Emphasis EmphasisSequence:1 (EmphasisText (Strong StrongSequence:3 (StrongText Data:4 ) StrongSequence:6 ) ) EmphasisSequence:7 ) ) ",
    )?;
    shows(
        &rt,
        alloc,
        "**a*",
        "(Paragraph Data:1 (Emphasis EmphasisSequence:2 (EmphasisText Data:3 ) EmphasisSequence:4 ) ) ",
    )?;
    shows(&rt, alloc, "a_b_c", "(Paragraph Data:5 ) ")?;
    shows(
        &rt,
        alloc,
        "* a*",
        "(ListUnordered (ListItem (ListItemPrefix ListItemMarker:1 SpaceOrTab:2 ) (Paragraph Data:4 ) ) ) ",
    )
}

#[test]
fn struck_text(rt: HostRuntime) -> Result<(), AllocError> {
    let alloc = rt.alloc();
    for (document, open, text, end) in [("~a~", 1, 2, 3), ("~~a~~", 2, 3, 5)] {
        let want = format!(in alloc;
            "(Paragraph (GfmStrikethrough GfmStrikethroughSequence:{open} (GfmStrikethroughText Data:{text} ) GfmStrikethroughSequence:{end} ) ) "
        )?;
        shows(&rt, alloc, document, want.as_str())?;
    }
    shows(
        &rt,
        alloc,
        "~~~a",
        "(CodeFenced (CodeFencedFence CodeFencedFenceSequence:3 (CodeFencedFenceInfo Data:4 ) ) ) ",
    )?;
    shows(&rt, alloc, "~a~~", "(Paragraph Data:4 ) ")
}

#[test]
fn autolinks(rt: HostRuntime) -> Result<(), AllocError> {
    let alloc = rt.alloc();
    shows(
        &rt,
        alloc,
        "<a@b.c>",
        "(Paragraph (Autolink AutolinkMarker:1 AutolinkEmail:6 AutolinkMarker:7 ) ) ",
    )?;
    shows(
        &rt,
        alloc,
        "<ab:c>",
        "(Paragraph (Autolink AutolinkMarker:1 AutolinkProtocol:5 AutolinkMarker:6 ) ) ",
    )?;
    shows(&rt, alloc, "<a:c >", "(Paragraph Data:6 ) ")?;
    shows(
        &rt,
        alloc,
        "www.a.b.",
        "(Paragraph GfmAutolinkLiteralWww:7 Data:8 ) ",
    )?;
    shows(
        &rt,
        alloc,
        "(http://a.b)",
        "(Paragraph Data:1 GfmAutolinkLiteralProtocol:11 Data:12 ) ",
    )?;
    shows(
        &rt,
        alloc,
        "a@b.c!",
        "(Paragraph GfmAutolinkLiteralEmail:5 Data:6 ) ",
    )
}

/// Documents, and where the autolink literal in each begins and ends. Data comes before and after
/// it.
const LITERALS: [(&str, &str, usize, usize); 22] = [
    ("~http://a.b", "Protocol", 1, 11),
    ("a\u{b}www.a.b", "Www", 2, 9),
    ("http://a.b..c", "Protocol", 0, 13),
    ("ftp://_.a_.b.c", "Protocol", 0, 14),
    ("www.a.b__.*", "Www", 0, 7),
    ("http://-.-)", "Protocol", 0, 10),
    ("http://a.b/[c](d)", "Protocol", 0, 17),
    ("http://a.b/c]", "Protocol", 0, 13),
    ("[ http://a.b/[c]]", "Protocol", 2, 16),
    ("[ www.a.b_]", "Www", 2, 9),
    ("www.a.b/\"c;", "Www", 0, 10),
    ("http://a", "Protocol", 0, 8),
    ("/http://a.b", "Protocol", 1, 11),
    ("\"ftp://a.b", "Protocol", 1, 10),
    ("]http://a.b", "Protocol", 1, 11),
    ("www.a", "Www", 0, 5),
    ("www.a._", "Www", 0, 5),
    ("http://a..b", "Protocol", 0, 11),
    ("http://localhost:3000'", "Protocol", 0, 21),
    ("www.a.b/c&d1;&e;?", "Www", 0, 9),
    ("a@b.1", "Email", 0, 5),
    ("a@-b._c.", "Email", 0, 7),
];

#[test]
fn autolink_literals(rt: HostRuntime) -> Result<(), AllocError> {
    let alloc = rt.alloc();
    for (document, name, start, end) in LITERALS {
        let size = document.len();
        let before = data_to(alloc, start, start > 0)?;
        let after = data_to(alloc, size, end < size)?;
        let want = format!(in alloc;
            "(Paragraph {before}GfmAutolinkLiteral{name}:{end} {after}) "
        )?;
        shows(&rt, alloc, document, want.as_str())?;
    }
    Ok(())
}

/// Returns data up to an offset as a text, if there is any.
fn data_to(alloc: Global, end: usize, is_there: bool) -> Result<String, AllocError> {
    if is_there {
        format!(in alloc; "Data:{end} ")
    } else {
        Ok(String::new(alloc))
    }
}

/// Documents that contain no autolink literal.
const NO_LITERALS: [&str; 10] = [
    "ftp://.a.b",
    "www.a.b_/c",
    "www.a_.b.*c",
    "1www.a.b",
    "\"www.a.b",
    "ahttp://a.b",
    "[www.a.b",
    "a@.b",
    "a@b.1-",
    "a@b..c",
];

#[test]
fn no_autolink_literals(rt: HostRuntime) -> Result<(), AllocError> {
    let alloc = rt.alloc();
    for document in NO_LITERALS {
        let size = document.len();
        let want = format!(in alloc; "(Paragraph Data:{size} ) ")?;
        shows(&rt, alloc, document, want.as_str())?;
    }
    Ok(())
}

#[test]
fn html(rt: HostRuntime) -> Result<(), AllocError> {
    let alloc = rt.alloc();
    shows(
        &rt,
        alloc,
        "a<b\nc>",
        "(Paragraph Data:1 (HtmlText HtmlTextData:3 LineEnding:4 HtmlTextData:6 ) ) ",
    )?;
    shows(
        &rt,
        alloc,
        "a<!-- -->",
        "(Paragraph Data:1 (HtmlText HtmlTextData:9 ) ) ",
    )?;
    shows(&rt, alloc, "a<b", "(Paragraph Data:3 ) ")
}

#[test]
fn breaks(rt: HostRuntime) -> Result<(), AllocError> {
    let alloc = rt.alloc();
    shows(
        &rt,
        alloc,
        "a\\\nb",
        "(Paragraph Data:1 HardBreakEscape:2 LineEnding:3 Data:4 ) ",
    )?;
    shows(
        &rt,
        alloc,
        "a  \r\nb",
        "(Paragraph Data:1 HardBreakTrailing:3 LineEnding:5 Data:6 ) ",
    )?;
    shows(
        &rt,
        alloc,
        "a \n b",
        "(Paragraph Data:1 SpaceOrTab:2 LineEnding:3 SpaceOrTab:4 Data:5 ) ",
    )
}
