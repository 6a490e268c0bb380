//! Tests of what arguments request, and of what is printed then. The texts are worked out by hand;
//! the lines of drawn trees are those of unist-util-inspect.

use crate::arguments::{Request, read_arguments, status};
use crate::constructs::{NAMES, Switches};
use crate::form::{Form, print_tree};
use crate::source::Source;
use document_forms::{Asked, TreeForm};
use markdown::Constructs;
use std::alloc::{AllocError, Global};
use std::process::Abort;

/// Returns what arguments request, or the status with which they end the program.
fn asked(rt: &HostRuntime, arguments: &[&str]) -> Result<Request, u8> {
    let Ok(words) = words(rt.alloc(), arguments) else {
        return Err(3);
    };
    match read_arguments(rt, words.as_slice()) {
        Ok(request) => Ok(request),
        Err(error) => Err(status(&error)),
    }
}

/// Returns the name of the program, and arguments.
fn words(alloc: Global, arguments: &[&str]) -> Result<Vec<String>, AllocError> {
    let mut words = Vec::new(alloc);
    words.push(String::from_str(alloc, "mdast")?)?;
    for argument in arguments {
        words.push(String::from_str(alloc, argument)?)?;
    }
    Ok(words)
}

/// Arguments that end the program, and the status: the help and the version with 0, and mistakes
/// with 2.
static ENDING: [(&[&str], u8); 13] = [
    (&["--help"], 0),
    (&["-h"], 0),
    (&["--version"], 0),
    (&["--nope"], 2),
    (&["--tree", "--text"], 2),
    (&["--tree", "--utf16"], 2),
    (&["--tree", "--unsafe"], 2),
    (&["--html", "--tag-filter"], 2),
    (&["--gfm", "--commonmark"], 2),
    (&["--with", "nope"], 2),
    (&["--width", "x"], 2),
    (&["--from-events", "a", "b", "c"], 2),
    (&["--from-events", "-"], 2),
];

#[test]
fn ends_with_a_status(rt: HostRuntime) {
    for (arguments, want) in &ENDING {
        match asked(&rt, arguments) {
            Ok(_) => assert!(rt; false, "{arguments:?} is a request"),
            Err(found) => assert_eq!(rt; found, *want, "{arguments:?}"),
        }
    }
}

/// Arguments, and the form that they request.
static FORMS: [(&[&str], Form); 12] = [
    (&[], Form::Tree(TreeForm::Json)),
    (&["--json"], Form::Tree(TreeForm::Json)),
    (&["--utf16"], Form::Tree(TreeForm::JsonUtf16)),
    (&["--utf16", "--json"], Form::Tree(TreeForm::JsonUtf16)),
    (&["--tree", "--width", "40"], Form::Tree(TreeForm::Drawn)),
    (&["--outline"], Form::Tree(TreeForm::Outline)),
    (&["--text"], Form::Tree(TreeForm::PlainText)),
    (&["--html"], Form::Tree(TreeForm::Html)),
    (&["--html", "--unsafe"], Form::Tree(TreeForm::UnsafeHtml)),
    (
        &["--html", "--unsafe", "--tag-filter"],
        Form::Tree(TreeForm::FilteredHtml),
    ),
    (&["--check"], Form::Tree(TreeForm::Warnings)),
    (
        &["--from-events", "a", "b", "--debug"],
        Form::Tree(TreeForm::Debug),
    ),
];

#[test]
fn asks_for_a_form(rt: HostRuntime) {
    for (arguments, want) in &FORMS {
        match asked(&rt, arguments) {
            Ok(request) => assert_eq!(rt; request.printed_form(), *want, "{arguments:?}"),
            Err(found) => assert!(rt; false, "{arguments:?} ends with {found}"),
        }
    }
}

/// Arguments, a document, and what is printed of it. A byte of some of them is hidden.
static PRINTED: [(&[&str], &str, &str); 17] = [
    (
        &["--outline"],
        "# Use\n\n> - ## Events\n",
        "Use (1:1)\n  Events (3:5)\n",
    ),
    (&["--outline"], "a\n\n<div>\n# b\n</div>", ""),
    (
        &["--outline", "--without", "heading_atx"],
        "# a\n\n*b*\n===",
        "b (3:1)\n",
    ),
    (&["--outline"], "|a|\n|-|\n|`\\|`|\n\n# b", "b (5:1)\n"),
    (
        &["--text"],
        "# Hi *Earth*!\n\nNext\\\nline &amp; `x  y` ![an *image*](u)\n",
        "Hi Earth!\nNext\nline & x  y an image\n",
    ),
    (&["--text"], "```js\na\n\nb\n```\n\n<b>\n", "a\n\nb\n"),
    (
        &["--text"],
        "- [x] done\n- <http://a.b>",
        "done\nhttp://a.b\n",
    ),
    (&["--text"], "|a|\n|-|\n|`\\|`|\n\nb", "a\n|\nb\n"),
    (&["--text"], "> [a\n> b]: u\n\n[a b]", "a b\n"),
    (
        &["--tree"],
        "***",
        "root[1] (1:1-1:4, 0-3)\n└─0 thematicBreak (1:1-1:4, 0-3)\n",
    ),
    (&["--tree", "--width", "8"], "***", "root[1]…\n└─0 the…\n"),
    (
        &["--json"],
        "***",
        "{\"type\":\"root\",\"children\":[{\"type\":\"thematicBreak\",\"position\":{\"start\":{\"line\":1,\"column\":1,\"offset\":0},\"end\":{\"line\":1,\"column\":4,\"offset\":3}}}],\"position\":{\"start\":{\"line\":1,\"column\":1,\"offset\":0},\"end\":{\"line\":1,\"column\":4,\"offset\":3}}}\n",
    ),
    (
        &["--debug"],
        "***",
        "Root { children: [ThematicBreak { position: Some(1:1-1:4 (0-3)) }], position: Some(1:1-1:4 (0-3)) }\n",
    ),
    (&["--html"], "a <b>c</b>", "<p>a c</p>\n"),
    (&["--html", "--unsafe"], "a <b>c</b>", "<p>a <b>c</b></p>\n"),
    (
        &["--html", "--unsafe", "--tag-filter"],
        "a <xmp>c",
        "<p>a &lt;xmp>c</p>\n",
    ),
    (
        &["--check"],
        "# a\n\n### b\n",
        "DOC:3:1: warning: heading of depth 3 after one of depth 1 (heading-jump)\n",
    ),
];

#[test]
fn prints_documents(rt: HostRuntime) {
    for (arguments, document, want) in &PRINTED {
        match printed(&rt, arguments, document) {
            Some(text) => assert_eq!(rt; text.as_str(), *want),
            None => assert!(rt; false, "{arguments:?}: nothing is printed"),
        }
    }
}

/// Returns what is printed of a document.
fn printed(rt: &HostRuntime, arguments: &[&str], document: &str) -> Option<String> {
    let request = asked(rt, arguments).ok()?;
    let Form::Tree(form) = request.printed_form() else {
        return None;
    };
    let asked = Asked {
        form,
        name: "DOC",
        width: request.width,
    };
    let mut output = Vec::new(rt.alloc());
    let document = document.as_bytes();
    let printed = print_tree(rt, &request, document, &asked, &mut output).ok()?;
    let has_warnings = form == TreeForm::Warnings && !output.is_empty();
    if printed.is_clean == has_warnings {
        return None;
    }
    String::from_utf8(output).ok()
}

#[test]
fn turns_constructs(rt: HostRuntime) {
    let arguments = [
        "--commonmark",
        "--with",
        "gfm_table",
        "--without",
        "html_flow",
        "a.md",
        "-",
    ];
    let Ok(request) = asked(&rt, &arguments) else {
        return assert!(rt; false);
    };
    let constructs = Constructs {
        gfm_table: true,
        html_flow: false,
        ..Constructs::default()
    };
    assert_eq!(rt; request.options.constructs, constructs);
    assert!(rt; !request.options.undefined_references);
    assert_eq!(rt; request.documents.len(), 2);
    assert!(rt; request.documents.last() == Some(&Source::Input));
}

/// Each name turns a construct off, and on again.
#[test]
fn names_turn_constructs(rt: HostRuntime) {
    expect_turned(&rt, &NAMES);
}

/// Expects that each of these names turns a construct off, and on again.
fn expect_turned(rt: &impl Abort, names: &[&'static str]) {
    for name in names {
        let only = [*name];
        let without = Switches {
            on: &[],
            off: &only,
        };
        let with = Switches {
            on: &only,
            off: &[],
        };
        let rest = without.turned(&Constructs::everything());
        assert!(rt; rest != Constructs::everything(), "{name}");
        assert!(rt; with.turned(&rest) == Constructs::everything(), "{name}");
    }
}
