//! What a run over tables of cases prints for those that fail.

use crate::expect::same;
use mdast_cases::run::{Input, run, status};
use std::alloc::{AllocError, Global};
use std::process::Abort;

/// A table of one row that has a tree, and one that is refused.
const ROWS: &str = r#"# A comment.
section Texts

row a-text
"a\n"
Data 0-1, LineEnding 1-2
= Root { children: [Text { value: "a", position: Some(1:1-1:2 (0-1)) }], position: Some(1:1-2:1 (0-2)) }
ordered yes

section Breaks

row a-break-alone
"a"
HardBreakTrailing 0-1
! break-unfinished 1:2 (1)
"#;

/// What is printed for that table: the list of its tree is cut in both spans, whose exits are not
/// adjacent.
const ROWS_LINE: &str =
    "x: 2 cases, each as it must be: 1 trees copied, 0 forms, 2 lists cut, 0 pairs of exits swapped";

/// Returns a file with this name and text.
fn input(alloc: Global, name: &str, text: &str) -> Result<Input, AllocError> {
    Ok(Input {
        name: String::from_str(alloc, name)?,
        bytes: text.as_bytes().to_vec(alloc)?,
    })
}

/// Returns files with these names and texts.
fn inputs(alloc: Global, files: &[(&str, &str)]) -> Result<Vec<Input>, AllocError> {
    let mut inputs = Vec::new(alloc);
    for (name, text) in files {
        inputs.push(input(alloc, name, text)?)?;
    }
    Ok(inputs)
}

/// Runs the program over files, and compares the result.
fn expect<R: Abort + AllocGlobal>(
    rt: &R,
    files: &[(&str, &str)],
    said: &str,
    ended: u8,
) -> Result<(), AllocError> {
    let inputs = inputs(rt.alloc(), files)?;
    let mut output = Vec::new(rt.alloc());
    let verdict = run(rt.alloc(), inputs.as_slice(), &mut output);
    let status = status(rt.alloc(), verdict, &mut output);
    same(rt, str::from_utf8(output.as_slice()), Ok(said));
    same(rt, status, ended);
    Ok(())
}

/// Tables that fail, and what is printed for each.
static TURNED: [(&str, &str); 2] = [
    (
        "row a\n\"a\"\nData 0-1\n! slice-invalid 1:1 (0)\n\ncase 7\ndoc\n= Root { children: [] }\n",
        "x: row a gives = Root { children: [Text { value: \"a\", position: Some(1:1-1:2 (0-1)) }], position: Some(1:1-1:2 (0-1)) }\nx: case 7 gives = Root { children: [], position: Some(1:1-1:1 (0-0)) }\nx: 2 cases, 2 not as they must be\n",
    ),
    (
        "row a\n\"a\"\nData 0-1\n= Root { children: [Text { value: \"a\", position: Some(1:1-1:2 (0-1)) }], position: Some(1:1-1:2 (0-1)) }\nordered no\n\nrow b\n\"ab\"\nParagraph 1-2, Paragraph 0-1\n= Root { children: [Paragraph { children: [], position: Some(1:2-1:3 (1-2)) }, Paragraph { children: [], position: Some(1:1-1:2 (0-1)) }], position: Some(1:2-1:2 (1-1)) }\nordered yes\n",
        "x: row a gives a tree that is ordered\nx: row b gives a tree that is not ordered\nx: 2 cases, 2 not as they must be\n",
    ),
];

#[test]
fn names_turned_answers_and_orders(rt: HostRuntime) -> Result<(), AllocError> {
    for (table, said) in &TURNED {
        expect(&rt, &[("x", table)], said, 1)?;
    }
    Ok(())
}

/// A row, the same with one change at a time, and what is compared for each: the tree, the forms
/// that the row has, the events after which a span is open, and the adjacent exits of different
/// names.
static COMPARED: [(&str, &str); 6] = [
    (
        r#"row a
""
BlockQuote 0-0 { Paragraph 0-0 }
= Root { children: [Blockquote { children: [Paragraph { children: [], position: Some(1:1-1:1 (0-0)) }], position: Some(1:1-1:1 (0-0)) }], position: Some(1:1-1:1 (0-0)) }
plain ""
"#,
        "1 trees copied, 1 forms, 3 lists cut, 1 pairs of exits swapped",
    ),
    // Without its plain text.
    (
        r#"row a
""
BlockQuote 0-0 { Paragraph 0-0 }
= Root { children: [Blockquote { children: [Paragraph { children: [], position: Some(1:1-1:1 (0-0)) }], position: Some(1:1-1:1 (0-0)) }], position: Some(1:1-1:1 (0-0)) }
"#,
        "1 trees copied, 0 forms, 3 lists cut, 1 pairs of exits swapped",
    ),
    // With exits of one name.
    (
        r#"row a
""
BlockQuote 0-0 { BlockQuote 0-0 }
= Root { children: [Blockquote { children: [Blockquote { children: [], position: Some(1:1-1:1 (0-0)) }], position: Some(1:1-1:1 (0-0)) }], position: Some(1:1-1:1 (0-0)) }
plain ""
"#,
        "1 trees copied, 1 forms, 3 lists cut, 0 pairs of exits swapped",
    ),
    // With one span after the other.
    (
        r#"row a
""
BlockQuote 0-0, Paragraph 0-0
= Root { children: [Blockquote { children: [], position: Some(1:1-1:1 (0-0)) }, Paragraph { children: [], position: Some(1:1-1:1 (0-0)) }], position: Some(1:1-1:1 (0-0)) }
plain ""
"#,
        "1 trees copied, 1 forms, 2 lists cut, 0 pairs of exits swapped",
    ),
    // Without a span, and with all forms.
    (
        r#"row a
""
= Root { children: [], position: Some(1:1-1:1 (0-0)) }
json {"type":"root","children":[],"position":{"start":{"line":1,"column":1,"offset":0},"end":{"line":1,"column":1,"offset":0}}}
plain ""
report ""
"#,
        "1 trees copied, 3 forms, 0 lists cut, 0 pairs of exits swapped",
    ),
    // With a break in place of the paragraph, without its line ending: there is no tree.
    (
        r#"row a
""
BlockQuote 0-0 { HardBreakTrailing 0-0 }
! break-unfinished 1:1 (0)
"#,
        "0 trees copied, 0 forms, 0 lists cut, 0 pairs of exits swapped",
    ),
];

#[test]
fn counts_what_is_compared(rt: HostRuntime) -> Result<(), AllocError> {
    for (table, compared) in &COMPARED {
        let said = format!(in rt.alloc(); "x: 1 cases, each as it must be: {compared}\n")?;
        expect(&rt, &[("x", table)], said.as_str(), 0)?;
    }
    Ok(())
}

/// Checksums for the rows above, what is printed for them, and the status.
static CHECKSUMS: [(&str, &str, u8); 4] = [
    (
        "# A comment.\nTexts row a-text dd668283f150b65e\nBreaks row a-break-alone b89b56eb277dfbbe\n",
        "y.sums: 2 rows, as in x\n",
        0,
    ),
    (
        "Texts row a-text dd668283f150b65e\nBreaks row a-break-alone b89b56eb277dfbbf\n",
        "y.sums: row a-break-alone is not as in x\n",
        1,
    ),
    (
        "Texts row a-text dd668283f150b65e\n",
        "y.sums: row a-break-alone is not as in x\n",
        1,
    ),
    (
        "Texts row a-text dd668283f150b65e\nBreaks row a-break-alone b89b56eb277dfbbe\nBreaks row b 0\n",
        "y.sums: Breaks row b 0 is not in x\n",
        1,
    ),
];

#[test]
fn names_rows_with_another_checksum(rt: HostRuntime) -> Result<(), AllocError> {
    for (sums, told, ended) in &CHECKSUMS {
        let said = format!(in rt.alloc(); "{ROWS_LINE}\n{told}")?;
        expect(&rt, &[("x", ROWS), ("y.sums", sums)], said.as_str(), *ended)?;
    }
    Ok(())
}

#[test]
fn asks_for_a_table_before_its_checksums(rt: HostRuntime) -> Result<(), AllocError> {
    let said = "usage: mdast_replay FILE.., each a table, or the .sums of the table before it\n";
    expect(&rt, &[("y.sums", "")], said, 2)
}

/// Tables, and the line of each that cannot be read.
static UNREAD: [(&str, usize); 26] = [
    ("nothing", 1),
    ("\n\"a\"\n", 2),
    ("row a\n\"a\"\nData 0-1\n\nrow b\n", 1),
    ("row a\n= Root\n", 1),
    ("row a\n\"a\n", 2),
    ("row a\n\"a\\q\"\n", 2),
    ("row a\n\"a\\\"\n", 2),
    ("row a\n\"a\"b\"\n", 2),
    ("row a\n\"a\"\n\"a\"\n", 3),
    ("row a\nData 0-1\n", 2),
    ("row a\n\"a\"\nDate 0-1\n", 3),
    ("row a\n\"a\"\nData 0\n", 3),
    ("row a\n\"a\"\nData +0-1\n", 3),
    ("row a\n\"a\"\nData @1:1:0-1\n", 3),
    ("row a\n\"a\"\nData 0-1 { Data 0-1\n", 3),
    ("row a\n\"a\"\nData 0-1 }\n", 3),
    ("row a\n\"a\"\nData 0-1 } { Data 0-1\n", 3),
    ("row a\n\"a\"\nData 0-1 { }\n", 3),
    ("row a\n\"a\"\nData 0-1,\n", 3),
    ("row a\n\"a\"\nData 0-1\ncolumns bytes\n", 4),
    ("row a\n\"a\"\n= Root\n= Root\n", 4),
    ("row a\n\"a\"\nordered perhaps\n", 3),
    ("row a\n\"a\"\nordered yes\nordered no\n", 4),
    ("case 1\ndoc 616\n", 2),
    ("case 1\ndoc 6g\n", 2),
    ("case 1\ndoc 61\n+Data 1:1:0\n+Data 1:1\n", 4),
];

#[test]
fn numbers_a_line_that_cannot_be_read(rt: HostRuntime) -> Result<(), AllocError> {
    for (table, number) in &UNREAD {
        let said = format!(in rt.alloc(); "mdast_replay: line {number} of x cannot be read\n")?;
        expect(&rt, &[("x", table)], said.as_str(), 2)?;
    }
    Ok(())
}
