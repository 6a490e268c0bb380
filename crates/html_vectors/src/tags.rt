//! A reader of the tags of a page. It is independent of `html_text`.

use std::alloc::Global;

/// The elements that a page may contain, and the attributes that each may have.
static ELEMENTS: [(&str, &[&str]); 29] = [
    ("p", &[]),
    ("blockquote", &[]),
    ("em", &[]),
    ("strong", &[]),
    ("del", &[]),
    ("sup", &["id"]),
    ("h1", &[]),
    ("h2", &["class", "id"]),
    ("h3", &[]),
    ("h4", &[]),
    ("h5", &[]),
    ("h6", &[]),
    ("ol", &["start", "class"]),
    ("ul", &["class"]),
    ("li", &["id", "class"]),
    ("pre", &[]),
    ("code", &["class"]),
    (
        "a",
        &[
            "href",
            "title",
            "id",
            "class",
            "data-footnote-ref",
            "data-footnote-backref",
            "aria-describedby",
            "aria-label",
        ],
    ),
    ("table", &[]),
    ("thead", &[]),
    ("tbody", &[]),
    ("tr", &[]),
    ("th", &["align"]),
    ("td", &["align"]),
    ("section", &["data-footnotes", "class"]),
    ("hr", &[]),
    ("br", &[]),
    ("img", &["src", "alt", "title"]),
    ("input", &["type", "checked", "disabled"]),
];

/// The elements that stand in few others, and those.
static PARENTS: [(&str, &[&str]); 6] = [
    ("li", &["ol", "ul"]),
    ("thead", &["table"]),
    ("tbody", &["table"]),
    ("tr", &["thead", "tbody"]),
    ("th", &["tr"]),
    ("td", &["tr"]),
];

/// The elements that stand in no other ones, and those.
static OUTSIDE: [(&[&str], &[&str]); 2] = [
    (&["a"], &["a"]),
    (
        &[
            "p",
            "h1",
            "h2",
            "h3",
            "h4",
            "h5",
            "h6",
            "blockquote",
            "ol",
            "ul",
            "pre",
            "section",
            "table",
            "hr",
        ],
        &["p", "h1", "h2", "h3", "h4", "h5", "h6", "table"],
    ),
];

/// Reads a page to its end. Each `<` begins a tag and each `>` ends one; anything not allowed is a
/// fault.
pub fn read(alloc: Global, page: &str) -> Result<(), &'static str> {
    let mut pieces = page.split('<');
    if pieces.next().is_some_and(|text| text.contains('>')) {
        return Err("`>` in a text");
    }
    let mut up = Vec::new(alloc);
    for piece in pieces {
        let Some((tag, text)) = piece.split_once('>') else {
            return Err("`<` without `>`");
        };
        if text.contains('>') {
            return Err("`>` in a text");
        }
        read_tag(tag, &mut up)?;
    }
    if up.is_empty() {
        Ok(())
    } else {
        Err("an element that stays open")
    }
}

/// Reads a tag inside these open elements.
fn read_tag<'a>(tag: &'a str, up: &mut Vec<&'a str>) -> Result<(), &'static str> {
    if let Some(name) = tag.strip_prefix("/") {
        return match up.pop() {
            Some(last) if last == name => Ok(()),
            _ => Err("an end tag of another element"),
        };
    }
    let (tag, is_void) = match tag.strip_suffix(" /") {
        Some(tag) => (tag, true),
        None => (tag, false),
    };
    let (name, attributes) = match tag.split_once(' ') {
        Some((name, attributes)) => (name, attributes),
        None => (tag, ""),
    };
    let Some((_, allowed)) = ELEMENTS.iter().find(|(element, _)| *element == name) else {
        return Err("an element that is not listed");
    };
    read_attributes(attributes, allowed)?;
    if !stands(name, up) {
        return Err("an element where a browser would move it");
    }
    if !is_void && up.push(name).is_err() {
        return Err("out of memory");
    }
    Ok(())
}

/// Whether an element may begin inside these open elements.
fn stands(name: &str, up: &[&str]) -> bool {
    let parent = up.last().copied().unwrap_or("");
    let is_placed = PARENTS.iter().all(|(element, parents)| *element != name
        || (&**parents).contains(&parent));
    let is_outside = OUTSIDE.iter().all(|(elements, others)| {
        !(&**elements).contains(&name) || !up.iter().any(|open| (&**others).contains(open))
    });
    is_placed && is_outside
}

/// Reads attributes, and allows only these: a name, and a value in quotes.
fn read_attributes(attributes: &str, allowed: &[&str]) -> Result<(), &'static str> {
    let mut is_name = true;
    for part in attributes.split('"') {
        if is_name && !part.is_empty() {
            let Some(name) = part.trim_start().strip_suffix("=") else {
                return Err("an attribute without a value");
            };
            if !(&*allowed).contains(&name) {
                return Err("an attribute that is not listed");
            }
        }
        is_name = !is_name;
    }
    Ok(())
}
