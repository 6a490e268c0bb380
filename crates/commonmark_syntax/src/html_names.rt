//! Names of HTML elements that begin a block (CommonMark).

ghost use Rattle.std.proofs.Common.{Bor};
ghost use Rattle.std.specs.Prelude.{◌≡◌, List, ℕ};
ghost use Rattle.std.specs.List.{list_any};
ghost use Rattle.std.specs.Str.{str_eq_ignore_ascii_case};
ghost use Rattle.commonmark_syntax.specs.Html.{basic_names, is_among, raw_names};

/// Elements whose content may have blank lines: condition 1.
static RAW: [&[u8]; 4] = [b"pre", b"script", b"style", b"textarea"];

/// Elements that begin a block that ends at a blank line: condition 6.
static BASIC: [&[u8]; 62] = [
    b"address",
    b"article",
    b"aside",
    b"base",
    b"basefont",
    b"blockquote",
    b"body",
    b"caption",
    b"center",
    b"col",
    b"colgroup",
    b"dd",
    b"details",
    b"dialog",
    b"dir",
    b"div",
    b"dl",
    b"dt",
    b"fieldset",
    b"figcaption",
    b"figure",
    b"footer",
    b"form",
    b"frame",
    b"frameset",
    b"h1",
    b"h2",
    b"h3",
    b"h4",
    b"h5",
    b"h6",
    b"head",
    b"header",
    b"hr",
    b"html",
    b"iframe",
    b"legend",
    b"li",
    b"link",
    b"main",
    b"menu",
    b"menuitem",
    b"nav",
    b"noframes",
    b"ol",
    b"optgroup",
    b"option",
    b"p",
    b"param",
    b"search",
    b"section",
    b"summary",
    b"table",
    b"tbody",
    b"td",
    b"tfoot",
    b"th",
    b"thead",
    b"title",
    b"tr",
    b"track",
    b"ul",
];

/// Whether an element may contain blank lines. Case does not matter.
///
/// It is true for `PRE`.
pub fn is_raw(name: &[u8]) -> bool
    ensures { result ≡ is_among raw_names name.now }
{
    contains(&RAW, name)
}

/// Whether an element begins a block that ends at a blank line. Case does not matter.
///
/// It is true for `Div`.
pub fn is_basic(name: &[u8]) -> bool
    ensures { result ≡ is_among basic_names name.now }
{
    contains(&BASIC, name)
}

/// Whether a name is one of these.
fn contains(names: &[&[u8]], name: &[u8]) -> bool
    ensures { result ≡ list_any (λ (one : Bor (List ℕ)). str_eq_ignore_ascii_case one.now name.now) names.now }
{
    names.iter().any(|one| one.eq_ignore_ascii_case(name))
}
