//! Which constructs of markdown are read in a document. Names and defaults are those of the crate
//! `markdown`, without MDX.
#![tactic(auto)]

ghost use Rattle.std.specs.Prelude.{◌≡◌};
ghost use Rattle.markdown_options.specs.Options.{commonmark, everything, gfm, options};

/// Which constructs are on.
///
/// `Constructs::default()` has those of CommonMark, and `Constructs::gfm()` also those of GFM.
/// Frontmatter and math are in neither.
#[derive(Clone, Copy, PartialEq, Eq, Debug)]
pub struct Constructs {
    /// Emphasis and strong emphasis: `*a*`, `**a**`.
    pub attention: bool,
    /// Autolinks in angle brackets: `<https://a.b>`.
    pub autolink: bool,
    /// Block quotes: `> a`.
    pub block_quote: bool,
    /// Escapes of punctuation: `\*`.
    pub character_escape: bool,
    /// Character references: `&amp;`.
    pub character_reference: bool,
    /// Code that is indented by four columns. Without it, other blocks may be indented by any number.
    pub code_indented: bool,
    /// Code between fences of backticks or tildes.
    pub code_fenced: bool,
    /// Code in text: `` `a` ``.
    pub code_text: bool,
    /// Definitions of links: `[a]: b`.
    pub definition: bool,
    /// Frontmatter at the start of a document, between lines of `---` or `+++`.
    pub frontmatter: bool,
    /// Addresses without brackets in text: `www.a.b`, `https://a.b`, `a@b.c` (GFM).
    pub gfm_autolink_literal: bool,
    /// Definitions of footnotes: `[^a]: b` (GFM).
    pub gfm_footnote_definition: bool,
    /// Calls of footnotes: `[^a]` (GFM).
    pub gfm_label_start_footnote: bool,
    /// Strikethrough: `~a~`, `~~a~~` (GFM).
    pub gfm_strikethrough: bool,
    /// Tables (GFM).
    pub gfm_table: bool,
    /// Marks of tasks: `* [x] a` (GFM).
    pub gfm_task_list_item: bool,
    /// Hard breaks by a backslash at the end of a line.
    pub hard_break_escape: bool,
    /// Hard breaks by two spaces at the end of a line.
    pub hard_break_trailing: bool,
    /// Headings that begin with number signs: `# a`.
    pub heading_atx: bool,
    /// Headings with a line of `=` or `-` under them.
    pub heading_setext: bool,
    /// Blocks of HTML.
    pub html_flow: bool,
    /// HTML in text.
    pub html_text: bool,
    /// The start of an image: `![`.
    pub label_start_image: bool,
    /// The start of a link: `[`.
    pub label_start_link: bool,
    /// The end of a link, an image or a call of a footnote: `]` and what follows it.
    pub label_end: bool,
    /// Items of lists: `* a`, `1. a`.
    pub list_item: bool,
    /// Math between fences of dollars.
    pub math_flow: bool,
    /// Math in text: `$a$`.
    pub math_text: bool,
    /// Thematic breaks: `***`.
    pub thematic_break: bool,
}

impl Constructs {
    /// Returns the constructs of CommonMark and of GFM: autolink literals, footnotes,
    /// strikethrough, tables and the marks of tasks.
    ///
    /// `Constructs::gfm().gfm_table` is true.
    pub fn gfm() -> Constructs
        ensures { result ≡ gfm }
    {
        Constructs {
            gfm_autolink_literal: true,
            gfm_footnote_definition: true,
            gfm_label_start_footnote: true,
            gfm_strikethrough: true,
            gfm_table: true,
            gfm_task_list_item: true,
            ..Constructs::default()
        }
    }

    /// Returns all constructs: those of GFM, frontmatter and math.
    ///
    /// `Constructs::everything().math_text` is true.
    pub fn everything() -> Constructs
        ensures { result ≡ everything }
    {
        Constructs {
            frontmatter: true,
            math_flow: true,
            math_text: true,
            ..Constructs::gfm()
        }
    }
}

/// The constructs of CommonMark.
impl Default for Constructs {
    ghost is_default = { λ constructs. constructs ≡ commonmark };

    fn default() -> Constructs {
        Constructs {
            attention: true,
            autolink: true,
            block_quote: true,
            character_escape: true,
            character_reference: true,
            code_indented: true,
            code_fenced: true,
            code_text: true,
            definition: true,
            frontmatter: false,
            gfm_autolink_literal: false,
            gfm_footnote_definition: false,
            gfm_label_start_footnote: false,
            gfm_strikethrough: false,
            gfm_table: false,
            gfm_task_list_item: false,
            hard_break_escape: true,
            hard_break_trailing: true,
            heading_atx: true,
            heading_setext: true,
            html_flow: true,
            html_text: true,
            label_start_image: true,
            label_start_link: true,
            label_end: true,
            list_item: true,
            math_flow: false,
            math_text: false,
            thematic_break: true,
        }
    }
}

/// How a document is read.
///
/// `ParseOptions::default()` reads CommonMark, and `ParseOptions::gfm()` GFM.
#[derive(Clone, Copy, PartialEq, Eq, Debug)]
pub struct ParseOptions {
    /// Which constructs are on.
    pub constructs: Constructs,
    /// Whether a single tilde makes strikethrough, too: `~a~` (as on GitHub).
    pub gfm_strikethrough_single_tilde: bool,
    /// Whether a single dollar begins math in text, too: `$a$`.
    pub math_text_single_dollar: bool,
    /// Whether references with a label of their own, and calls of footnotes, are also read if
    /// nothing defines them: `[a][b]`, `[a][]`, `[^a]`. Linters need this. In CommonMark and GFM
    /// they are text (ours).
    pub undefined_references: bool,
}

impl ParseOptions {
    /// Returns the options of GFM.
    ///
    /// `ParseOptions::gfm().constructs` is `Constructs::gfm()`.
    pub fn gfm() -> ParseOptions
        ensures { result ≡ options gfm }
    {
        ParseOptions {
            constructs: Constructs::gfm(),
            gfm_strikethrough_single_tilde: true,
            math_text_single_dollar: true,
            undefined_references: false,
        }
    }
}

/// The options of CommonMark.
impl Default for ParseOptions {
    ghost is_default = { λ read. read ≡ options commonmark };

    fn default() -> ParseOptions {
        ParseOptions {
            constructs: Constructs::default(),
            gfm_strikethrough_single_tilde: true,
            math_text_single_dollar: true,
            undefined_references: false,
        }
    }
}
