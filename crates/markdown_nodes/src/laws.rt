//! Laws of the definitions. Each is the contract of a function that takes and returns nothing.

ghost use Rattle.std.specs.Prelude.{◌≡◌};
ghost use Rattle.markdown_nodes.specs.Equality.{Tells};
ghost use Rattle.markdown_nodes.specs.Tree.{Trees, join};
ghost use Rattle.markdown_nodes.specs.View.{view};
ghost use Rattle.markdown_nodes.specs.declared.mdast.Node.TheVariants as nodes;

use crate::mdast::{
    Blockquote, Break, Code, Definition, Delete, Emphasis, FootnoteDefinition, FootnoteReference,
    Heading, Html, Image, ImageReference, InlineCode, InlineMath, Link, LinkReference, List,
    ListItem, Math, Node, Paragraph, Root, Strong, Table, TableCell, TableRow, Text, ThematicBreak,
    Toml, Yaml,
};
pub use markdown_events::laws::one_forest;

/// Joining lists of nodes is associative: texts that meet become one in any order (ours).
///
/// Lists of one Text each, `a`, `b` and `c`, join to a list of the Text `abc` either way.
pub fn seam()
    ensures { (a b c : Trees) → join (join a b) c ≡ join a (join b c) }
{}

/// Two nodes are equal exactly if they are of one kind and all their fields are equal, positions
/// included (as Rust derives it).
///
/// Two Texts `a` at two places are not equal, and no Text is equal to an Html.
pub fn nodes_equal()
    ensures { Tells ⟦<Node as PartialEq>⟧.eq view }
{}

/// Two structs of one kind are equal exactly if their nodes are equal: if all their fields are
/// equal, positions included (as Rust derives it).
///
/// Two Headings of depths 1 and 2 are not equal.
pub fn structs_equal()
    ensures root_equal { Tells ⟦<Root as PartialEq>⟧.eq (λ x. view (nodes.Root x)) }
    ensures blockquote_equal { Tells ⟦<Blockquote as PartialEq>⟧.eq (λ x. view (nodes.Blockquote x)) }
    ensures footnote_definition_equal { Tells ⟦<FootnoteDefinition as PartialEq>⟧.eq (λ x. view (nodes.FootnoteDefinition x)) }
    ensures list_equal { Tells ⟦<List as PartialEq>⟧.eq (λ x. view (nodes.List x)) }
    ensures toml_equal { Tells ⟦<Toml as PartialEq>⟧.eq (λ x. view (nodes.Toml x)) }
    ensures yaml_equal { Tells ⟦<Yaml as PartialEq>⟧.eq (λ x. view (nodes.Yaml x)) }
    ensures break_equal { Tells ⟦<Break as PartialEq>⟧.eq (λ x. view (nodes.Break x)) }
    ensures inline_code_equal { Tells ⟦<InlineCode as PartialEq>⟧.eq (λ x. view (nodes.InlineCode x)) }
    ensures inline_math_equal { Tells ⟦<InlineMath as PartialEq>⟧.eq (λ x. view (nodes.InlineMath x)) }
    ensures delete_equal { Tells ⟦<Delete as PartialEq>⟧.eq (λ x. view (nodes.Delete x)) }
    ensures emphasis_equal { Tells ⟦<Emphasis as PartialEq>⟧.eq (λ x. view (nodes.Emphasis x)) }
    ensures footnote_reference_equal { Tells ⟦<FootnoteReference as PartialEq>⟧.eq (λ x. view (nodes.FootnoteReference x)) }
    ensures html_equal { Tells ⟦<Html as PartialEq>⟧.eq (λ x. view (nodes.Html x)) }
    ensures image_equal { Tells ⟦<Image as PartialEq>⟧.eq (λ x. view (nodes.Image x)) }
    ensures image_reference_equal { Tells ⟦<ImageReference as PartialEq>⟧.eq (λ x. view (nodes.ImageReference x)) }
    ensures link_equal { Tells ⟦<Link as PartialEq>⟧.eq (λ x. view (nodes.Link x)) }
    ensures link_reference_equal { Tells ⟦<LinkReference as PartialEq>⟧.eq (λ x. view (nodes.LinkReference x)) }
    ensures strong_equal { Tells ⟦<Strong as PartialEq>⟧.eq (λ x. view (nodes.Strong x)) }
    ensures text_equal { Tells ⟦<Text as PartialEq>⟧.eq (λ x. view (nodes.Text x)) }
    ensures code_equal { Tells ⟦<Code as PartialEq>⟧.eq (λ x. view (nodes.Code x)) }
    ensures math_equal { Tells ⟦<Math as PartialEq>⟧.eq (λ x. view (nodes.Math x)) }
    ensures heading_equal { Tells ⟦<Heading as PartialEq>⟧.eq (λ x. view (nodes.Heading x)) }
    ensures table_equal { Tells ⟦<Table as PartialEq>⟧.eq (λ x. view (nodes.Table x)) }
    ensures thematic_break_equal { Tells ⟦<ThematicBreak as PartialEq>⟧.eq (λ x. view (nodes.ThematicBreak x)) }
    ensures table_row_equal { Tells ⟦<TableRow as PartialEq>⟧.eq (λ x. view (nodes.TableRow x)) }
    ensures table_cell_equal { Tells ⟦<TableCell as PartialEq>⟧.eq (λ x. view (nodes.TableCell x)) }
    ensures list_item_equal { Tells ⟦<ListItem as PartialEq>⟧.eq (λ x. view (nodes.ListItem x)) }
    ensures definition_equal { Tells ⟦<Definition as PartialEq>⟧.eq (λ x. view (nodes.Definition x)) }
    ensures paragraph_equal { Tells ⟦<Paragraph as PartialEq>⟧.eq (λ x. view (nodes.Paragraph x)) }
{}
