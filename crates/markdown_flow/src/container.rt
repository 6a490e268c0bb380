//! Containers: block quotes, items of lists and footnote definitions (CommonMark, GFM).

ghost use Rattle.std.specs.Prelude.{Bool, List, OnOk, IfSome, ◌≡◌};
ghost use Rattle.markdown_flow.specs.Outputs.{Reads};
ghost use Rattle.markdown_flow.specs.Moves.{HasMoved};
ghost use Rattle.markdown_flow.specs.declared.line.Source.{Source};
ghost use Rattle.markdown_pieces.specs.Tilings.{Spot};

use crate::input::Input;
use crate::line::Line;
use crate::list_item::{self, Item, ItemStart};
use crate::{block_quote, gfm_footnote_definition};
use std::alloc::AllocError;

/// An open container.
#[derive(Clone, Copy)]
pub enum Container {
    /// A block quote.
    BlockQuote,
    /// An item of a list.
    ListItem(Item),
    /// A footnote definition.
    FootnoteDefinition,
}

/// What a container begins with.
#[derive(Clone, Copy)]
pub enum ContainerStart {
    /// The marker of a block quote.
    BlockQuote,
    /// The marker of an item.
    ListItem(ItemStart),
    /// The label of a footnote definition, with its size in bytes.
    FootnoteDefinition(usize),
}

impl Container {
    ghost use Rattle.event_writer.specs.Stages.{Enclosing};
    ghost use Rattle.markdown_flow.specs.Containers.{has_number, in_container};

    /// Whether it continues in a line. If it does, its prefix is read.
    pub fn continues(&mut self, input: &mut Input<'_>) -> Result<bool, AllocError>
        ensures reads { (source : Source) → (from : Spot) → Reads source from input.old → OnOk result (Reads source from input.new) }
        ensures moved { OnOk result (HasMoved input.old.line input.new.line) }
        ensures number { has_number self.new ≡ has_number self.old }
        ensures spans { (n : Bool) → (outer : List Enclosing) → in_container self.new n outer ≡ in_container self.old n outer }
    {
        match self {
            Container::BlockQuote => block_quote::continues(input),
            Container::ListItem(item) => item.continues(input),
            Container::FootnoteDefinition => gfm_footnote_definition::continues(input),
        }
    }

    /// Whether it is an item that has ended, while its list may continue.
    pub fn is_ended_item(&self) -> bool {
        match self {
            Container::ListItem(item) => item.is_ended(),
            _ => false,
        }
    }
}

impl ContainerStart {
    ghost use Rattle.markdown_flow.specs.Starts.{IsContainerStart, marker_of};

    /// Returns the container that begins at the cursor of a line, if one does. Not every item can
    /// interrupt a paragraph (CommonMark).
    pub fn find(line: &Line<'_>, interrupts: bool) -> Option<ContainerStart>
        ensures { IfSome result (λ start. IsContainerStart start line.now) }
    {
        if line.is_indented() {
            return None;
        }
        match line.text().first()? {
            b'>' => block_quote::begins(line).then_some(ContainerStart::BlockQuote),
            b'[' => {
                let size = gfm_footnote_definition::begins(line)?;
                Some(ContainerStart::FootnoteDefinition(size))
            }
            _ => list_item::begins(line, interrupts).map(ContainerStart::ListItem),
        }
    }

    /// Returns the marker of the item that begins, if it is one.
    pub fn marker(self) -> Option<u8>
        ensures { result ≡ marker_of self }
    {
        match self {
            ContainerStart::ListItem(start) => Some(start.marker),
            _ => None,
        }
    }
}
