//! Documents: the open containers, and what a line does to them (micromark).

ghost use Rattle.std.specs.Prelude.{[], None, OnOk, IfOk, IfSome, IfNone, Some, length, ◌≡◌, ◌≤◌, ◌<◌, ◌-◌, false, true};
ghost use Rattle.event_writer.specs.Stages.{flow};
ghost use Rattle.markdown_flow.specs.Markers.{HasMarker, is_ordered};
ghost use Rattle.markdown_flow.specs.Flows.{StandsWith, end_with};
ghost use Rattle.markdown_flow.specs.Moves.{HasMoved};
ghost use Rattle.markdown_flow.specs.Outputs.{IsAt, Opens, Stands, Writes, Reads, constructs_in, constructs_of, document_of, next_of, source_of, spot, spot_in};
ghost use Rattle.markdown_flow.specs.Readers.{OpensAll, goes_on, in_containers, in_last, in_last_item, in_list_of};
ghost use Rattle.markdown_flow.specs.Starts.{IsContainerStart};
ghost use Rattle.markdown_flow.specs.declared.leaf.Leaf.TheVariants as leaves;
ghost use Rattle.markdown_flow.specs.declared.line.Source.{Source};
ghost use Rattle.markdown_pieces.specs.Spans.{AreOn};
ghost use Rattle.markdown_pieces.specs.Tilings.{Spot, Tiles, origin};
ghost use Rattle.markdown_pieces.specs.Walks.{Walks, at, start};

use crate::container::{Container, ContainerStart};
use crate::flow::Flow;
use crate::input::Input;
use crate::line::{Line, Source};
use crate::list_item::{Item, ItemStart};
use crate::output::Output;
use crate::{block_quote, byte_order_mark, frontmatter, gfm_footnote_definition, list_item};
use markdown_events::event::Name;
use markdown_options::ParseOptions;
use markdown_pieces::identifiers::Identifiers;
use markdown_pieces::piece::Piece;
use std::alloc::{AllocError, Global};

/// The block structure of a document: the result of [`read`].
#[derive(Drop)]
pub struct Blocks {
    /// The pieces of the document, in order. Each begins where the one before it ends.
    pub pieces: Vec<Piece>,
    /// The identifiers of its definitions and footnote definitions.
    pub identifiers: Identifiers,
}

/// Reads the block structure of a document: CommonMark, and what the options add to it. The only
/// error is that memory ran out. A document of 2^61 bytes or more is refused as one for which
/// memory ran out: its columns might not fit 64 bits.
///
/// Offsets count bytes from 0. A construct that is off in the options has no span. A line asks one
/// open container for each of the markers and indentations that it has, and one more. So the work
/// is linear in the size of the document.
///
/// The pieces of `# a` are those that [`Piece`] shows, and there are no identifiers.
pub fn read(alloc: Global, document: &[u8], options: &ParseOptions) -> Result<Blocks, AllocError>
    // The pieces tile the document: they extend from its first byte to its last, and no token
    // leaves its line. Each token ends at the end of a character, and each value that is read of it
    // can be read.
    ensures tiles { IfOk result (λ blocks. Tiles document.now origin blocks.pieces.items (record { offset = length document.now; virtual_spaces = 0 })) }
    // The spans nest, each is where the grammar accepts it, and none is left open.
    ensures nest { IfOk result (λ blocks. Walks start blocks.pieces.items start) }
    // A construct that is off has no span.
    ensures on { IfOk result (λ blocks. AreOn options.now.constructs blocks.pieces.items) }
{
    if document.len() >= 1 << 61 {
        return Err(AllocError);
    }
    let source = Source {
        document,
        constructs: &options.constructs,
    };
    read_source(alloc, source)
}

/// Reads the block structure of a document that is not too long.
fn read_source(alloc: Global, source: Source<'_>) -> Result<Blocks, AllocError>
    ensures tiles { IfOk result (λ blocks. Tiles source.entry.document.now origin blocks.pieces.items (record { offset = length source.entry.document.now; virtual_spaces = 0 })) }
    ensures nest { IfOk result (λ blocks. Walks start blocks.pieces.items start) }
    ensures on { IfOk result (λ blocks. AreOn source.entry.constructs.now blocks.pieces.items) }
{
    let mut reader = Reader::new(alloc, source);
    let first = reader.start(source)?;
    if let Some(first) = first {
        reader.lines(Input::new(alloc, first))?;
    }
    reader.finish()
}

/// What is open while a document is read.
#[derive(Drop)]
struct Reader<'d> {
    /// The pieces and identifiers so far.
    output: Output<'d>,
    /// The open containers, the innermost last.
    containers: Vec<Container>,
    /// The numbers of the block quotes among them.
    quotes: Vec<usize>,
    /// The open leaf, in the innermost container.
    flow: Flow<'d>,
}

impl<'d> Reader<'d> {
    /// Returns a reader that has read nothing of a document.
    fn new(alloc: Global, source: Source<'d>) -> Reader<'d>
        ensures stands { StandsWith result.flow result.output }
        ensures none { result.flow.content.lines.items ≡ [] }
        ensures source { source_of result.output ≡ source.entry }
        ensures spot { spot result.output.cursor ≡ origin }
        ensures opens { OpensAll result }
        ensures leaf { result.flow.leaf ≡ leaves.None }
        ensures containers { result.containers.items ≡ [] }
    {
        Reader {
            output: Output::new(alloc, source),
            containers: Vec::new(alloc),
            quotes: Vec::new(alloc),
            flow: Flow::new(alloc),
        }
    }

    /// Reads what may occur only at the start of a document, and returns the line after it.
    fn start(&mut self, source: Source<'d>) -> Result<Option<Line<'d>>, AllocError>
        requires stands { StandsWith self.old.flow self.old.output }
        requires source { source_of self.old.output ≡ source }
        requires none { self.old.flow.content.lines.items ≡ [] }
        requires end { spot self.old.output.cursor ≡ origin }
        requires containers { self.old.containers.items ≡ [] }
        requires leaf { self.old.flow.leaf ≡ leaves.None }
        requires opens { OpensAll self.old }
        ensures stands { OnOk result (StandsWith self.new.flow self.new.output) }
        ensures source { OnOk result (source_of self.new.output ≡ source_of self.old.output) }
        ensures first { IfOk result (λ found. IfSome found (λ line. (line.source ≡ source.entry) × (end_with self.new.flow self.new.output ≡ spot_in line))) }
        ensures none { IfOk result (λ found. IfNone found (end_with self.new.flow self.new.output ≡ record { offset = length source.entry.document.now; virtual_spaces = 0 })) }
        ensures opens { OnOk result (OpensAll self.new) }
    {
        let Some(first) = Line::new(source, 0) else {
            return Ok(None);
        };
        let first = byte_order_mark::write(first, &mut self.output)?;
        match frontmatter::begins(&first) {
            Some(sign) => {
                let last = frontmatter::write(first, sign, &mut self.output)?;
                Ok(last.following())
            }
            None => Ok(Some(first)),
        }
    }

    /// Reads the lines, starting with this one.
    fn lines(&mut self, first: Input<'d>) -> Result<(), AllocError>
        requires stands { StandsWith self.old.flow self.old.output }
        requires reads { Reads (source_of self.old.output) (end_with self.old.flow self.old.output) first }
        requires opens { OpensAll self.old }
        ensures stands { OnOk result (StandsWith self.new.flow self.new.output) }
        ensures source { OnOk result (source_of self.new.output ≡ source_of self.old.output) }
        ensures end { OnOk result (end_with self.new.flow self.new.output ≡ record { offset = length (document_of self.old.output); virtual_spaces = 0 }) }
        ensures opens { OnOk result (OpensAll self.new) }
    {
        let source = first.line.source();
        let mut input = first;
        let mut next = input.line.next();
        self.line(&mut input)?;
        'lines: while input.go_to(source, next) {
            next = input.line.next();
            self.line(&mut input)?;
        }
        Ok(())
    }

    /// Reads a line.
    fn line(&mut self, input: &mut Input<'d>) -> Result<(), AllocError>
        requires stands { StandsWith self.old.flow self.old.output }
        requires reads { Reads (source_of self.old.output) (end_with self.old.flow self.old.output) input.old }
        requires opens { OpensAll self.old }
        ensures stands { OnOk result (StandsWith self.new.flow self.new.output) }
        ensures source { OnOk result (source_of self.new.output ≡ source_of self.old.output) }
        ensures end { OnOk result (end_with self.new.flow self.new.output ≡ next_of input.old.line) }
        ensures taken { OnOk result (input.new.prefix.items ≡ []) }
        ensures opens { OnOk result (OpensAll self.new) }
    {
        let matched = self.continue_containers(input)?;
        let in_all = matched == self.containers.len();
        let is_of_leaf = in_all && self.flow.is_concrete();
        if is_of_leaf || (input.line.is_blank() && self.waits_at(matched)) {
            return self.flow.line(input, &mut self.output);
        }
        if self.open_containers(matched, input)? || in_all {
            return self.flow.line(input, &mut self.output);
        }
        if self.flow.continue_lazily(input, &self.output)? {
            return Ok(());
        }
        self.flow.close(&mut self.output)?;
        self.close_containers(matched)?;
        self.flow.line(input, &mut self.output)
    }

    /// Reads the prefixes of the open containers, and returns how many of these continue.
    #[tactic(auto, using(crate::proofs::Moves::moved_on, crate::proofs::Moves::stays))]
    fn continue_containers(&mut self, input: &mut Input<'d>) -> Result<usize, AllocError>
        requires { OpensAll self.old }
        ensures reads { (source : Source) → (from : Spot) → Reads source from input.old → OnOk result (Reads source from input.new) }
        ensures moved { OnOk result (HasMoved input.old.line input.new.line) }
        ensures output { self.new.output ≡ self.old.output }
        ensures flow { self.new.flow ≡ self.old.flow }
        ensures opens { OnOk result (OpensAll self.new) }
    {
        let count = self.containers.len();
        let mut number = 0;
        let mut quotes = 0;
        'containers: while number < count {
            if input.line.rest().is_empty() {
                return self.continue_at_end(number, quotes, input);
            }
            if !self.continue_container(number, input)? {
                return Ok(number);
            }
            if matches!(self.containers[number], Container::BlockQuote) {
                quotes = quotes.saturating_add(1);
            }
            number += 1;
        }
        Ok(count)
    }

    /// Returns how many containers continue in a line of which nothing is left, after the first
    /// `number`, with `quotes` block quotes among these. Items and footnote definitions continue
    /// there, but a block quote does not, nor does an item that began blank, which is the last
    /// container. So only one of them is asked, however many are open.
    fn continue_at_end(
        &mut self,
        number: usize,
        quotes: usize,
        input: &mut Input<'d>,
    ) -> Result<usize, AllocError>
        requires within { number < length self.old.containers.items }
        requires opens { OpensAll self.old }
        ensures reads { (source : Source) → (from : Spot) → Reads source from input.old → OnOk result (Reads source from input.new) }
        ensures moved { OnOk result (HasMoved input.old.line input.new.line) }
        ensures output { self.new.output ≡ self.old.output }
        ensures flow { self.new.flow ≡ self.old.flow }
        ensures opens { OnOk result (OpensAll self.new) }
        ensures least { IfOk result (λ continuing. number ≤ continuing) }
    {
        let count = self.containers.len();
        let asked = self.first_to_end(number, quotes);
        if self.continue_container(asked, input)? {
            return Ok(count);
        }
        Ok(asked)
    }

    /// Returns the number of the first container that may end in a line of which nothing is left:
    /// the first block quote after `quotes` others, or else the last container. It is not one of
    /// the first `number`.
    fn first_to_end(&self, number: usize, quotes: usize) -> usize
        requires { number < length self.now.containers.items }
        ensures least { number ≤ result }
        ensures most { result < length self.now.containers.items }
    {
        let last = self.containers.len() - 1;
        let next = self.quotes.get(quotes).copied().unwrap_or(last);
        next.min(last).max(number)
    }

    /// Reads the prefix of the open container with that number, and returns whether it continues.
    fn continue_container(
        &mut self,
        number: usize,
        input: &mut Input<'d>,
    ) -> Result<bool, AllocError>
        requires within { number < length self.old.containers.items }
        requires opens { OpensAll self.old }
        ensures reads { (source : Source) → (from : Spot) → Reads source from input.old → OnOk result (Reads source from input.new) }
        ensures moved { OnOk result (HasMoved input.old.line input.new.line) }
        ensures output { self.new.output ≡ self.old.output }
        ensures flow { self.new.flow ≡ self.old.flow }
        ensures number { length self.new.containers.items ≡ length self.old.containers.items }
        ensures opens { OnOk result (OpensAll self.new) }
    {
        let mut container = self.containers[number];
        let goes_on = container.continues(input)?;
        self.containers[number] = container;
        if !goes_on {
            return Ok(false);
        }
        if matches!(container, Container::BlockQuote) {
            input.depth = number + 1;
        }
        Ok(true)
    }

    /// Whether the container with that number is the last one, and an item that has ended while its
    /// list may continue.
    fn waits_at(&self, number: usize) -> bool {
        match self.containers.as_slice().get(number..) {
            Some([container]) => container.is_ended_item(),
            _ => false,
        }
    }

    /// Reads the containers that begin in a line, after the `matched` ones that continue, and
    /// returns whether there are any.
    fn open_containers(&mut self, matched: usize, input: &mut Input<'d>) -> Result<bool, AllocError>
        requires stands { StandsWith self.old.flow self.old.output }
        requires reads { Reads (source_of self.old.output) (end_with self.old.flow self.old.output) input.old }
        requires opens { OpensAll self.old }
        ensures stands { OnOk result (StandsWith self.new.flow self.new.output) }
        ensures reads { OnOk result (Reads (source_of self.new.output) (end_with self.new.flow self.new.output) input.new) }
        ensures source { OnOk result (source_of self.new.output ≡ source_of self.old.output) }
        ensures moved { OnOk result (HasMoved input.old.line input.new.line) }
        ensures opens { OnOk result (OpensAll self.new) }
    {
        let interrupts = matched == self.containers.len() && self.flow.is_paragraph();
        let Some(first) = ContainerStart::find(&input.line, interrupts) else {
            return Ok(false);
        };
        self.open_first(matched, first, input)?;
        // Each container takes a byte of the text, so there are no more than that.
        for _ in input.line.text() {
            let Some(start) = ContainerStart::find(&input.line, false) else {
                break;
            };
            self.open(start, input)?;
        }
        Ok(true)
    }

    /// Reads the first container that begins in a line, after the `matched` ones that continue.
    fn open_first(
        &mut self,
        matched: usize,
        first: ContainerStart,
        input: &mut Input<'d>,
    ) -> Result<(), AllocError>
        requires stands { StandsWith self.old.flow self.old.output }
        requires opens { OpensAll self.old }
        requires reads { Reads (source_of self.old.output) (end_with self.old.flow self.old.output) input.old }
        requires start { IsContainerStart first input.old.line }
        ensures writes { OnOk result (Writes self.new.output) }
        ensures at { OnOk result (IsAt self.new.output.cursor input.new.line) }
        ensures taken { OnOk result (input.new.prefix.items ≡ []) }
        ensures moved { OnOk result (HasMoved input.old.line input.new.line) }
        ensures none { OnOk result (self.new.flow.content.lines.items ≡ []) }
        ensures leaf { OnOk result (self.new.flow.leaf ≡ leaves.None) }
        ensures opens { OnOk result (Opens self.new.output (in_containers self.new.containers.items)) }
    {
        if let ContainerStart::ListItem(item) = first {
            return self.open_first_item(matched, item, input);
        }
        self.close_flow(matched)?;
        self.close_containers(matched)?;
        self.output.begin(input)?;
        self.open(first, input)
    }

    /// Reads an item that is the first container that begins in a line. It is the next item of its
    /// list, or begins another list (CommonMark).
    fn open_first_item(
        &mut self,
        matched: usize,
        item: ItemStart,
        input: &mut Input<'d>,
    ) -> Result<(), AllocError>
        requires stands { StandsWith self.old.flow self.old.output }
        requires opens { OpensAll self.old }
        requires reads { Reads (source_of self.old.output) (end_with self.old.flow self.old.output) input.old }
        requires marker { HasMarker input.old.line.text.now item.digits }
        requires on { (constructs_in input.old.line).list_item ≡ true }
        ensures writes { OnOk result (Writes self.new.output) }
        ensures at { OnOk result (IsAt self.new.output.cursor input.new.line) }
        ensures taken { OnOk result (input.new.prefix.items ≡ []) }
        ensures moved { OnOk result (HasMoved input.old.line input.new.line) }
        ensures none { OnOk result (self.new.flow.content.lines.items ≡ []) }
        ensures leaf { OnOk result (self.new.flow.leaf ≡ leaves.None) }
        ensures opens { OnOk result (Opens self.new.output (in_containers self.new.containers.items)) }
    {
        self.close_flow(matched)?;
        if self.close_to_list(matched, item.marker)? {
            self.output.begin(input)?;
            return self.open_item(item, input);
        }
        self.output.begin(input)?;
        self.open(ContainerStart::ListItem(item), input)
    }

    /// Ends the leaf before a container that begins after the `matched` ones that continue.
    fn close_flow(&mut self, matched: usize) -> Result<(), AllocError>
        requires stands { StandsWith self.old.flow self.old.output }
        requires opens { OpensAll self.old }
        ensures stands { OnOk result (Stands self.new.output) }
        ensures none { OnOk result (self.new.flow.content.lines.items ≡ []) }
        ensures leaf { OnOk result (self.new.flow.leaf ≡ leaves.None) }
        ensures source { OnOk result (source_of self.new.output ≡ source_of self.old.output) }
        ensures spot { OnOk result (spot self.new.output.cursor ≡ end_with self.old.flow self.old.output) }
        ensures opens { OnOk result (Opens self.new.output (in_containers self.new.containers.items)) }
    {
        if matched == self.containers.len() {
            return self.flow.close(&mut self.output);
        }
        self.flow.flush(&mut self.output)
    }

    /// Ends all containers except the first `keep`.
    fn close_containers(&mut self, keep: usize) -> Result<(), AllocError>
        requires stands { Stands self.old.output }
        requires opens { Opens self.old.output (in_containers self.old.containers.items) }
        ensures stands { OnOk result (Stands self.new.output) }
        ensures cursor { OnOk result (self.new.output.cursor ≡ self.old.output.cursor) }
        ensures flow { self.new.flow ≡ self.old.flow }
        ensures opens { OnOk result (Opens self.new.output (in_containers self.new.containers.items)) }
        ensures most { OnOk result (length self.new.containers.items ≤ keep) }
    {
        'containers: while self.containers.len() > keep {
            self.close_last()?;
        }
        Ok(())
    }

    /// Ends all containers except the first `keep`. Returns whether the list of the outermost of
    /// them continues, with an item of that marker.
    fn close_to_list(&mut self, keep: usize, marker: u8) -> Result<bool, AllocError>
        requires stands { Stands self.old.output }
        requires opens { Opens self.old.output (in_containers self.old.containers.items) }
        ensures stands { OnOk result (Stands self.new.output) }
        ensures cursor { OnOk result (self.new.output.cursor ≡ self.old.output.cursor) }
        ensures flow { self.new.flow ≡ self.old.flow }
        ensures opens { IfOk result (λ in_list. Opens self.new.output (goes_on in_list (Some marker) self.new.containers.items)) }
    {
        self.close_containers(keep.saturating_add(1))?;
        if self.containers.len() <= keep {
            return Ok(false);
        }
        self.close_container(Some(marker))
    }

    /// Ends the last container, and the list of an item.
    fn close_last(&mut self) -> Result<(), AllocError>
        requires stands { Stands self.old.output }
        requires opens { Opens self.old.output (in_containers self.old.containers.items) }
        ensures stands { OnOk result (Stands self.new.output) }
        ensures cursor { OnOk result (self.new.output.cursor ≡ self.old.output.cursor) }
        ensures flow { self.new.flow ≡ self.old.flow }
        ensures opens { OnOk result (Opens self.new.output (in_containers self.new.containers.items)) }
        ensures number { OnOk result (length self.new.containers.items ≡ length self.old.containers.items - 1) }
    {
        self.close_container(None)?;
        Ok(())
    }

    /// Ends the last container, and the list of an item, unless the list continues with an item of
    /// that marker. Returns whether it does.
    fn close_container(&mut self, marker: Option<u8>) -> Result<bool, AllocError>
        requires stands { Stands self.old.output }
        requires opens { Opens self.old.output (in_containers self.old.containers.items) }
        ensures stands { OnOk result (Stands self.new.output) }
        ensures cursor { OnOk result (self.new.output.cursor ≡ self.old.output.cursor) }
        ensures flow { self.new.flow ≡ self.old.flow }
        ensures opens { IfOk result (λ in_list. Opens self.new.output (goes_on in_list marker self.new.containers.items)) }
        ensures number { OnOk result (length self.new.containers.items ≡ length self.old.containers.items - 1) }
    {
        let Some(container) = self.containers.pop() else {
            return Ok(false);
        };
        let outside = self.containers.len();
        match container {
            Container::BlockQuote => {
                self.quotes.pop();
                self.output.exit_container(Name::BlockQuote, outside)?;
                Ok(false)
            }
            Container::ListItem(item) => self.close_item(&item, marker),
            Container::FootnoteDefinition => {
                self.output
                    .exit_container(Name::GfmFootnoteDefinition, outside)?;
                Ok(false)
            }
        }
    }

    /// Ends the item that was the last container, and its list, unless the list continues with an
    /// item of that marker. Returns whether it does.
    fn close_item(&mut self, item: &Item, marker: Option<u8>) -> Result<bool, AllocError>
        requires stands { Stands self.old.output }
        requires opens { Opens self.old.output (in_last_item (is_ordered item.now.marker) self.old.containers.items) }
        ensures stands { OnOk result (Stands self.new.output) }
        ensures cursor { OnOk result (self.new.output.cursor ≡ self.old.output.cursor) }
        ensures flow { self.new.flow ≡ self.old.flow }
        ensures containers { self.new.containers ≡ self.old.containers }
        ensures opens { IfOk result (λ in_list. Opens self.new.output (goes_on in_list marker self.new.containers.items)) }
    {
        let outside = self.containers.len();
        list_item::close(item, outside, &mut self.output)?;
        if let Some(marker) = marker
            && marker == item.marker
        {
            return Ok(true);
        }
        let list = list_item::list_name(item.marker);
        self.output.exit_before_held(list)?;
        Ok(false)
    }

    /// Reads what a container begins with. An item begins a list.
    fn open(&mut self, start: ContainerStart, input: &mut Input<'d>) -> Result<(), AllocError>
        requires writes { Writes self.old.output }
        requires at { IsAt self.old.output.cursor input.old.line }
        requires taken { input.old.prefix.items ≡ [] }
        requires start { IsContainerStart start input.old.line }
        requires opens { Opens self.old.output (in_containers self.old.containers.items) }
        ensures writes { OnOk result (Writes self.new.output) }
        ensures at { OnOk result (IsAt self.new.output.cursor input.new.line) }
        ensures flow { self.new.flow ≡ self.old.flow }
        ensures taken { OnOk result (input.new.prefix.items ≡ []) }
        ensures moved { OnOk result (HasMoved input.old.line input.new.line) }
        ensures opens { OnOk result (Opens self.new.output (in_containers self.new.containers.items)) }
    {
        match start {
            ContainerStart::BlockQuote => {
                self.quotes.push(self.containers.len())?;
                block_quote::open(input, &mut self.output)?;
                self.push(Container::BlockQuote, input)
            }
            ContainerStart::ListItem(item) => {
                let list = list_item::list_name(item.marker);
                self.output.enter(list)?;
                self.open_item(item, input)
            }
            ContainerStart::FootnoteDefinition(size) => {
                gfm_footnote_definition::open(size, &mut input.line, &mut self.output)?;
                self.push(Container::FootnoteDefinition, input)
            }
        }
    }

    /// Reads what an item in a list begins with.
    fn open_item(&mut self, start: ItemStart, input: &mut Input<'d>) -> Result<(), AllocError>
        requires writes { Writes self.old.output }
        requires at { IsAt self.old.output.cursor input.old.line }
        requires taken { input.old.prefix.items ≡ [] }
        requires marker { HasMarker input.old.line.text.now start.digits }
        requires on { (constructs_in input.old.line).list_item ≡ true }
        requires opens { Opens self.old.output (in_list_of (is_ordered start.marker) self.old.containers.items) }
        ensures writes { OnOk result (Writes self.new.output) }
        ensures at { OnOk result (IsAt self.new.output.cursor input.new.line) }
        ensures flow { self.new.flow ≡ self.old.flow }
        ensures taken { OnOk result (input.new.prefix.items ≡ []) }
        ensures moved { OnOk result (HasMoved input.old.line input.new.line) }
        ensures opens { OnOk result (Opens self.new.output (in_containers self.new.containers.items)) }
    {
        let item = list_item::open(start, &mut input.line, &mut self.output)?;
        self.push(Container::ListItem(item), input)
    }

    /// Adds a container whose start has been read.
    fn push(&mut self, container: Container, input: &mut Input<'d>) -> Result<(), AllocError>
        requires { Opens self.old.output (in_last container self.old.containers.items) }
        ensures output { self.new.output ≡ self.old.output }
        ensures flow { self.new.flow ≡ self.old.flow }
        ensures line { input.new.line ≡ input.old.line }
        ensures prefix { input.new.prefix ≡ input.old.prefix }
        ensures opens { OnOk result (Opens self.new.output (in_containers self.new.containers.items)) }
    {
        self.containers.push(container)?;
        input.depth = self.containers.len();
        Ok(())
    }

    /// Ends everything that is open.
    fn end(&mut self) -> Result<(), AllocError>
        requires stands { StandsWith self.old.flow self.old.output }
        requires opens { OpensAll self.old }
        ensures stands { OnOk result (Stands self.new.output) }
        ensures source { OnOk result (source_of self.new.output ≡ source_of self.old.output) }
        ensures spot { OnOk result (spot self.new.output.cursor ≡ end_with self.old.flow self.old.output) }
        ensures opens { OnOk result (Opens self.new.output start) }
    {
        self.flow.flush(&mut self.output)?;
        self.close_containers(0)?;
        Ok(())
    }

    /// Ends everything that is open, and returns the result.
    fn finish(self) -> Result<Blocks, AllocError>
        requires stands { StandsWith self.flow self.output }
        requires opens { OpensAll self }
        ensures tiles { IfOk result (λ blocks. Tiles (document_of self.entry.output) origin blocks.pieces.items (end_with self.entry.flow self.entry.output)) }
        ensures nest { IfOk result (λ blocks. Walks start blocks.pieces.items start) }
        ensures on { IfOk result (λ blocks. AreOn (constructs_of self.entry.output) blocks.pieces.items) }
    {
        let mut reader = self;
        reader.end()?;
        let Reader {
            output,
            containers: _,
            quotes: _,
            flow: _,
        } = reader;
        let (pieces, identifiers) = output.finish()?;
        Ok(Blocks {
            pieces,
            identifiers,
        })
    }
}
