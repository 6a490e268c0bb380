//! A sink of events that collects the bytes that they hide.

ghost use Rattle.std.specs.Prelude.{◌≡◌, ◌++◌, ◌∷◌, [], OnErr, OnOk, Some};
ghost use Rattle.markdown_events.specs.Forest.{enter, exit};

use crate::hidden::{add_hidden, cell_after};
use crate::hiding::{labels_entered, labels_left};
use event_writer::sink::{Sink, enter_event, exit_event};
use markdown_events::event::{Event, Kind, Name, Point};
use markdown_tree::History;
use std::alloc::{AllocError, Global};

/// A sink that keeps only the offsets of the bytes that the events hide.
#[derive(Drop)]
pub struct HiddenSink<'d> {
    /// The document.
    bytes: &'d [u8],
    /// The offsets so far.
    offsets: Vec<usize>,
    /// How many labels are open.
    labels: usize,
    /// Where the cell begins that is open, or was open last.
    cell: usize,
    /// The events so far.
    history: History,
}

impl<'d> HiddenSink<'d> {
    /// Returns a sink that has taken no event.
    pub fn new(alloc: Global, bytes: &'d [u8]) -> HiddenSink<'d>
        ensures document { result.bytes.now ≡ bytes.now }
        ensures events { result.history.events ≡ [] }
    {
        HiddenSink {
            bytes,
            offsets: Vec::new(alloc),
            labels: 0,
            cell: 0,
            history: History::none(),
        }
    }

    /// Returns the offsets of the bytes that the events hide.
    pub fn into_offsets(self) -> Vec<usize> {
        let HiddenSink { offsets, .. } = self;
        offsets
    }

    /// Adds the offsets that an event hides.
    fn collect(&mut self, event: &Event) -> Result<(), AllocError>
        ensures document { self.new.bytes.now ≡ self.old.bytes.now }
        ensures events { self.new.history.events ≡ self.old.history.events }
    {
        add_hidden(&mut self.offsets, self.bytes, self.labels, self.cell, event)?;
        self.labels = match event.kind {
            Kind::Enter => labels_entered(self.labels, event.name).unwrap_or(usize::MAX),
            Kind::Exit => labels_left(self.labels, event.name),
        };
        self.cell = cell_after(self.cell, event);
        Ok(())
    }
}

impl<'d> Sink for HiddenSink<'d> {
    ghost taken = { λ sink. sink.history.events };

    ghost document = { λ sink. Some sink.bytes.now };

    fn enter(&mut self, name: Name, at: Point) -> Result<(), AllocError> {
        let event = enter_event(name, at);
        self.collect(&event)?;
        self.history = self.history.and(&event);
        Ok(())
    }

    fn exit(&mut self, name: Name, at: Point) -> Result<(), AllocError> {
        let event = exit_event(name, at);
        self.collect(&event)?;
        self.history = self.history.and(&event);
        Ok(())
    }

    fn token(&mut self, name: Name, start: Point, end: Point) -> Result<(), AllocError> {
        let enter = enter_event(name, start);
        let exit = exit_event(name, end);
        self.collect(&enter)?;
        self.collect(&exit)?;
        self.history = self.history.and(&enter);
        self.history = self.history.and(&exit);
        Ok(())
    }
}
