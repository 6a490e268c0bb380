//! The cursor of a writer.

ghost use Rattle.std.specs.Prelude.{◌≡◌, ◌≢◌, ◌<◌, ◌^◌, IfNone, IfOk, IfSome, IsOk, false, length, true};
ghost use Rattle.event_writer.specs.Calls.{CanReach, EndsLine, IsLineStart};
ghost use Rattle.event_writer.specs.Places.{IsPlace};
ghost use Rattle.event_writer.specs.Tilings.{IsBefore, origin};

use crate::places::{line_start, plain_to, point_at, reached};
use markdown_events::event::Point;
use std::alloc::AllocError;
use std::marker::Model;

/// A place in a document, which moves from its first byte to its last.
#[derive(Drop)]
pub struct Cursor<'d> {
    /// The document.
    bytes: &'d [u8],
    /// The place.
    at: Point,
    /// An offset. No control character is between the place and it.
    plain_to: usize,
}

impl<'d> Model for Cursor<'d> {
    ghost use Rattle.std.specs.Prelude.{◌<◌, ◌^◌, length};
    ghost use Rattle.event_writer.specs.Places.{IsPlace};
    ghost use Rattle.event_writer.specs.Plain.{IsPlain};
    ghost use Rattle.event_writer.specs.Tiles.{Placed};

    ghost Value = { Placed };

    ghost view = { λ c. record { bytes = c.bytes.now; at = c.at } };

    ghost invariant = { λ c. IsPlace c.bytes.now c.at × (length c.bytes.now < 2 ^ 61) × IsPlain c.bytes.now c.at.index c.plain_to };
}

impl<'d> Cursor<'d> {
    /// Returns the cursor at the start of a document.
    ///
    /// A document of 2^61 bytes or more is refused as one for which memory ran out: its columns
    /// might not fit 64 bits.
    pub fn new(bytes: &'d [u8]) -> Result<Cursor<'d>, AllocError>
        ensures made { length bytes.now < 2 ^ 61 → IsOk result }
        ensures placed { IfOk result (λ c. c ≡ record { bytes = bytes.now; at = origin }) }
    {
        if bytes.len() >= 1 << 61 {
            return Err(AllocError);
        }
        Ok(Cursor {
            bytes,
            at: Point {
                line: 1,
                column: 1,
                index: 0,
                vs: 0,
            },
            plain_to: 0,
        })
    }

    /// Returns the place.
    #[inline(always)]
    pub fn at(&self) -> Point
        ensures here { result ≡ self.now.at }
        ensures place { IsPlace self.now.bytes result }
    {
        self.at
    }

    /// Whether it is at the end of the document.
    pub fn is_at_end(&self) -> bool
        ensures yes { result ≡ true → self.now.at.index ≡ length self.now.bytes }
        ensures no { result ≡ false → self.now.at.index ≢ length self.now.bytes }
    {
        self.at.index == self.bytes.len()
    }

    /// Returns the point at an offset that is in the same line and not before it, and a number of
    /// columns into the tab there, or `None` if there is no such point.
    #[inline(always)]
    pub fn point_at(&mut self, to: usize, virtual_spaces: usize) -> Option<Point>
        ensures same { self.new ≡ self.old }
        ensures place { IfSome result (λ point. IsPlace self.old.bytes point) }
        ensures order { IfSome result (λ point. IsBefore self.old.at point) }
        ensures index { IfSome result (λ point. point.index ≡ to) }
        ensures virtual_spaces { IfSome result (λ point. point.vs ≡ virtual_spaces) }
        ensures none { IfNone result (CanReach self.old.bytes self.old.at to virtual_spaces → ⊥) }
    {
        if self.plain_to < to {
            self.plain_to = plain_to(self.bytes, self.at.index);
        }
        point_at(self.bytes, self.at, to, virtual_spaces, self.plain_to)
    }

    /// Returns the point that [`point_at`](Cursor::point_at) finds, where there is one.
    ///
    /// At the start of `Hi`, for offset 2 it is 1:3.
    #[inline(always)]
    pub fn reached(&mut self, to: usize, virtual_spaces: usize) -> Point
        requires reach { CanReach self.old.bytes self.old.at to virtual_spaces }
        ensures same { self.new ≡ self.old }
        ensures place { IsPlace self.old.bytes result }
        ensures order { IsBefore self.old.at result }
        ensures index { result.index ≡ to }
        ensures virtual_spaces { result.vs ≡ virtual_spaces }
    {
        if self.plain_to < to {
            self.plain_to = plain_to(self.bytes, self.at.index);
        }
        reached(self.bytes, self.at, to, virtual_spaces, self.plain_to)
    }

    /// Returns the start of the next line, if the line ends here.
    pub fn next_line(&self) -> Option<Point>
        ensures place { IfSome result (λ point. IsPlace self.now.bytes point) }
        ensures order { IfSome result (λ point. IsBefore self.now.at point) }
        ensures start { IfSome result (λ point. IsLineStart self.now.bytes self.now.at point) }
        ensures none { IfNone result (EndsLine self.now.bytes self.now.at.index → ⊥) }
    {
        line_start(self.bytes, self.at)
    }

    /// Moves it to a point.
    #[inline(always)]
    pub fn move_to(&mut self, point: Point)
        requires place { IsPlace self.old.bytes point }
        requires order { IsBefore self.old.at point }
        ensures { self.new ≡ record { bytes = self.old.bytes; at = point } }
    {
        self.at = point;
    }
}
