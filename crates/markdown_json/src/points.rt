//! How the points of a tree are counted when they are written.

ghost use Rattle.std.specs.Prelude.{◌≡◌};
ghost use Rattle.markdown_json.specs.Counting.{counted_as};

use crate::utf16::Utf16Points;
use markdown_events::unist::Point;

/// How points are counted: which point is written for each point of a tree (ours).
#[derive(Debug, Drop)]
pub enum Points<'a> {
    /// Bytes and byte columns, as in the tree.
    Bytes,
    /// UTF-16 code units.
    Utf16(Utf16Points<'a>),
}

impl Points<'_> {
    /// Returns the point to write for a point of the tree.
    ///
    /// For `Points::Bytes` it is that point itself.
    pub fn counted(&self, point: Point) -> Point
        ensures { result ≡ counted_as self.now point }
    {
        match self {
            Points::Bytes => point,
            Points::Utf16(points) => points.counted(point),
        }
    }
}
