//! Emphasis, strong emphasis (CommonMark) and strikethrough (GFM).

ghost use Rattle.std.specs.Prelude.{OnOk, ◌≤◌, ◌+◌};
ghost use Rattle.markdown_attention.specs.Costs.{cost};
ghost use Rattle.markdown_attention.specs.Runs.{AreMarked, AreReady, AreResolved, views};

use crate::delimiter::Delimiter;
use crate::openers::Openers;
use crate::run::Run;
use std::alloc::{AllocError, Global};
use step_count::count::Count;

/// Marks where the pairs of runs begin in a content. The only error is that memory ran out.
///
/// It takes at most 16 steps for each run and 16 for each of its markers, so the work is linear. A
/// step is one turn of a loop: over the runs, over the pairs of a closing run, over the openers that
/// are searched, and over the 14 classes of closing runs after each pair.
///
/// The runs of `*a*` make one pair: an opening delimiter of emphasis at 0, and a closing one at 2.
pub fn resolve(
    alloc: Global,
    runs: &[Run],
    delimiters: &mut Vec<Delimiter>,
    steps: &mut Count,
) -> Result<(), AllocError>
    requires { AreReady runs.now }
    ensures resolved { OnOk result (AreResolved (views runs.now) delimiters.old.items delimiters.new.items) }
    // This holds even if memory runs out.
    ensures linear { steps.new.number ≤ steps.old.number + cost runs.now }
    ensures marked { AreMarked (views runs.now) delimiters.old.items delimiters.new.items }
{
    Openers::new(alloc).take_all(runs, delimiters, steps)
}
