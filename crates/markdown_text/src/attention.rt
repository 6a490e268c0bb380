//! Attention (micromark): emphasis, strong emphasis (CommonMark) and strikethrough (GFM).

ghost use Rattle.std.specs.Prelude.{OnOk, ◌≡◌, ◌<◌, ◌++◌, ◌∷◌, [], drop, length, take, true};
ghost use Rattle.std.proofs.Props.{props};
ghost use Rattle.markdown_attention.specs.Runs.{AreReady, AreResolved, IsReady, view, views};
ghost use Rattle.markdown_options.specs.declared.Constructs.{Constructs};

use crate::spare_lists::{SpareLists, take_cleared};
use markdown_attention::delimiter::Delimiter;
use markdown_attention::emphasis;
use markdown_attention::run::Run;
use std::alloc::{AllocError, Global};
use step_count::count::Count;

/// The waiting runs of a text, and the delimiters in the resolved ones.
#[derive(Drop)]
pub struct Attention {
    /// The runs that are not resolved yet.
    runs: Vec<Run>,
    /// What begins at each offset. It is empty until the first runs are resolved.
    delimiters: Vec<Delimiter>,
    ghost ready: { AreReady runs.items } by { Prim.hlevel props },
}

impl Attention {
    ghost use Rattle.markdown_text.specs.Constructs.{AreDelimitersOn, is_marker_on};
    ghost use Rattle.markdown_text.specs.Runs.{IsAttentionOn, begun, room};

    /// Returns no runs, with lists that are spare.
    #[inline(always)]
    pub fn new(lists: &mut SpareLists, alloc: Global) -> Attention
        ensures on { (c : Constructs) → IsAttentionOn c result }
        ensures runs { result.runs.items ≡ [] }
        ensures delimiters { result.delimiters.items ≡ [] }
    {
        Attention {
            runs: take_cleared(&mut lists.runs, alloc),
            delimiters: take_cleared(&mut lists.delimiters, alloc),
        }
    }

    /// Returns how many runs wait.
    pub fn waiting(&self) -> usize {
        self.runs.len()
    }

    /// Adds a run. The only error is that memory ran out.
    pub fn push(&mut self, run: Run) -> Result<(), AllocError>
        requires { IsReady (view run) }
        ensures on { (c : Constructs) → IsAttentionOn c self.old → is_marker_on c (view run).marker ≡ true → IsAttentionOn c self.new }
        ensures runs { OnOk result (self.new.runs.items ≡ self.old.runs.items ++ (run ∷ [])) }
        ensures delimiters { self.new.delimiters ≡ self.old.delimiters }
    {
        self.runs.push(run)?;
        Ok(())
    }

    /// Resolves the runs from this one on, in a content of `size` bytes. They no longer wait then.
    /// The only error is that memory ran out.
    #[inline(always)]
    pub fn resolve(&mut self, alloc: Global, size: usize, from: usize) -> Result<(), AllocError>
        ensures on { (c : Constructs) → IsAttentionOn c self.old → IsAttentionOn c self.new }
        ensures resolved { OnOk result (AreResolved (views (drop from self.old.runs.items)) (room (drop from self.old.runs.items) size self.old.delimiters.items) self.new.delimiters.items) }
        ensures waiting { OnOk result (self.new.runs.items ≡ take from self.old.runs.items) }
    {
        if self.runs.len() <= from {
            return Ok(());
        }
        self.resolve_some(alloc, size, from)
    }

    /// Resolves the runs from this one on, of which there is at least one.
    #[inline(never)]
    fn resolve_some(&mut self, alloc: Global, size: usize, from: usize) -> Result<(), AllocError>
        requires { from < length self.old.runs.items }
        ensures on { (c : Constructs) → IsAttentionOn c self.old → IsAttentionOn c self.new }
        ensures resolved { OnOk result (AreResolved (views (drop from self.old.runs.items)) (room (drop from self.old.runs.items) size self.old.delimiters.items) self.new.delimiters.items) }
        ensures waiting { OnOk result (self.new.runs.items ≡ take from self.old.runs.items) }
    {
        self.begin(size)?;
        emphasis::resolve(
            alloc,
            &self.runs[from..],
            &mut self.delimiters,
            &mut Count::zero(),
        )?;
        self.runs.truncate(from);
        Ok(())
    }

    /// Makes room for the delimiters in a content of `size` bytes, if there is none yet. The only
    /// error is that memory ran out.
    fn begin(&mut self, size: usize) -> Result<(), AllocError>
        ensures runs { self.new.runs ≡ self.old.runs }
        ensures on { (c : Constructs) → AreDelimitersOn c self.old.delimiters.items → AreDelimitersOn c self.new.delimiters.items }
        ensures delimiters { OnOk result (self.new.delimiters.items ≡ begun size self.old.delimiters.items) }
    {
        if !self.delimiters.is_empty() {
            return Ok(());
        }
        self.delimiters.resize(size, Delimiter::Data)?;
        Ok(())
    }

    /// Returns what begins at each offset. It is empty if there are no runs. The list of runs is
    /// spare then.
    #[inline(always)]
    pub fn into_delimiters(self, lists: &mut SpareLists) -> Vec<Delimiter>
        ensures on { (c : Constructs) → IsAttentionOn c self → AreDelimitersOn c result.items }
        ensures same { result ≡ self.delimiters }
    {
        let Attention { runs, delimiters } = self;
        lists.runs = runs;
        delimiters
    }
}
