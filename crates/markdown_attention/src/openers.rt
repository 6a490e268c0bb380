//! The stack of the runs that may still open something.

ghost use Rattle.std.specs.Prelude.{OnOk, ◌≡◌, ◌≢◌, false, ◌<◌, ◌++◌, ◌∷◌, ◌≤◌, ◌+◌, ◌-◌, ◌*◌, List, length, [], IfNone, IfSome, min, slice_index, slice_set, true, ℕ};

use crate::delimiter::Delimiter;
use crate::run::Run;
use std::alloc::{AllocError, Global};
use step_count::count::Count;

/// How many classes of closing runs there are.
const CLASSES: usize = 14;

/// The runs that may still open something, the last one on top.
#[derive(Drop)]
pub struct Openers {
    /// The runs.
    stack: Vec<Run>,
    /// For each class of closing runs, how many runs at the bottom do not open one of that class.
    bottoms: [usize; CLASSES],
}

impl Openers {
    ghost use Rattle.markdown_attention.specs.Emphasis.{DelimiterRun, NoneOpens, closed, kept, opened, paired, strength};
    ghost use Rattle.markdown_attention.specs.Taking.{AreTaken, AreTakenInPart, IsTaking, openers};
    ghost use Rattle.markdown_attention.specs.Openers.{IsClosed, IsNearest, IsPaired, IsSound, MayClose, class_of};
    ghost use Rattle.markdown_attention.specs.Costs.{cost, reach};
    ghost use Rattle.markdown_attention.specs.Runs.{AreReady, IsDelimiterRun, IsReady, marked, view, views};

    /// Returns an empty stack.
    pub fn new(alloc: Global) -> Openers
        ensures stack { result.stack.items ≡ [] }
        ensures bottoms { (class : ℕ) → slice_index result.bottoms class ≡ 0 }
    {
        Openers {
            stack: Vec::new(alloc),
            bottoms: [0; CLASSES],
        }
    }

    /// Takes runs, one after the other. The only error is that memory ran out.
    pub fn take_all(
        &mut self,
        runs: &[Run],
        delimiters: &mut Vec<Delimiter>,
        steps: &mut Count,
    ) -> Result<(), AllocError>
        requires runs { AreReady runs.now }
        requires sound { IsSound self.old.bottoms (views self.old.stack.items) }
        ensures taken { OnOk result ((taken : List DelimiterRun) → openers taken ≡ views self.old.stack.items → AreTaken taken (views runs.now) (views self.new.stack.items) delimiters.old.items delimiters.new.items) }
        ensures part { (taken : List DelimiterRun) → openers taken ≡ views self.old.stack.items → AreTakenInPart taken (views runs.now) delimiters.old.items delimiters.new.items }
        ensures linear { steps.new.number ≤ steps.old.number + reach self.old.bottoms (length self.old.stack.items) + cost runs.now }
    {
        for run in runs {
            steps.tick();
            self.take(*run, delimiters, steps)?;
        }
        Ok(())
    }

    /// Takes the next run: it closes what it can, and may open something later. The only error is that
    /// memory ran out.
    fn take(
        &mut self,
        run: Run,
        delimiters: &mut Vec<Delimiter>,
        steps: &mut Count,
    ) -> Result<(), AllocError>
        requires run { IsReady (view run) }
        requires sound { IsSound self.old.bottoms (views self.old.stack.items) }
        ensures sound { IsSound self.new.bottoms (views self.new.stack.items) }
        ensures taken { OnOk result ((taken : List DelimiterRun) → openers taken ≡ views self.old.stack.items → AreTaken taken (view run ∷ []) (views self.new.stack.items) delimiters.old.items delimiters.new.items) }
        ensures part { (taken : List DelimiterRun) → openers taken ≡ views self.old.stack.items → AreTakenInPart taken (view run ∷ []) delimiters.old.items delimiters.new.items }
        ensures linear { OnOk result (steps.new.number + reach self.new.bottoms (length self.new.stack.items) ≤ steps.old.number + reach self.old.bottoms (length self.old.stack.items) + 16 * (view run).left + 15) }
        ensures most { steps.new.number ≤ steps.old.number + reach self.old.bottoms (length self.old.stack.items) + 16 * (view run).left + 1 }
    {
        let mut run = run;
        if run.can_close() {
            self.close_all(&mut run, delimiters, steps);
        }
        self.keep(run)
    }

    /// Keeps a run that may open something later. The only error is that memory ran out.
    fn keep(&mut self, run: Run) -> Result<(), AllocError>
        requires run { IsDelimiterRun (view run) }
        requires sound { IsSound self.old.bottoms (views self.old.stack.items) }
        ensures sound { IsSound self.new.bottoms (views self.new.stack.items) }
        ensures runs { OnOk result (views self.new.stack.items ≡ views self.old.stack.items ++ openers (kept (view run))) }
        ensures reach { OnOk result (reach self.new.bottoms (length self.new.stack.items) ≤ reach self.old.bottoms (length self.old.stack.items) + 14) }
    {
        if run.can_open() && run.left() > 0 {
            self.stack.push(run)?;
        }
        Ok(())
    }

    /// Closes everything that a run can close.
    fn close_all(&mut self, run: &mut Run, delimiters: &mut Vec<Delimiter>, steps: &mut Count)
        requires run { MayClose (view run.old) }
        requires sound { IsSound self.old.bottoms (views self.old.stack.items) }
        ensures sound { IsSound self.new.bottoms (views self.new.stack.items) }
        ensures taking { (taken : List DelimiterRun) → openers taken ≡ views self.old.stack.items → IsTaking taken (view run.old) (views self.new.stack.items) (view run.new) delimiters.old.items delimiters.new.items }
        ensures left { 0 < (view run.new).left → NoneOpens (views self.new.stack.items) (view run.new) }
        ensures linear { steps.new.number + reach self.new.bottoms (length self.new.stack.items) + 16 * (view run.new).left ≤ steps.old.number + reach self.old.bottoms (length self.old.stack.items) + 16 * (view run.old).left + 1 }
        ensures same { ((view run.new).can_open ≡ (view run.old).can_open) × IsDelimiterRun (view run.new) }
    {
        'pairs: while run.left() > 0 {
            steps.tick();
            if !self.close_nearest(run, delimiters, steps) {
                return;
            }
        }
    }

    /// Pairs a closing run with its nearest opener, if it has one.
    fn close_nearest(
        &mut self,
        closer: &mut Run,
        delimiters: &mut Vec<Delimiter>,
        steps: &mut Count,
    ) -> bool
        requires closer { MayClose (view closer.old) }
        requires sound { IsSound self.old.bottoms (views self.old.stack.items) }
        ensures sound { IsSound self.new.bottoms (views self.new.stack.items) }
        ensures none { result ≡ false → NoneOpens (views self.old.stack.items) (view closer.old) }
        ensures stack { result ≡ false → self.new.stack ≡ self.old.stack }
        ensures closer { result ≡ false → view closer.new ≡ view closer.old }
        ensures delimiters { result ≡ false → delimiters.new.items ≡ delimiters.old.items }
        ensures linear_none { result ≡ false → steps.new.number + reach self.new.bottoms (length self.new.stack.items) ≤ steps.old.number + reach self.old.bottoms (length self.old.stack.items) }
        ensures linear { result ≡ true → steps.new.number + reach self.new.bottoms (length self.new.stack.items) ≤ steps.old.number + reach self.old.bottoms (length self.old.stack.items) + 15 }
        ensures paired { result ≡ true → IsClosed (views self.old.stack.items) (view closer.old) (views self.new.stack.items) (view closer.new) delimiters.old.items delimiters.new.items }
    {
        let Some(height) = self.height_for(closer, steps) else {
            self.raise_bottom(closer);
            return false;
        };
        self.stack.truncate(height);
        self.pair(closer, delimiters, steps);
        true
    }

    /// Returns how many runs there are up to the nearest opener of a closing one.
    fn height_for(&self, closer: &Run, steps: &mut Count) -> Option<usize>
        requires closer { MayClose (view closer.now) }
        requires sound { IsSound self.now.bottoms (views self.now.stack.items) }
        ensures none { IfNone result (NoneOpens (views self.now.stack.items) (view closer.now)) }
        ensures some { IfSome result (λ height. IsNearest (views self.now.stack.items) (view closer.now) height) }
        ensures steps_none { IfNone result (steps.new.number + slice_index self.now.bottoms (class_of (view closer.now)) ≡ steps.old.number + length self.now.stack.items) }
        ensures steps_some { IfSome result (λ height. (steps.new.number + height ≡ steps.old.number + length self.now.stack.items + 1) × (slice_index self.now.bottoms (class_of (view closer.now)) < height)) }
    {
        let bottom = self.bottom_for(closer);
        let mut height = self.stack.len();
        'runs: while height > bottom {
            steps.tick();
            height -= 1;
            if self.stack[height].goes_with(closer) {
                return Some(height + 1);
            }
        }
        None
    }

    /// Returns how many runs at the bottom are known not to open a closing one.
    fn bottom_for(&self, closer: &Run) -> usize
        ensures { result ≡ slice_index self.now.bottoms (class_of (view closer.now)) }
    {
        self.bottoms[closer.class()]
    }

    /// Records that no run opens a closing one.
    fn raise_bottom(&mut self, closer: &Run)
        ensures stack { self.new.stack ≡ self.old.stack }
        ensures here { slice_index self.new.bottoms (class_of (view closer.now)) ≡ length self.old.stack.items }
        ensures others { (class : ℕ) → class ≢ class_of (view closer.now) → slice_index self.new.bottoms class ≡ slice_index self.old.bottoms class }
    {
        self.bottoms[closer.class()] = self.stack.len();
    }

    /// Pairs the run on top with a closing one.
    fn pair(&mut self, closer: &mut Run, delimiters: &mut Vec<Delimiter>, steps: &mut Count)
        ensures paired { (before : List DelimiterRun) → (opener : DelimiterRun) → views self.old.stack.items ≡ before ++ (opener ∷ []) → 0 < opener.left → 0 < (view closer.old).left → IsPaired before opener (view closer.old) (views self.new.stack.items) (view closer.new) delimiters.old.items delimiters.new.items }
        ensures bottoms { (class : ℕ) → slice_index self.new.bottoms class ≡ min (slice_index self.old.bottoms class) (length self.new.stack.items) }
        ensures steps { steps.new.number ≡ steps.old.number + 14 }
    {
        self.pair_top(closer, delimiters);
        self.drop_used();
        self.lower_bottoms(steps);
    }

    /// Takes the markers of a pair from the run on top and from a closing one.
    fn pair_top(&mut self, closer: &mut Run, delimiters: &mut Vec<Delimiter>)
        ensures bottoms { self.new.bottoms ≡ self.old.bottoms }
        ensures top { (before : List DelimiterRun) → (opener : DelimiterRun) → views self.old.stack.items ≡ before ++ (opener ∷ []) → 0 < opener.left → 0 < (view closer.old).left → views self.new.stack.items ≡ before ++ (opened (strength opener (view closer.old)) opener ∷ []) }
        ensures closer { (before : List DelimiterRun) → (opener : DelimiterRun) → views self.old.stack.items ≡ before ++ (opener ∷ []) → 0 < opener.left → 0 < (view closer.old).left → view closer.new ≡ closed (strength opener (view closer.old)) (view closer.old) }
        ensures delimiters { (before : List DelimiterRun) → (opener : DelimiterRun) → views self.old.stack.items ≡ before ++ (opener ∷ []) → 0 < opener.left → 0 < (view closer.old).left → delimiters.new.items ≡ marked (paired opener (view closer.old) ∷ []) delimiters.old.items }
    {
        let Some(opener) = self.stack.last_mut() else {
            return;
        };
        let kind = opener.kind_with(closer);
        let size = kind.size().min(opener.left()).min(closer.left());
        set_delimiter(delimiters, opener.open(size), Delimiter::Opening(kind));
        set_delimiter(delimiters, closer.close(size), Delimiter::Closing(kind));
    }

    /// Drops the run on top if no marker of it is left.
    fn drop_used(&mut self)
        ensures bottoms { self.new.bottoms ≡ self.old.bottoms }
        ensures runs { (before : List DelimiterRun) → (run : DelimiterRun) → views self.old.stack.items ≡ before ++ (run ∷ []) → views self.new.stack.items ≡ before ++ kept run }
    {
        if self.stack.last().is_some_and(|run| run.left() == 0) {
            self.stack.pop();
        }
    }

    /// Lowers the bottoms that are above the top.
    fn lower_bottoms(&mut self, steps: &mut Count)
        ensures stack { self.new.stack ≡ self.old.stack }
        ensures bottoms { (class : ℕ) → slice_index self.new.bottoms class ≡ min (slice_index self.old.bottoms class) (length self.old.stack.items) }
        ensures steps { steps.new.number ≡ steps.old.number + 14 }
    {
        let size = self.stack.len();
        for class in 0..CLASSES {
            steps.tick();
            self.bottoms[class] = self.bottoms[class].min(size);
        }
    }
}

/// Sets what begins at an offset.
fn set_delimiter(delimiters: &mut Vec<Delimiter>, at: usize, delimiter: Delimiter)
    ensures { delimiters.new.items ≡ slice_set delimiters.old.items at delimiter }
{
    if let Some(place) = delimiters.get_mut(at) {
        *place = delimiter;
    }
}
