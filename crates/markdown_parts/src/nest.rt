//! A stack that is never empty.

ghost use Rattle.std.specs.Prelude.{◌≡◌};
ghost use Rattle.std.specs.Borrow.{sem};
ghost use Rattle.markdown_parts.specs.Nest.{LendsInnermost, innermost};

/// A stack that is never empty: a value, and the values nested in it. The innermost value stays in
/// place when another is pushed, so nothing is moved then.
///
/// If `outermost` is `a` and `inner` is `b`, `c`, the innermost is `c`.
#[derive(Drop)]
pub struct Nest<T> {
    /// The value around all others.
    pub outermost: T,
    /// The values in the outermost, the innermost last. To nest a value in the innermost one, push
    /// it here, so that it is moved only once.
    pub inner: Vec<T>,
}

impl<T> Nest<T> {
    /// Returns the innermost value: the last of `inner`, or `outermost` if there is none.
    pub fn innermost(&self) -> &T
        ensures { result.now ≡ innermost self.now }
    {
        if self.inner.is_empty() {
            return &self.outermost;
        }
        &self.inner[self.inner.len() - 1]
    }

    /// Returns the innermost value, like [`innermost`](Nest::innermost), for changing.
    pub fn innermost_mut(&mut self) -> &mut T
        ensures* writes_back { sem 𝓛 (LendsInnermost T.row self.entry result) }
        ensures value { result.now ≡ innermost self.old }
    {
        if self.inner.is_empty() {
            return &mut self.outermost;
        }
        let last = self.inner.len() - 1;
        &mut self.inner[last]
    }
}

impl<T: Drop> Nest<T> {
    /// Returns the innermost value; all others are dropped.
    pub fn into_innermost(self) -> T
        ensures { result ≡ innermost self }
    {
        let Nest {
            outermost,
            mut inner,
        } = self;
        match inner.pop() {
            Some(last) => last,
            None => outermost,
        }
    }
}
