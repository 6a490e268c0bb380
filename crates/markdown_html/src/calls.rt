//! The footnotes that are called in a page.

ghost use Rattle.std.specs.Prelude.{◌≡◌, ◌+◌, ◌<◌, ◌^◌, ◌++◌, ◌∷◌, ℕ, [], IfOk, IsSome, None, OnOk, length, option_map, slice_get};
ghost use Rattle.markdown_html.specs.Gathered.{call_of};
ghost use Rattle.markdown_html.specs.Page.{again, count_at, count_of, index_of, more, number_of, with_call};

use std::alloc::{AllocError, Global};
use std::collections::BTreeMap;
use std::marker::Model;

/// A footnote that is called.
#[derive(Clone, Copy)]
pub(crate) struct Call<'a> {
    /// Its identifier.
    pub identifier: &'a str,
    /// How many calls it has.
    pub count: usize,
}

/// The footnotes that are called, in the order of their first calls.
#[derive(Drop)]
pub(crate) struct Calls<'a> {
    list: Vec<Call<'a>>,
    /// The index in the list for each identifier.
    indexes: BTreeMap<&'a str, usize>,
}

impl<'a> Model for Calls<'a> {
    ghost use Rattle.std.specs.Prelude.{List, map};
    ghost use Rattle.markdown_html.specs.Page.{Call};
    ghost use Rattle.markdown_html.specs.Gathered.{AreIndexes, call_of};

    ghost Value = { List Call };

    ghost view = { λ it. map call_of it.list.items };

    ghost invariant = { λ it. AreIndexes it.indexes (map call_of it.list.items) };
}

impl<'a> Calls<'a> {
    /// Returns no calls.
    pub fn new(alloc: Global) -> Calls<'a>
        ensures { result ≡ [] }
    {
        Calls {
            list: Vec::new(alloc),
            indexes: BTreeMap::new(alloc),
        }
    }

    /// Adds a call. Returns the number of the footnote, counted from 1, and how many calls it has
    /// now.
    pub fn add(&mut self, identifier: &'a str) -> Result<(usize, usize), AllocError>
        ensures { IfOk result (λ call. (call.0 ≡ number_of identifier.now self.old) × (call.1 ≡ more (count_of identifier.now self.old)) × (self.new ≡ with_call identifier.now self.old)) }
    {
        match self.indexes.get(&identifier).copied() {
            Some(index) => Ok(self.again(index)),
            None => self.first(identifier),
        }
    }

    /// Adds a call of the footnote with this index.
    fn again(&mut self, index: usize) -> (usize, usize)
        requires { index < length self.old }
        ensures number { result.0 ≡ index + 1 }
        ensures count { result.1 ≡ more (count_at self.old index) }
        ensures calls { self.new ≡ again self.old index }
    {
        let call = &mut self.list[index];
        call.count = call.count.saturating_add(1);
        (index + 1, call.count)
    }

    /// Adds the first call of a footnote.
    fn first(&mut self, identifier: &'a str) -> Result<(usize, usize), AllocError>
        requires { index_of identifier.now self.old ≡ None }
        ensures number { IfOk result (λ call. call.0 ≡ length self.old + 1) }
        ensures count { IfOk result (λ call. call.1 ≡ 1) }
        ensures calls { OnOk result (self.new ≡ self.old ++ (record { identifier = identifier.now; count = 1 }) ∷ []) }
    {
        let index = self.list.len();
        self.list.reserve(1)?;
        self.indexes.insert(identifier, index)?;
        self.list.push_reserved(Call {
            identifier,
            count: 1,
        });
        Ok((index + 1, 1))
    }

    /// Returns the footnote with this number, counted from 0.
    pub fn get(&self, number: usize) -> Option<Call<'a>>
        ensures call { option_map call_of result ≡ slice_get self.now number }
        ensures fits { IsSome result → number + 1 < 2 ^ 64 }
    {
        self.list.get(number).copied()
    }
}
