//! The open brackets of a text.

ghost use Rattle.std.specs.Prelude.{[], ◌≡◌, IfSome, List, OnOk, true};
ghost use Rattle.markdown_options.specs.declared.Constructs.{Constructs};
ghost use Rattle.markdown_text.specs.Constructs.{AreBracketsOn, is_form_on};
ghost use Rattle.markdown_text.specs.Reached.{AreOpen, IsOpen, has_bracket};
ghost use Rattle.markdown_text.specs.declared.token.Token.{Token};

use crate::spare_lists::{SpareLists, take_cleared};
use crate::token::Labelled;
use std::alloc::{AllocError, Global};

/// What an opening bracket may begin.
#[derive(Clone, Copy, PartialEq, Eq)]
pub enum LabelForm {
    /// The label of a link: `[`.
    Link,
    /// The label of an image: `![`.
    Image,
    /// The label of a call of a footnote: `[^`. If no footnote has that label, it may be that of a
    /// link.
    Footnote,
}

impl LabelForm {
    /// Returns how many bytes come before the label. The caret of a footnote counts as part of it.
    pub fn prefix(self) -> usize {
        match self {
            LabelForm::Link | LabelForm::Footnote => 1,
            LabelForm::Image => 2,
        }
    }
}

/// An opening bracket.
#[derive(Clone, Copy)]
pub struct Bracket {
    /// What it may begin.
    pub form: LabelForm,
    /// Its place among the tokens.
    pub token: usize,
    /// The offset in the content where it begins.
    pub start: usize,
    /// How many runs of delimiters were waiting when it was found.
    pub waiting: usize,
    /// Whether another bracket has been opened in it. If so, no definition has its label.
    pub has_bracket: bool,
}

/// The open brackets, the innermost on top.
#[derive(Drop)]
pub struct Brackets {
    /// The brackets.
    stack: Vec<Bracket>,
    /// How many of them, counted from the bottom, are around a link. They can only begin an image,
    /// since links do not nest (CommonMark).
    around_link: usize,
}

impl Brackets {
    /// Returns an empty stack, with a list that is spare.
    #[inline(always)]
    pub fn new(lists: &mut SpareLists, alloc: Global) -> Brackets
        ensures { result.stack.items ≡ [] }
    {
        Brackets {
            stack: take_cleared(&mut lists.brackets, alloc),
            around_link: 0,
        }
    }

    /// Makes the list of brackets spare.
    #[inline(always)]
    pub fn keep_list(self, lists: &mut SpareLists) {
        lists.brackets = self.stack;
    }

    /// Whether there are any.
    pub fn are_open(&self) -> bool
        ensures { result ≡ has_bracket self.now.stack.items }
    {
        !self.stack.is_empty()
    }

    /// Opens a bracket. The only error is that memory ran out.
    pub fn push(&mut self, bracket: Bracket) -> Result<(), AllocError>
        ensures opened { OnOk result ((tokens : List Token) → AreOpen tokens self.old.stack.items → IsOpen tokens bracket → AreOpen tokens self.new.stack.items) }
        ensures on { (c : Constructs) → AreBracketsOn c self.old.stack.items → is_form_on c bracket.form ≡ true → AreBracketsOn c self.new.stack.items }
    {
        self.mark_outer();
        self.stack.push(bracket)?;
        Ok(())
    }

    /// Records that another bracket is opened in the innermost one.
    fn mark_outer(&mut self)
        ensures opened { (tokens : List Token) → AreOpen tokens self.old.stack.items → AreOpen tokens self.new.stack.items }
        ensures on { (c : Constructs) → AreBracketsOn c self.old.stack.items → AreBracketsOn c self.new.stack.items }
    {
        if let Some(outer) = self.stack.last_mut() {
            outer.has_bracket = true;
        }
    }

    /// Closes the innermost bracket, and returns it if it may begin something.
    pub fn pop(&mut self) -> Option<Bracket>
        ensures left { (tokens : List Token) → AreOpen tokens self.old.stack.items → AreOpen tokens self.new.stack.items }
        ensures closed { (tokens : List Token) → AreOpen tokens self.old.stack.items → IfSome result (IsOpen tokens) }
        ensures on { (c : Constructs) → AreBracketsOn c self.old.stack.items → AreBracketsOn c self.new.stack.items }
        ensures form { (c : Constructs) → AreBracketsOn c self.old.stack.items → IfSome result (λ bracket. is_form_on c bracket.form ≡ true) }
    {
        let bracket = self.stack.pop()?;
        let left = self.stack.len();
        let is_around_link = left < self.around_link;
        self.around_link = self.around_link.min(left);
        if bracket.form == LabelForm::Image || !is_around_link {
            return Some(bracket);
        }
        None
    }

    /// Records what a label belongs to: after a link, all open brackets are around a link.
    pub fn found(&mut self, labelled: Labelled)
        ensures { self.new.stack ≡ self.old.stack }
    {
        if labelled == Labelled::Link {
            self.around_link = self.stack.len();
        }
    }
}
