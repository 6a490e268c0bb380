//! A filter of events, which passes on headings.

ghost use Rattle.std.specs.Prelude.{◌≡◌, ◌<◌, false};
ghost use Rattle.markdown_events.specs.declared.event.Kind.TheVariants.{Enter, Exit};
ghost use Rattle.markdown_outline.specs.HeadingFilter.{outside, passes_on};
ghost use Rattle.markdown_outline.specs.HeadingStandings.{Moves, Stays, standing};
ghost use Rattle.markdown_outline.specs.Headings.{is_heading, is_searched};

use markdown_events::event::Name;
use markdown_events::role::{Content, ItemKind, Role};

/// A filter of events, which passes on headings with everything in them.
///
/// It searches for headings in block quotes, lists and footnote definitions. One that begins in any
/// other span is lost, and then what was passed on says nothing.
#[derive(Drop)]
pub struct HeadingFilter {
    /// How many spans are open in which no heading is searched for.
    depth: usize,
    /// Whether the outermost of these is a heading.
    in_heading: bool,
    /// Whether a heading was lost, or there are too many open spans to count.
    loses: bool,
}

impl HeadingFilter {
    /// Returns a filter that has taken no event.
    pub fn new() -> HeadingFilter
        ensures standing { standing result ≡ outside }
        ensures loses { result.loses ≡ false }
    {
        HeadingFilter {
            depth: 0,
            in_heading: false,
            loses: false,
        }
    }

    /// Whether a heading was lost, so that what was passed on says nothing.
    pub fn loses(&self) -> bool
        ensures { result ≡ self.now.loses }
    {
        self.loses
    }

    /// Takes the enter of a span. Returns whether it is passed on.
    #[inline(always)]
    pub fn enter(&mut self, name: Name) -> bool
        ensures passes { result ≡ passes_on (standing self.old) Enter name }
        ensures moves { Moves Enter name self.old self.new }
    {
        if self.depth > 0 {
            self.enter_inside(name)
        } else {
            self.enter_outside(name)
        }
    }

    /// Takes the exit of a span. Returns whether it is passed on.
    #[inline(always)]
    pub fn exit(&mut self, name: Name) -> bool
        ensures passes { result ≡ passes_on (standing self.old) Exit name }
        ensures moves { Moves Exit name self.old self.new }
    {
        if self.depth > 0 {
            self.depth -= 1;
            return self.in_heading;
        }
        false
    }

    /// Takes the enter and the exit of a token. Returns whether both are passed on; if not, neither is.
    #[inline(always)]
    pub fn token(&mut self, name: Name) -> bool
        ensures passes { result ≡ passes_on (standing self.old) Enter name }
        ensures stays { Stays name self.old self.new }
    {
        if self.depth > 0 {
            let lost = !self.in_heading & is_heading(name);
            self.loses = lost | self.loses;
            return self.in_heading;
        }
        is_heading(name)
    }

    /// Takes the enter of a span where no heading is searched for.
    #[inline(always)]
    fn enter_inside(&mut self, name: Name) -> bool
        requires { 0 < self.old.depth }
        ensures passes { result ≡ passes_on (standing self.old) Enter name }
        ensures moves { Moves Enter name self.old self.new }
    {
        let lost = !self.in_heading & is_heading(name);
        match self.depth.checked_add(1) {
            Some(depth) => {
                self.depth = depth;
                self.loses = self.loses | lost;
            }
            None => self.loses = true,
        }
        self.in_heading
    }

    /// Takes the enter of a span where headings are searched for.
    #[inline(always)]
    fn enter_outside(&mut self, name: Name) -> bool
        requires { self.old.depth ≡ 0 }
        ensures passes { result ≡ passes_on (standing self.old) Enter name }
        ensures moves { Moves Enter name self.old self.new }
    {
        let heading = is_heading(name);
        if heading | !is_searched(name) {
            self.depth = 1;
            self.in_heading = heading;
        }
        heading
    }
}

/// Whether the spans of this name are headings.
#[inline(always)]
fn is_heading(name: Name) -> bool
    ensures { result ≡ is_heading name }
{
    matches!(name, Name::HeadingAtx | Name::HeadingSetext)
}

/// Whether headings are searched for in the spans of this name.
#[inline(always)]
fn is_searched(name: Name) -> bool
    ensures { result ≡ is_searched name }
{
    match name.role() {
        Role::Transparent(_) => true,
        Role::Significant(what) => matches!(
            what,
            ItemKind::Content(
                Content::BlockQuote
                    | Content::ListOrdered
                    | Content::ListUnordered
                    | Content::ListItem
                    | Content::FootnoteDefinition
            )
        ),
    }
}
