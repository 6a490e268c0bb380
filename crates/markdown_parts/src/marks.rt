//! What an open span keeps of its children, transparent ones included, for spread and alignment.

ghost use Rattle.std.specs.Prelude.{◌≡◌, Some};
ghost use Rattle.std.specs.Option.{option_or};
ghost use Rattle.markdown_events.specs.Spread.{is_delimiter_marker};
ghost use Rattle.markdown_events.specs.declared.role.ItemKind.{ItemKind};
ghost use Rattle.markdown_events.specs.declared.role.ItemKind.TheVariants as item_kinds;
ghost use Rattle.markdown_events.specs.declared.role.Content.TheVariants as contents;
ghost use Rattle.markdown_events.specs.declared.role.TransparentKind.TheVariants as transparents;
ghost use Rattle.markdown_events.specs.declared.role.Role.TheVariants as roles;
ghost use Rattle.markdown_steps.specs.Siblings.{kind_by, marks_with, no_marks, past_space, sibling_of};
ghost use Rattle.markdown_parts.specs.Marks.{first_of, marks_of, sibling_in};

use markdown_nodes::mdast::AlignKind;
use markdown_nodes::role::{Content, ItemKind, Role, TransparentKind};

/// What a child is to its siblings and to its parent.
#[derive(Clone, Copy)]
pub enum Sibling {
    Other,
    SpaceOrTab,
    ListItemPrefix,
    BlockQuotePrefix,
    /// A block quote that ends with its prefix.
    BareBlockQuote,
    /// An item without content at its end.
    BareListItem,
    DelimiterMarker,
}

/// What the first child is.
#[derive(Clone, Copy)]
pub enum First {
    /// There is no child so far.
    Absent,
    DelimiterMarker,
    Other,
}

/// What is known of the children so far.
#[derive(Clone, Copy)]
pub struct Marks {
    /// The last child.
    pub last: Sibling,
    /// The child before it.
    pub last_but_one: Sibling,
    pub first: First,
    /// Whether the span is loose, if it is an item.
    pub is_loose_item: bool,
    /// Whether the span is loose, if it is a list.
    pub is_loose_list: bool,
}

impl Marks {
    /// Returns the marks before the first child.
    pub fn new() -> Marks
        ensures { marks_of result ≡ no_marks }
    {
        Marks {
            last: Sibling::Other,
            last_but_one: Sibling::Other,
            first: First::Absent,
            is_loose_item: false,
            is_loose_list: false,
        }
    }

    /// Returns the last child, one space or tab skipped.
    fn past_space(self) -> Sibling
        ensures { sibling_in result ≡ past_space (marks_of self) }
    {
        match self.last {
            Sibling::SpaceOrTab => self.last_but_one,
            last => last,
        }
    }

    /// Returns what a span of the role, with these children, is to its siblings and to its parent.
    fn sibling(self, role: Role) -> Sibling
        ensures { sibling_in result ≡ sibling_of role (marks_of self) }
    {
        match role {
            Role::Transparent(TransparentKind::SpaceOrTab) => Sibling::SpaceOrTab,
            Role::Transparent(TransparentKind::ListItemPrefix) => Sibling::ListItemPrefix,
            Role::Transparent(TransparentKind::BlockQuotePrefix) => Sibling::BlockQuotePrefix,
            Role::Transparent(TransparentKind::DelimiterMarker) => Sibling::DelimiterMarker,
            Role::Significant(ItemKind::Content(Content::BlockQuote)) => self.block_quote(),
            Role::Significant(ItemKind::Content(Content::ListItem)) => self.list_item(),
            _ => Sibling::Other,
        }
    }

    /// Returns what a block quote with these children is to its siblings.
    fn block_quote(self) -> Sibling
        ensures { sibling_in result ≡ sibling_of (roles.Significant (item_kinds.Content contents.BlockQuote)) (marks_of self) }
    {
        match self.last {
            Sibling::BlockQuotePrefix => Sibling::BareBlockQuote,
            _ => Sibling::Other,
        }
    }

    /// Returns what an item with these children is to its siblings.
    fn list_item(self) -> Sibling
        ensures { sibling_in result ≡ sibling_of (roles.Significant (item_kinds.Content contents.ListItem)) (marks_of self) }
    {
        match self.past_space() {
            Sibling::ListItemPrefix | Sibling::BareBlockQuote => Sibling::BareListItem,
            _ => Sibling::Other,
        }
    }

    /// Adds one more child, with a role and with children of its own.
    pub fn add(&mut self, role: Role, inner: Marks)
        ensures { marks_of self.new ≡ marks_with (marks_of self.old) role (marks_of inner) }
    {
        match role {
            Role::Transparent(TransparentKind::BlankLineEnding) => self.add_blank_line(),
            _ => {
                self.last_but_one = self.last;
                self.last = inner.sibling(role);
                self.first.take(role);
            }
        }
    }

    /// Adds one more child, a significant span without children. It says nothing to its siblings.
    #[inline(always)]
    #[tactic(auto, using(crate::proofs::Childless::says_nothing))]
    pub fn add_childless(&mut self)
        ensures { (what : ItemKind) → marks_of self.new ≡ marks_with (marks_of self.old) (roles.Significant what) no_marks }
    {
        self.last_but_one = self.last;
        self.last = Sibling::Other;
        if let First::Absent = self.first {
            self.first = First::Other;
        }
    }

    /// Adds a blank line. It makes a list loose, unless it comes after an item that ends without
    /// content, and it makes an item loose, unless it comes after the item's prefix (CommonMark,
    /// lists).
    fn add_blank_line(&mut self)
        ensures { marks_of self.new ≡ marks_with (marks_of self.old) (roles.Transparent transparents.BlankLineEnding) no_marks }
    {
        self.is_loose_item = self.is_loose_item
            || !matches!(self.past_space(), Sibling::ListItemPrefix);
        self.is_loose_list = self.is_loose_list || !matches!(self.last, Sibling::BareListItem);
        self.last_but_one = self.last;
        self.last = Sibling::Other;
        self.first
            .take(Role::Transparent(TransparentKind::BlankLineEnding));
    }

    /// Returns how a cell of the delimiter row with these children aligns its column: `:-:` to the
    /// center, `:-` to the left, `-:` to the right, and `-` not at all (GFM, tables).
    pub fn align_kind(self) -> AlignKind
        ensures { result ≡ kind_by (marks_of self) }
    {
        let first = matches!(self.first, First::DelimiterMarker);
        match (first, self.last) {
            (true, Sibling::DelimiterMarker) => AlignKind::Center,
            (true, _) => AlignKind::Left,
            (false, Sibling::DelimiterMarker) => AlignKind::Right,
            (false, _) => AlignKind::None,
        }
    }
}

impl First {
    /// Adds a child of a role, which is the first one if there was none.
    fn take(&mut self, role: Role)
        ensures { first_of self.new ≡ option_or (first_of self.old) (Some (is_delimiter_marker role)) }
    {
        if let First::Absent = self {
            *self = First::of(role);
        }
    }

    /// Returns the first child, by its role.
    fn of(role: Role) -> First
        ensures { first_of result ≡ Some (is_delimiter_marker role) }
    {
        match role {
            Role::Transparent(TransparentKind::DelimiterMarker) => First::DelimiterMarker,
            _ => First::Other,
        }
    }
}
