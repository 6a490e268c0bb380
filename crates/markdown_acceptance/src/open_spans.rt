//! The open spans, with what acceptance depends on.

ghost use Rattle.std.specs.Prelude.{◌≡◌, ◌∷◌, IfOk, OnErr, OnOk, [], false, true};
ghost use Rattle.markdown_acceptance.specs.Calls.{
  AfterToken,
  AtRoot,
  Closed,
  IfMisfit,
  IsOutside,
  Opened,
  exit_of,
  may_close,
  may_close_as,
  may_open,
  may_write,
};
ghost use Rattle.markdown_acceptance.specs.Shown.{ShowsState};
ghost use Rattle.markdown_events.specs.Around.{may_begin};
ghost use Rattle.markdown_events.specs.Forest.{exit};
ghost use Rattle.markdown_events.specs.Names.{role_of};
ghost use Rattle.markdown_events.specs.declared.role.Role.TheVariants as roles;
ghost use Rattle.markdown_grammar.specs.Document.{source};
ghost use Rattle.markdown_steps.specs.Compiler.{opening};

use crate::error::WriteError;
use crate::site::Site;
use character_references::references::References;
use markdown_events::around::Around;
use markdown_events::event::{Name, Point};
use markdown_events::role::{ItemKind, Role, TransparentKind};
use markdown_parts::slice::Document;
use std::alloc::Global;
use std::marker::Model;

/// What a significant span is to the container around it (ours).
///
/// For a paragraph at the root, `what` is `ItemKind::Content(Content::Paragraph)`, and `site` is
/// that of the root.
#[derive(Clone, Copy)]
pub struct Outer {
    /// What it is.
    pub what: ItemKind,
    /// Where it is.
    pub site: Site,
}

/// An open span (ours).
///
/// A span with the name `Name::EmphasisText` is transparent: its `outer` is `None`.
#[derive(Clone, Copy)]
pub struct Frame {
    /// Its name.
    pub name: Name,
    /// Where it begins.
    pub start: Point,
    /// The context around it.
    pub around: Around,
    /// For a significant span: what it is, and where it is.
    pub outer: Option<Outer>,
}

/// The open spans, and the site of the next one (ours).
///
/// Before the first event none is open. Only the innermost one can be closed.
#[derive(Drop)]
pub struct OpenSpans {
    /// The open spans, the innermost last.
    frames: Vec<Frame>,
    /// The context of the next span.
    around: Around,
    /// The site of the next span. In a transparent span this is the site around it.
    site: Site,
}

impl Model for OpenSpans {
    ghost use Rattle.std.specs.Prelude.{reverse};
    ghost use Rattle.markdown_acceptance.specs.Stacks.{Stack};

    ghost Value = { Stack };

    ghost view = { λ spans. record { frames = reverse spans.frames.items; around = spans.around; site = spans.site } };
}

impl OpenSpans {
    /// Returns the open spans before the first event: none.
    ///
    /// It allocates no memory. `OpenSpans::new(alloc).is_done()` is true.
    pub fn new(alloc: Global) -> OpenSpans
        ensures shows { ShowsState result opening }
        ensures root { AtRoot result }
    {
        OpenSpans {
            frames: Vec::new(alloc),
            around: Around::in_the_open(),
            site: Site::at_root(),
        }
    }

    /// Whether the events may end here: no span is open, and no break waits for its line ending.
    ///
    /// It is true before the first event, and false in a paragraph.
    pub fn is_done(&self) -> bool
        ensures frames { result ≡ true → self.now.frames ≡ [] }
        ensures breaks { result ≡ true → self.now.site.after_break ≡ false }
        ensures left { result ≡ false → self.now.frames ≡ [] → self.now.site.after_break ≡ true }
    {
        self.frames.is_empty() && !self.site.after_break
    }

    /// Opens a span at a point.
    ///
    /// At the root it opens a `Name::Paragraph`. A `Name::LabelText` there is a
    /// `WriteError::Misfit`, since the root accepts no label. After an error the open spans are
    /// unchanged.
    pub fn enter(
        &mut self,
        document: &Document<'_>,
        name: Name,
        point: Point,
    ) -> Result<(), WriteError>
        ensures taken { OnOk result (may_open document.now.bytes self.old name point ≡ true) }
        ensures opened { OnOk result (Opened name point self.old self.new) }
        ensures same { OnErr result (self.new ≡ self.old) }
        ensures refused { IfMisfit result (may_open document.now.bytes self.old name point ≡ false) }
    {
        let role = name.role();
        if !self.around.allows(role) {
            return Err(WriteError::Misfit);
        }
        match role {
            Role::Transparent(kind) => self.enter_transparent(name, kind, point),
            Role::Significant(what) => self.enter_significant(document, name, what, point),
        }
    }

    /// Opens a transparent span.
    fn enter_transparent(
        &mut self,
        name: Name,
        kind: TransparentKind,
        point: Point,
    ) -> Result<(), WriteError>
        requires role { role_of name ≡ roles.Transparent kind }
        requires may { may_begin self.old.around (role_of name) ≡ true }
        ensures taken { OnOk result (may_open [] self.old name point ≡ true) }
        ensures opened { OnOk result (Opened name point self.old self.new) }
        ensures same { OnErr result (self.new ≡ self.old) }
        ensures refused { IfMisfit result (may_open [] self.old name point ≡ false) }
    {
        self.frames.push(Frame {
            name,
            start: point,
            around: self.around,
            outer: None,
        })?;
        self.around = self.around.inside(Role::Transparent(kind));
        Ok(())
    }

    /// Opens a significant span.
    fn enter_significant(
        &mut self,
        document: &Document<'_>,
        name: Name,
        what: ItemKind,
        point: Point,
    ) -> Result<(), WriteError>
        requires role { role_of name ≡ roles.Significant what }
        requires may { may_begin self.old.around (role_of name) ≡ true }
        ensures taken { OnOk result (may_open document.now.bytes self.old name point ≡ true) }
        ensures opened { OnOk result (Opened name point self.old self.new) }
        ensures same { OnErr result (self.new ≡ self.old) }
        ensures refused { IfMisfit result (may_open document.now.bytes self.old name point ≡ false) }
    {
        if !self.site.may_enter(document, what, point) {
            return Err(WriteError::Misfit);
        }
        let own = self.site.entered(what);
        self.frames.push(Frame {
            name,
            start: point,
            around: self.around,
            outer: Some(Outer {
                what,
                site: self.site,
            }),
        })?;
        self.around = self.around.inside(Role::Significant(what));
        self.site = own;
        Ok(())
    }

    /// Closes the innermost span at a point, and returns its name.
    ///
    /// In a paragraph it returns `Name::Paragraph`. The call is a `WriteError::Misfit` if no span
    /// is open, if the span lacks a required part, if a break in it waits for its line ending, or
    /// if its value cannot be read. After an error the open spans are unchanged.
    pub fn exit<R: References>(
        &mut self,
        alloc: Global,
        document: &Document<'_>,
        references: &R,
        point: Point,
    ) -> Result<Name, WriteError>
        ensures taken { OnOk result (may_close (source document.now.bytes (R.text references.now)) self.old point ≡ true) }
        ensures exits { IfOk result (λ name. exit_of self.old point ≡ exit name point ∷ []) }
        ensures closed { OnOk result (Closed self.old self.new) }
        ensures same { OnErr result (self.new ≡ self.old) }
        ensures refused { IfMisfit result (may_close (source document.now.bytes (R.text references.now)) self.old point ≡ false) }
    {
        let Some(frame) = self.frames.last().copied() else {
            return Err(WriteError::Misfit);
        };
        let site = self.site_after(alloc, document, references, frame, point)?;
        self.frames.pop();
        self.around = frame.around;
        self.site = site;
        Ok(frame.name)
    }

    /// Returns the site after the innermost span, which ends at a point.
    fn site_after<R: References>(
        &self,
        alloc: Global,
        document: &Document<'_>,
        references: &R,
        frame: Frame,
        end: Point,
    ) -> Result<Site, WriteError>
        ensures closed { IfOk result (λ site. IsOutside frame.outer self.now.site site) }
        ensures taken { OnOk result (may_close_as (source document.now.bytes (R.text references.now)) frame.outer frame.start self.now.site end ≡ true) }
        ensures refused { IfMisfit result (may_close_as (source document.now.bytes (R.text references.now)) frame.outer frame.start self.now.site end ≡ false) }
    {
        let Some(Outer { what, mut site }) = frame.outer else {
            return Ok(self.site);
        };
        if !self.site.is_complete() {
            return Err(WriteError::Misfit);
        }
        if !site.reads(alloc, document, references, what, frame.start, end)? {
            return Err(WriteError::Misfit);
        }
        site.take(what, self.site.is_marked, self.site.is_numbered);
        Ok(site)
    }

    /// Takes a token: a span from one point to another that contains nothing.
    ///
    /// In a paragraph it takes data. The call is a `WriteError::Misfit` if the span may not be
    /// opened, if it requires a part, or if its value cannot be read. After an error the open spans
    /// are unchanged.
    pub fn token<R: References>(
        &mut self,
        alloc: Global,
        document: &Document<'_>,
        references: &R,
        name: Name,
        start: Point,
        end: Point,
    ) -> Result<(), WriteError>
        ensures taken { OnOk result (may_write (source document.now.bytes (R.text references.now)) self.old name start end ≡ true) }
        ensures written { OnOk result (AfterToken name self.old self.new) }
        ensures same { OnErr result (self.new ≡ self.old) }
        ensures refused { IfMisfit result (may_write (source document.now.bytes (R.text references.now)) self.old name start end ≡ false) }
    {
        let role = name.role();
        if !self.around.allows(role) {
            return Err(WriteError::Misfit);
        }
        if let Role::Significant(what) = role {
            if !self.site.may_enter(document, what, start) || !self.site.takes_empty(what) {
                return Err(WriteError::Misfit);
            }
            let is_read = self
                .site
                .reads(alloc, document, references, what, start, end)?;
            if !is_read {
                return Err(WriteError::Misfit);
            }
            self.site.take(what, false, false);
        }
        Ok(())
    }
}
