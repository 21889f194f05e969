//! Locations as nodes keep them.
ghost use Rattle.std.specs.Prelude.{◌≡◌, IfOk, IfSome};
ghost use Rattle.graphql_nodes.specs.KeptLocations.{near_span};

use crate::collections::boxed::Boxed;
use crate::source::{FileId, SourceSpan};
use std::alloc::{AllocError, Global};
use std::marker::Model;

/// A location in a file whose number, start and length take 32 bits at most, as nearly all do.
#[derive(Clone, Copy)]
pub(crate) struct NearSpan {
    file: u32,
    start: u32,
    length: u32,
}

impl NearSpan {
    /// The location, if it is such a one.
    fn from_span(span: SourceSpan) -> Option<NearSpan>
        ensures { IfSome result (λ near. near_span near ≡ span) }
    {
        let length = span.end.checked_sub(span.start)?;
        Some(NearSpan {
            file: u32::try_from(span.file.0).ok()?,
            start: u32::try_from(span.start).ok()?,
            length: u32::try_from(length).ok()?,
        })
    }

    /// The location.
    fn span(self) -> SourceSpan
        ensures { result ≡ near_span self }
    {
        let start = self.start as usize;
        SourceSpan {
            file: FileId(u64::from(self.file)),
            start,
            end: start + self.length as usize,
        }
    }
}

/// A location, if it is known. One that is not near takes memory of its own.
#[derive(Drop)]
pub(crate) enum Kept {
    Unknown,
    Near(NearSpan),
    Far(Boxed<SourceSpan>),
}

/// A location, if it is known, in half the bytes of an `Option<SourceSpan>`.
#[derive(Drop)]
pub(crate) struct KeptLocation {
    kept: Kept,
}

const _: () = prove!(size_of::<KeptLocation>() == 16);

impl Model for KeptLocation {
    ghost use Rattle.std.specs.Prelude.{Option};
    ghost use Rattle.std.specs.Coded.{coded_option};
    ghost use Rattle.graphql_nodes.specs.KeptLocations.{kept_span};
    ghost use Rattle.graphql_nodes.specs.NodeView.{span_code};
    ghost use Rattle.graphql_nodes.specs.declared.source.SourceSpan.{SourceSpan};

    ghost Value = { Option SourceSpan };

    ghost coded = { coded_option span_code };

    ghost view = { λ l. kept_span l.kept };
}

impl KeptLocation {
    /// The location. The error is out of memory, which only a far one meets.
    pub fn new(alloc: Global, location: Option<SourceSpan>) -> Result<KeptLocation, AllocError>
        ensures { IfOk result (λ kept. kept ≡ location) }
    {
        let kept = match location {
            None => Kept::Unknown,
            Some(span) => Kept::of_span(alloc, span)?,
        };
        Ok(KeptLocation { kept })
    }

    /// The location, as it was given.
    pub fn get(&self) -> Option<SourceSpan>
        ensures { result ≡ self.now }
    {
        match &self.kept {
            Kept::Unknown => None,
            Kept::Near(near) => Some(near.span()),
            Kept::Far(span) => Some(**span),
        }
    }
}

impl Kept {
    ghost use Rattle.graphql_nodes.specs.KeptLocations.{kept_span};
    ghost use Rattle.std.specs.Prelude.{Some};

    /// A known location. The error is out of memory, which only a far one meets.
    fn of_span(alloc: Global, span: SourceSpan) -> Result<Kept, AllocError>
        ensures { IfOk result (λ kept. kept_span kept ≡ Some span) }
    {
        match NearSpan::from_span(span) {
            Some(near) => Ok(Kept::Near(near)),
            None => Ok(Kept::Far(Boxed::new(alloc, span)?)),
        }
    }
}

impl Clone for KeptLocation {
    ghost is_clone = { λ a b. b ≡ a };

    /// The same location. The error is out of memory, which only a far one meets.
    fn clone(&self) -> Result<KeptLocation, AllocError> {
        let kept = match &self.kept {
            Kept::Unknown => Kept::Unknown,
            Kept::Near(near) => Kept::Near(*near),
            Kept::Far(span) => Kept::Far(span.same_allocator(**span)?),
        };
        Ok(KeptLocation { kept })
    }
}
