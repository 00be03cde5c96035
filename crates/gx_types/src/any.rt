// The mappings of all layers as one type.

use gx_actual::Actual;
use gx_divide::Divide;
use gx_encode::Encode;
use gx_index::Index;
use gx_mapping::{Mapping, Part, Parts, Whole};
use gx_partition::Partition;
use gx_split::{Segment, Transpose};
use gx_values::{Form, Name, NoMemory, Octets, Rec, Span, Values};
use std::alloc::Global;

/// The mapping of one of the layers.
#[derive(Debug, Drop)]
pub enum AnyMapping {
    /// all data fields as one field of bytes
    Actual(Actual),
    /// one data field by its code
    Encode(Encode),
    /// the data fields in two groups
    Segment(Segment),
    /// each data field alone
    Transpose(Transpose),
    /// whole records, by the value of one field
    Partition(Partition),
    /// the bytes of the one data field, in pieces
    Divide(Divide),
    /// whole records, and an entry for each under the value of one field
    Index(Index),
}

impl Mapping for AnyMapping {
    ghost use Rattle.gx_types.specs.Any.{any_rule, any_laws};

    ghost rule = { any_rule };

    ghost laws = { any_laws };

    fn kids(&self) -> u16 {
        match self {
            AnyMapping::Actual(mapping) => mapping.kids(),
            AnyMapping::Encode(mapping) => mapping.kids(),
            AnyMapping::Segment(mapping) => mapping.kids(),
            AnyMapping::Transpose(mapping) => mapping.kids(),
            AnyMapping::Partition(mapping) => mapping.kids(),
            AnyMapping::Divide(mapping) => mapping.kids(),
            AnyMapping::Index(mapping) => mapping.kids(),
        }
    }

    fn form(&self) -> &Form {
        match self {
            AnyMapping::Actual(mapping) => mapping.form(),
            AnyMapping::Encode(mapping) => mapping.form(),
            AnyMapping::Segment(mapping) => mapping.form(),
            AnyMapping::Transpose(mapping) => mapping.form(),
            AnyMapping::Partition(mapping) => mapping.form(),
            AnyMapping::Divide(mapping) => mapping.form(),
            AnyMapping::Index(mapping) => mapping.form(),
        }
    }

    fn kid_form(&self, child: u16) -> &Form {
        match self {
            AnyMapping::Actual(mapping) => mapping.kid_form(child),
            AnyMapping::Encode(mapping) => mapping.kid_form(child),
            AnyMapping::Segment(mapping) => mapping.kid_form(child),
            AnyMapping::Transpose(mapping) => mapping.kid_form(child),
            AnyMapping::Partition(mapping) => mapping.kid_form(child),
            AnyMapping::Divide(mapping) => mapping.kid_form(child),
            AnyMapping::Index(mapping) => mapping.kid_form(child),
        }
    }

    fn holds_rest(&self, child: u16) -> bool {
        match self {
            AnyMapping::Actual(mapping) => mapping.holds_rest(child),
            AnyMapping::Encode(mapping) => mapping.holds_rest(child),
            AnyMapping::Segment(mapping) => mapping.holds_rest(child),
            AnyMapping::Transpose(mapping) => mapping.holds_rest(child),
            AnyMapping::Partition(mapping) => mapping.holds_rest(child),
            AnyMapping::Divide(mapping) => mapping.holds_rest(child),
            AnyMapping::Index(mapping) => mapping.holds_rest(child),
        }
    }

    fn parts(&self, alloc: Global, rec: &Rec) -> Result<Parts, NoMemory> {
        match self {
            AnyMapping::Actual(mapping) => mapping.parts(alloc, rec),
            AnyMapping::Encode(mapping) => mapping.parts(alloc, rec),
            AnyMapping::Segment(mapping) => mapping.parts(alloc, rec),
            AnyMapping::Transpose(mapping) => mapping.parts(alloc, rec),
            AnyMapping::Partition(mapping) => mapping.parts(alloc, rec),
            AnyMapping::Divide(mapping) => mapping.parts(alloc, rec),
            AnyMapping::Index(mapping) => mapping.parts(alloc, rec),
        }
    }

    fn into_parts(&self, alloc: Global, rec: Rec) -> Result<Parts, NoMemory> {
        match self {
            AnyMapping::Actual(mapping) => mapping.into_parts(alloc, rec),
            AnyMapping::Encode(mapping) => mapping.into_parts(alloc, rec),
            AnyMapping::Segment(mapping) => mapping.into_parts(alloc, rec),
            AnyMapping::Transpose(mapping) => mapping.into_parts(alloc, rec),
            AnyMapping::Partition(mapping) => mapping.into_parts(alloc, rec),
            AnyMapping::Divide(mapping) => mapping.into_parts(alloc, rec),
            AnyMapping::Index(mapping) => mapping.into_parts(alloc, rec),
        }
    }

    fn as_whole(&self, alloc: Global, rec: &Rec) -> Result<Option<Whole>, NoMemory> {
        match self {
            AnyMapping::Actual(mapping) => mapping.as_whole(alloc, rec),
            AnyMapping::Encode(mapping) => mapping.as_whole(alloc, rec),
            AnyMapping::Segment(mapping) => mapping.as_whole(alloc, rec),
            AnyMapping::Transpose(mapping) => mapping.as_whole(alloc, rec),
            AnyMapping::Partition(mapping) => mapping.as_whole(alloc, rec),
            AnyMapping::Divide(mapping) => mapping.as_whole(alloc, rec),
            AnyMapping::Index(mapping) => mapping.as_whole(alloc, rec),
        }
    }

    fn body(&self, alloc: Global, rec: &Rec) -> Result<Option<Octets>, NoMemory> {
        match self {
            AnyMapping::Actual(mapping) => mapping.body(alloc, rec),
            AnyMapping::Encode(mapping) => mapping.body(alloc, rec),
            AnyMapping::Segment(mapping) => mapping.body(alloc, rec),
            AnyMapping::Transpose(mapping) => mapping.body(alloc, rec),
            AnyMapping::Partition(mapping) => mapping.body(alloc, rec),
            AnyMapping::Divide(mapping) => mapping.body(alloc, rec),
            AnyMapping::Index(mapping) => mapping.body(alloc, rec),
        }
    }

    fn keeps(&self) -> bool {
        match self {
            AnyMapping::Actual(mapping) => mapping.keeps(),
            AnyMapping::Encode(mapping) => mapping.keeps(),
            AnyMapping::Segment(mapping) => mapping.keeps(),
            AnyMapping::Transpose(mapping) => mapping.keeps(),
            AnyMapping::Partition(mapping) => mapping.keeps(),
            AnyMapping::Divide(mapping) => mapping.keeps(),
            AnyMapping::Index(mapping) => mapping.keeps(),
        }
    }

    fn gather(&self, alloc: Global, key: &Values, parts: &Parts) -> Result<Option<Rec>, NoMemory> {
        match self {
            AnyMapping::Actual(mapping) => mapping.gather(alloc, key, parts),
            AnyMapping::Encode(mapping) => mapping.gather(alloc, key, parts),
            AnyMapping::Segment(mapping) => mapping.gather(alloc, key, parts),
            AnyMapping::Transpose(mapping) => mapping.gather(alloc, key, parts),
            AnyMapping::Partition(mapping) => mapping.gather(alloc, key, parts),
            AnyMapping::Divide(mapping) => mapping.gather(alloc, key, parts),
            AnyMapping::Index(mapping) => mapping.gather(alloc, key, parts),
        }
    }

    fn gather_one(&self, alloc: Global, part: Part) -> Result<Option<Rec>, NoMemory> {
        match self {
            AnyMapping::Actual(mapping) => mapping.gather_one(alloc, part),
            AnyMapping::Encode(mapping) => mapping.gather_one(alloc, part),
            AnyMapping::Segment(mapping) => mapping.gather_one(alloc, part),
            AnyMapping::Transpose(mapping) => mapping.gather_one(alloc, part),
            AnyMapping::Partition(mapping) => mapping.gather_one(alloc, part),
            AnyMapping::Divide(mapping) => mapping.gather_one(alloc, part),
            AnyMapping::Index(mapping) => mapping.gather_one(alloc, part),
        }
    }

    fn is_own_part(&self, child: u16, rec: &Rec) -> bool {
        match self {
            AnyMapping::Actual(mapping) => mapping.is_own_part(child, rec),
            AnyMapping::Encode(mapping) => mapping.is_own_part(child, rec),
            AnyMapping::Segment(mapping) => mapping.is_own_part(child, rec),
            AnyMapping::Transpose(mapping) => mapping.is_own_part(child, rec),
            AnyMapping::Partition(mapping) => mapping.is_own_part(child, rec),
            AnyMapping::Divide(mapping) => mapping.is_own_part(child, rec),
            AnyMapping::Index(mapping) => mapping.is_own_part(child, rec),
        }
    }

    fn skips(&self, child: u16, span: &Span) -> bool {
        match self {
            AnyMapping::Actual(mapping) => mapping.skips(child, span),
            AnyMapping::Encode(mapping) => mapping.skips(child, span),
            AnyMapping::Segment(mapping) => mapping.skips(child, span),
            AnyMapping::Transpose(mapping) => mapping.skips(child, span),
            AnyMapping::Partition(mapping) => mapping.skips(child, span),
            AnyMapping::Divide(mapping) => mapping.skips(child, span),
            AnyMapping::Index(mapping) => mapping.skips(child, span),
        }
    }

    fn only_searched(&self, span: &Span) -> Option<u16> {
        match self {
            AnyMapping::Actual(mapping) => mapping.only_searched(span),
            AnyMapping::Encode(mapping) => mapping.only_searched(span),
            AnyMapping::Segment(mapping) => mapping.only_searched(span),
            AnyMapping::Transpose(mapping) => mapping.only_searched(span),
            AnyMapping::Partition(mapping) => mapping.only_searched(span),
            AnyMapping::Divide(mapping) => mapping.only_searched(span),
            AnyMapping::Index(mapping) => mapping.only_searched(span),
        }
    }

    fn indexes(&self, field: &Name) -> Option<u16> {
        match self {
            AnyMapping::Actual(mapping) => mapping.indexes(field),
            AnyMapping::Encode(mapping) => mapping.indexes(field),
            AnyMapping::Segment(mapping) => mapping.indexes(field),
            AnyMapping::Transpose(mapping) => mapping.indexes(field),
            AnyMapping::Partition(mapping) => mapping.indexes(field),
            AnyMapping::Divide(mapping) => mapping.indexes(field),
            AnyMapping::Index(mapping) => mapping.indexes(field),
        }
    }

    fn carries(&self, child: u16, field: &Name) -> bool {
        match self {
            AnyMapping::Actual(mapping) => mapping.carries(child, field),
            AnyMapping::Encode(mapping) => mapping.carries(child, field),
            AnyMapping::Segment(mapping) => mapping.carries(child, field),
            AnyMapping::Transpose(mapping) => mapping.carries(child, field),
            AnyMapping::Partition(mapping) => mapping.carries(child, field),
            AnyMapping::Divide(mapping) => mapping.carries(child, field),
            AnyMapping::Index(mapping) => mapping.carries(child, field),
        }
    }
}

/// How a layer passes records to its children.
#[derive(Clone, Copy, Debug, PartialEq, Eq)]
pub enum Passing {
    /// each as it is, to one child
    Whole,
    /// each with its data as one field of bytes, to one child
    Wrapped,
    /// in another way: coded, or in several parts
    Apart,
}

impl AnyMapping {
    ghost use Rattle.gx_types.specs.Any.{any_rule};
    ghost use Rattle.gx_types.specs.Passing.{Passes};

    /// How the layer passes records to its children.
    pub fn passing(&self) -> Passing
        ensures { Passes (any_rule self.now) result }
    {
        match self {
            AnyMapping::Actual(_) => Passing::Wrapped,
            AnyMapping::Partition(_) => Passing::Whole,
            AnyMapping::Encode(_)
            | AnyMapping::Segment(_)
            | AnyMapping::Transpose(_)
            | AnyMapping::Divide(_)
            | AnyMapping::Index(_) => Passing::Apart,
        }
    }
}
