// The mapping of a term's head.
ghost use Rattle.std.specs.Prelude.{◌≡◌, ◌<◌, ◌≤◌, ℕ, length, None, IfOk, IfSome, IfNone};
ghost use Rattle.gx_values.specs.Values.{kind_in};
ghost use Rattle.gx_actual.specs.Bodies.{field_widths, AreShortTexts};
ghost use Rattle.gx_divide.specs.Forms.{IsDivide};
ghost use Rattle.gx_encode.specs.Forms.{IsEncode};
ghost use Rattle.gx_index.specs.Forms.{CanIndex};
ghost use Rattle.gx_mapping.specs.Rule.{first_in};
ghost use Rattle.gx_partition.specs.Bounds.{IsPartition};
ghost use Rattle.gx_values.specs.declared.values.Kind.{Kind as KindOf};
ghost use Rattle.gx_equation.specs.declared.heads.Head.TheVariants as heads;
ghost use Rattle.gx_equation.specs.Seen.{tree_of};
ghost use Rattle.gx_equation.specs.Trees.{head_of};
ghost use Rattle.gx_types.specs.Build.{IsFirstOf, IsPlaceOf, IsMappingOf, IsReady};
ghost use Rattle.gx_types.specs.HeadRules.{numbers_in, place_in, IsLayer};
ghost use Rattle.gx_types.specs.Makers.{CanTranspose};
ghost use Rattle.gx_typing.specs.Typed.{IsField};

use crate::any::AnyMapping;
use gx_actual::actual;
use gx_divide::divide;
use gx_encode::encode;
use gx_equation::{Names, Term};
use gx_forms::has_name;
use gx_index::index;
use gx_partition::{Where, partition};
use gx_split::{segment, transpose};
use gx_values::{Code, Field, Form, Name, NoMemory, Values};
use std::alloc::Global;

// The mapping of `actual` for the records of the form.
fn actual_of(alloc: Global, form: &Form) -> Result<AnyMapping, NoMemory>
    requires texts { AreShortTexts form.now.fields }
    requires narrow { field_widths form.now.fields ≤ 65535 }
    ensures { IfOk result (IsMappingOf heads.Actual form.now) }
{
    Ok(AnyMapping::Actual(actual(alloc, form)?))
}

// The number of the first field of the name.
fn position(fields: &[Field], name: &[u8]) -> Option<u16>
    requires { length fields.now ≤ 65535 }
    ensures some { IfSome result (IsFirstOf fields.now name.now) }
    ensures none { IfNone result (kind_in fields.now name.now ≡ None) }
{
    for (i, field) in fields.iter().enumerate() {
        if field.name.as_slice() == name {
            return Some(i as u16);
        }
    }
    None
}

// The place of the first field of the name, keys before data.
fn place_of(form: &Form, name: &[u8]) -> Where
    requires few_keys { length form.now.keys ≤ 65535 }
    requires few_fields { length form.now.fields ≤ 65535 }
    requires named { (kind : KindOf) × IsField form.now name.now kind }
    ensures { IsPlaceOf form.now name.now result }
{
    if let Some(i) = position(&form.keys.0, name) {
        return Where::Key(i);
    }
    match position(&form.fields.0, name) {
        Some(i) => Where::Rest(i),
        None => unreachable!(),
    }
}

// The mapping of `partition` by the field of the name, for the records of the form.
fn partition_of(
    alloc: Global,
    form: &Form,
    name: &Name,
    bounds: &Values,
) -> Result<AnyMapping, NoMemory>
    requires few_keys { length form.now.keys ≤ 65535 }
    requires few_fields { length form.now.fields ≤ 65535 }
    requires named { (kind : KindOf) × IsField form.now name.now kind }
    requires can { IsPartition form.now (place_in form.now name.now) bounds.now }
    ensures { IfOk result (IsMappingOf (heads.Partition name.now bounds.now) form.now) }
{
    let at = place_of(form, name.as_slice());
    Ok(AnyMapping::Partition(partition(alloc, form, at, bounds)?))
}

// The mapping of `encode` by the field of the name, for the records of the form.
fn encode_of(alloc: Global, form: &Form, name: &Name, code: Code) -> Result<AnyMapping, NoMemory>
    requires few_fields { length form.now.fields ≤ 65535 }
    requires can { IsEncode form.now (first_in form.now.fields name.now) code }
    ensures { IfOk result (IsMappingOf (heads.Encode name.now code) form.now) }
{
    match position(&form.fields.0, name.as_slice()) {
        Some(field) => Ok(AnyMapping::Encode(encode(alloc, form, field, code)?)),
        None => unreachable!(),
    }
}

// The numbers of the fields that have one of the names.
fn numbers_of(alloc: Global, fields: &[Field], names: &Names) -> Result<Vec<u16>, NoMemory>
    requires { length fields.now ≤ 65535 }
    ensures { IfOk result (λ numbers. numbers.items ≡ numbers_in fields.now names.now) }
{
    let mut numbers = Vec::new(alloc);
    for (i, field) in fields.iter().enumerate() {
        if has_name(&names.0, field.name.as_slice()) {
            numbers.push(i as u16)?;
        }
    }
    Ok(numbers)
}

// The mapping of `segment` by the names of the first group, for the records of the form.
fn segment_of(alloc: Global, form: &Form, names: &Names) -> Result<AnyMapping, NoMemory>
    requires { length form.now.fields ≤ 65535 }
    ensures { IfOk result (IsMappingOf (heads.Segment names.now) form.now) }
{
    let numbers = numbers_of(alloc, &form.fields.0, names)?;
    Ok(AnyMapping::Segment(segment(alloc, form, &numbers)?))
}

// The mapping of `transpose` for the records of the form.
fn transpose_of(alloc: Global, form: &Form) -> Result<AnyMapping, NoMemory>
    requires { CanTranspose form.now }
    ensures { IfOk result (IsMappingOf heads.Transpose form.now) }
{
    Ok(AnyMapping::Transpose(transpose(alloc, form)?))
}

// The mapping of `divide` by pieces of so many bytes, for the records of the form.
fn divide_of(alloc: Global, form: &Form, size: u16) -> Result<AnyMapping, NoMemory>
    requires { IsDivide form.now size }
    ensures { IfOk result (IsMappingOf (heads.Divide size) form.now) }
{
    Ok(AnyMapping::Divide(divide(alloc, form, size)?))
}

// The mapping of `index` by the field of the name, for the records of the form.
fn index_of(alloc: Global, form: &Form, name: &Name) -> Result<AnyMapping, NoMemory>
    requires few_fields { length form.now.fields ≤ 65535 }
    requires can { CanIndex form.now (first_in form.now.fields name.now) }
    ensures { IfOk result (IsMappingOf (heads.Index name.now) form.now) }
{
    match position(&form.fields.0, name.as_slice()) {
        Some(field) => Ok(AnyMapping::Index(index(alloc, form, field)?)),
        None => unreachable!(),
    }
}

/// The mapping of the head of a term, for the records of the form. `NoMemory`: there was none for
/// it.
pub(crate) fn mapping_of(alloc: Global, form: &Form, term: &Term) -> Result<AnyMapping, NoMemory>
    requires ready { (next : ℕ) × IsReady next form.now (tree_of term.now) }
    requires layer { IsLayer (head_of (tree_of term.now)) }
    ensures { IfOk result (IsMappingOf (head_of (tree_of term.now)) form.now) }
{
    match term {
        Term::Actual(_) => actual_of(alloc, form),
        Term::Encode(name, code, _) => encode_of(alloc, form, name, *code),
        Term::Segment(names, _, _) => segment_of(alloc, form, names),
        Term::Transpose(_) => transpose_of(alloc, form),
        Term::Partition(name, bounds, _) => partition_of(alloc, form, name, bounds),
        Term::Divide(size, _) => divide_of(alloc, form, *size),
        Term::Index(name, _, _) => index_of(alloc, form, name),
        _ => unreachable!(),
    }
}
