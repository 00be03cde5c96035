// What is said of a database.
ghost use Rattle.std.specs.Prelude.{◌≡◌, ◌<◌, ◌++◌, [], length, map, slice_index_or, codes, IfOk, OnOk};
ghost use Rattle.std.specs.Fmt.{decimal};
ghost use Rattle.std.specs.FinMap.{len};
ghost use Rattle.gx_ports.specs.LeafMaps.{map_at};
ghost use Rattle.gx_ports.specs.Calls.{ReadsMaps};
ghost use Rattle.gx_equation.specs.declared.heads.Head.TheVariants as heads;
ghost use Rattle.gx_equation.specs.Printing.{head_text};
ghost use Rattle.gx_stack.specs.Held.{AreCounts};
ghost use Rattle.gx_model.specs.States.{State};
ghost use Rattle.gx_audit.specs.Audits.{keys_of};
ghost use Rattle.gx_audit.specs.Texts.{definition_names, leaf_text, file_count_text, link_count_text, leaf_line, file_line, link_line, lines_below};
ghost use Rattle.gx_audit.specs.Texts.{inspect_text as the_text};

use crate::files::FileKeys;
use crate::links::PairCounts;
use gx_ports::{Entries, LeafKind, Leaves, Stop};
use gx_schema::Schema;
use gx_stack::whole_span;
use gx_types::Built;
use itoa::Buffer;
use std::alloc::{AllocError, Global};

/// What is said of leaves that stand for a state with these keys of the records of each file and so
/// many pairs of each link. A leaf without a count of its entries is read. `Damaged`, `Fault`,
/// `NoMemory`: as `select` of leaves.
pub(crate) fn inspect_text<B: Leaves>(
    alloc: Global,
    schema: &Schema,
    built: &Built,
    leaves: &mut B,
    entries: &[Option<usize>],
    keys: &FileKeys,
    counts: &PairCounts,
) -> Result<Vec<u8>, Stop>
    requires specs { length built.now.specs ≡ length (B.working leaves.old) }
    requires owners { length built.now.owners ≡ length (B.working leaves.old) }
    requires places { length entries.now ≡ length (B.working leaves.old) }
    requires keys { length keys.now ≡ length schema.now.files }
    requires counts { length counts.now ≡ length schema.now.links }
    ensures text { (s : State) → B.whole leaves.old →
        AreCounts (B.working leaves.old) entries.now → keys.now ≡ map keys_of s.files →
        counts.now ≡ map len s.links → IfOk result (λ text. text.items
        ≡ the_text schema.now built.now.specs built.now.owners (B.working leaves.old) s) }
    ensures reads { ReadsMaps B.View (B.whole leaves.old) leaves.old leaves.new result }
{
    let mut text = Vec::new(alloc);
    push_leaves(alloc, schema, built, leaves, entries, &mut text)?;
    push_files(schema, keys, &mut text)?;
    push_links(schema, counts, &mut text)?;
    text.extend_from_slice(b"sound\n")?;
    Ok(text)
}

// A line for each leaf.
fn push_leaves<B: Leaves>(
    alloc: Global,
    schema: &Schema,
    built: &Built,
    leaves: &mut B,
    entries: &[Option<usize>],
    text: &mut Vec<u8>,
) -> Result<(), Stop>
    requires specs { length built.now.specs ≡ length (B.working leaves.old) }
    requires owners { length built.now.owners ≡ length (B.working leaves.old) }
    requires places { length entries.now ≡ length (B.working leaves.old) }
    ensures lines { B.whole leaves.old → AreCounts (B.working leaves.old) entries.now →
        OnOk result (text.new.items
        ≡ text.old.items ++ lines_below
        (leaf_line schema.now built.now.specs built.now.owners (B.working leaves.old))
        (length (B.working leaves.old))) }
    ensures reads { ReadsMaps B.View (B.whole leaves.old) leaves.old leaves.new result }
{
    for leaf in 0..leaves.leaves() {
        let name = definition_name(schema, built.owners.0[leaf as usize]);
        let kind = built.specs.0[leaf as usize].kind;
        let count = entry_count(alloc, leaves, leaf, entries)?;
        push_leaf(text, leaf, name, kind, count)?;
    }
    Ok(())
}

// How many entries a leaf has. It is read only where none of the nodes did.
fn entry_count<B: Leaves>(
    alloc: Global,
    leaves: &mut B,
    leaf: u32,
    entries: &[Option<usize>],
) -> Result<usize, Stop>
    requires leaf { leaf < length (B.working leaves.old) }
    requires places { length entries.now ≡ length (B.working leaves.old) }
    ensures count { B.whole leaves.old → AreCounts (B.working leaves.old) entries.now →
        IfOk result (λ count. count ≡ len (map_at (B.working leaves.old) leaf)) }
    ensures reads { ReadsMaps B.View (B.whole leaves.old) leaves.old leaves.new result }
{
    match entries[leaf as usize] {
        Some(count) => Ok(count),
        None => read_count(alloc, leaves, leaf),
    }
}

fn read_count<B: Leaves>(alloc: Global, leaves: &mut B, leaf: u32) -> Result<usize, Stop>
    requires { leaf < length (B.working leaves.old) }
    ensures count { B.whole leaves.old →
        IfOk result (λ count. count ≡ len (map_at (B.working leaves.old) leaf)) }
    ensures reads { ReadsMaps B.View (B.whole leaves.old) leaves.old leaves.new result }
{
    let mut entries = Entries::new(alloc);
    leaves.select(alloc, leaf, &whole_span(), &mut entries)?;
    Ok(entries.len())
}

// The name of the definition with this number, or none: the files, and then the links.
fn definition_name(schema: &Schema, number: u16) -> &[u8]
    ensures { result.now ≡ slice_index_or (definition_names schema.now) number [] }
{
    let number = usize::from(number);
    let files = schema.files.as_slice();
    let links = schema.links.as_slice();
    if number < files.len() {
        files[number].name.as_slice()
    } else if number - files.len() < links.len() {
        links[number - files.len()].name.as_slice()
    } else {
        &[]
    }
}

// A line for each file.
fn push_files(schema: &Schema, keys: &FileKeys, text: &mut Vec<u8>) -> Result<(), AllocError>
    requires { length keys.now ≡ length schema.now.files }
    ensures { (s : State) → keys.now ≡ map keys_of s.files → OnOk result (text.new.items
        ≡ text.old.items ++ lines_below (file_line schema.now s) (length schema.now.files)) }
{
    for file in 0..schema.files.0.len() {
        let name = schema.files.0[file].name.as_slice();
        push_file(text, name, keys.0[file].0.len())?;
    }
    Ok(())
}

// A line for each link.
fn push_links(schema: &Schema, counts: &PairCounts, text: &mut Vec<u8>) -> Result<(), AllocError>
    requires { length counts.now ≡ length schema.now.links }
    ensures { (s : State) → counts.now ≡ map len s.links → OnOk result (text.new.items
        ≡ text.old.items ++ lines_below (link_line schema.now s) (length schema.now.links)) }
{
    for link in 0..schema.links.0.len() {
        let name = schema.links.0[link].name.as_slice();
        push_link(text, name, counts.0[link])?;
    }
    Ok(())
}

// ---- lines

fn push_leaf(
    text: &mut Vec<u8>,
    leaf: u32,
    name: &[u8],
    kind: LeafKind,
    entries: usize,
) -> Result<(), AllocError>
    ensures { OnOk result
        (text.new.items ≡ text.old.items ++ leaf_text leaf name.now kind entries) }
{
    push_leaf_name(text, leaf, name)?;
    push_kind(text, kind)?;
    text.extend_from_slice(b" entries ")?;
    push_number(text, entries as u64)?;
    text.extend_from_slice(b"\n")
}

fn push_leaf_name(text: &mut Vec<u8>, leaf: u32, name: &[u8]) -> Result<(), AllocError>
    ensures { OnOk result (text.new.items
        ≡ text.old.items ++ (codes "leaf " ++ decimal leaf ++ codes " " ++ name.now ++ codes " ")) }
{
    text.extend_from_slice(b"leaf ")?;
    push_number(text, u64::from(leaf))?;
    text.extend_from_slice(b" ")?;
    text.extend_from_slice(name)?;
    text.extend_from_slice(b" ")
}

fn push_kind(text: &mut Vec<u8>, kind: LeafKind) -> Result<(), AllocError>
    ensures { OnOk result (text.new.items ≡ text.old.items ++ head_text (heads.Leaf kind)) }
{
    match kind {
        LeafKind::Heap => text.extend_from_slice(b"heap"),
        LeafKind::Hash(buckets) => {
            text.extend_from_slice(b"hash(")?;
            push_number(text, u64::from(buckets))?;
            text.extend_from_slice(b")")
        }
        LeafKind::Isam => text.extend_from_slice(b"isam"),
        LeafKind::Bplus => text.extend_from_slice(b"bplus"),
    }
}

fn push_file(text: &mut Vec<u8>, name: &[u8], records: usize) -> Result<(), AllocError>
    ensures { OnOk result (text.new.items ≡ text.old.items ++ file_count_text name.now records) }
{
    text.extend_from_slice(b"file ")?;
    text.extend_from_slice(name)?;
    text.extend_from_slice(b" records ")?;
    push_number(text, records as u64)?;
    text.extend_from_slice(b"\n")
}

fn push_link(text: &mut Vec<u8>, name: &[u8], members: usize) -> Result<(), AllocError>
    ensures { OnOk result (text.new.items ≡ text.old.items ++ link_count_text name.now members) }
{
    text.extend_from_slice(b"link ")?;
    text.extend_from_slice(name)?;
    text.extend_from_slice(b" members ")?;
    push_number(text, members as u64)?;
    text.extend_from_slice(b"\n")
}

fn push_number(text: &mut Vec<u8>, number: u64) -> Result<(), AllocError>
    ensures { OnOk result (text.new.items ≡ text.old.items ++ decimal number) }
{
    let mut buffer = Buffer::new();
    text.extend_from_slice(buffer.format(number).as_bytes())
}
