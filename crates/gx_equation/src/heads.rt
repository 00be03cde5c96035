// Heads of terms and of links' sides.
ghost use Rattle.std.specs.Prelude.{◌≡◌, ◌<◌, OnOk};
ghost use Rattle.gx_tokens.specs.Reading.{Gives, map_ok, want};
ghost use Rattle.gx_equation.specs.Heads.{in_depth, head_of_word, a_head, arguments_at, head_at};

use crate::arguments::{
    read_divide, read_encode, read_hash, read_index, read_partition, read_segment,
};
use crate::equation::Names;
use gx_ports::LeafKind;
use gx_tokens::{Fault, ReadError, Why, fault_at, read_open, read_word};
use gx_values::{Code, Name, Values};
use std::alloc::Global;

/// A head of a term with its names, numbers and bounds, and without the terms that are its
/// children: what a term of the same name has besides them.
#[derive(Debug, Drop)]
pub enum Head {
    /// The kind of the leaf; no child.
    Leaf(LeafKind),
    /// One child.
    Actual,
    /// The field and its code; one child.
    Encode(Name, Code),
    /// The fields of the first child; two children.
    Segment(Names),
    /// One child or more.
    Transpose,
    /// The field and the bounds; one child or more.
    Partition(Name, Values),
    /// The bytes of a piece; one child.
    Divide(u16),
    /// The field; two children.
    Index(Name),
}

/// A head of a link's side.
#[derive(Clone, Copy, Debug, PartialEq, Eq)]
pub enum Linkset {
    /// One child.
    Array,
    /// Two children.
    Ring,
    /// Two children.
    Inverted,
}

/// The word that a head begins with.
#[derive(Clone, Copy, Debug, PartialEq, Eq)]
pub enum HeadWord {
    Heap,
    Hash,
    Isam,
    Bplus,
    Actual,
    Encode,
    Segment,
    Transpose,
    Partition,
    Divide,
    Index,
}

fn in_depth(levels: u8, word: HeadWord) -> Result<HeadWord, Why>
    ensures { result ≡ in_depth levels word }
{
    if levels == 0 {
        Err(Why::Depth)
    } else {
        Ok(word)
    }
}

#[tactic(auto, unfolding(crate::specs::Heads::head_of_word))]
fn head_of_word(levels: u8, word: &[u8]) -> Result<HeadWord, Why>
    ensures levels { OnOk result (0 < levels) }
    ensures exact { result ≡ head_of_word levels word.now }
{
    if word == b"heap".as_slice() {
        in_depth(levels, HeadWord::Heap)
    } else if word == b"hash".as_slice() {
        in_depth(levels, HeadWord::Hash)
    } else if word == b"isam".as_slice() {
        in_depth(levels, HeadWord::Isam)
    } else if word == b"bplus".as_slice() {
        in_depth(levels, HeadWord::Bplus)
    } else if word == b"actual".as_slice() {
        in_depth(levels, HeadWord::Actual)
    } else if word == b"encode".as_slice() {
        in_depth(levels, HeadWord::Encode)
    } else if word == b"segment".as_slice() {
        in_depth(levels, HeadWord::Segment)
    } else if word == b"transpose".as_slice() {
        in_depth(levels, HeadWord::Transpose)
    } else if word == b"partition".as_slice() {
        in_depth(levels, HeadWord::Partition)
    } else if word == b"divide".as_slice() {
        in_depth(levels, HeadWord::Divide)
    } else if word == b"index".as_slice() {
        in_depth(levels, HeadWord::Index)
    } else {
        Err(Why::Unexpected)
    }
}

fn read_head_word(levels: u8, bytes: &[u8]) -> Result<(HeadWord, &[u8]), Fault>
    ensures levels { OnOk result (0 < levels) }
    ensures exact { map_ok (λ x. (x.0, x.1.now)) result ≡ want (a_head levels) bytes.now }
{
    let (word, rest) = read_word(bytes)?;
    match head_of_word(levels, word) {
        Ok(head) => Ok((head, rest)),
        Err(why) => Err(fault_at(bytes, why)),
    }
}

#[tactic(auto, unfolding(crate::specs::Heads::arguments_at))]
fn read_arguments(alloc: Global, word: HeadWord, bytes: &[u8]) -> Result<(Head, &[u8]), ReadError>
    ensures { Gives (λ x. (x.0, x.1.now)) result (arguments_at word bytes.now) }
{
    match word {
        HeadWord::Heap => Ok((Head::Leaf(LeafKind::Heap), bytes)),
        HeadWord::Hash => Ok(read_hash(bytes)?),
        HeadWord::Isam => Ok((Head::Leaf(LeafKind::Isam), bytes)),
        HeadWord::Bplus => Ok((Head::Leaf(LeafKind::Bplus), bytes)),
        HeadWord::Actual => Ok((Head::Actual, read_open(bytes)?)),
        HeadWord::Encode => Ok(read_encode(bytes)?),
        HeadWord::Segment => read_segment(alloc, bytes),
        HeadWord::Transpose => Ok((Head::Transpose, read_open(bytes)?)),
        HeadWord::Partition => read_partition(alloc, bytes),
        HeadWord::Divide => Ok(read_divide(bytes)?),
        HeadWord::Index => Ok(read_index(bytes)?),
    }
}

/// A head and what stands between it and its first child, where so many levels of heads may still
/// stand, and what follows.
#[tactic(auto, unfolding(crate::specs::Heads::head_at))]
pub fn read_head(alloc: Global, levels: u8, bytes: &[u8]) -> Result<(Head, &[u8]), ReadError>
    ensures levels { OnOk result (0 < levels) }
    ensures exact { Gives (λ x. (x.0, x.1.now)) result (head_at levels bytes.now) }
{
    let (word, rest) = read_head_word(levels, bytes)?;
    read_arguments(alloc, word, rest)
}
