// The words of the grammar: those that begin a command, operators, and those between the parts of a
// command.
ghost use Rattle.std.specs.Prelude.{◌≡◌, option_map, IfOk, IfSome};
ghost use Rattle.gx_tokens.specs.Reading.{map_ok};
ghost use Rattle.gx_commands.specs.Cutting.{words_in, IsRestOf};
ghost use Rattle.gx_script.specs.Names.{verb_of, op_of};
ghost use Rattle.gx_script.specs.Reading.{want, behind, a_verb, an_op};

use gx_commands::{LineWhy, LineWord, take_word};
use gx_values::Op;

/// What a command begins with.
#[derive(Clone, Copy, Debug, PartialEq, Eq)]
pub enum Verb {
    Begin,
    Commit,
    Abort,
    Insert,
    Get,
    Update,
    Delete,
    Connect,
    Disconnect,
    Members,
    Owner,
    Find,
    Reorganize,
}

#[tactic(auto, unfolding(crate::specs::Names::verb_of))]
fn verb_of(text: &[u8]) -> Option<Verb>
    ensures { result ≡ verb_of text.now }
{
    if text == b"begin".as_slice() {
        Some(Verb::Begin)
    } else if text == b"commit".as_slice() {
        Some(Verb::Commit)
    } else if text == b"abort".as_slice() {
        Some(Verb::Abort)
    } else if text == b"insert".as_slice() {
        Some(Verb::Insert)
    } else if text == b"get".as_slice() {
        Some(Verb::Get)
    } else if text == b"update".as_slice() {
        Some(Verb::Update)
    } else if text == b"delete".as_slice() {
        Some(Verb::Delete)
    } else if text == b"connect".as_slice() {
        Some(Verb::Connect)
    } else if text == b"disconnect".as_slice() {
        Some(Verb::Disconnect)
    } else if text == b"members".as_slice() {
        Some(Verb::Members)
    } else if text == b"owner".as_slice() {
        Some(Verb::Owner)
    } else if text == b"find".as_slice() {
        Some(Verb::Find)
    } else if text == b"reorganize".as_slice() {
        Some(Verb::Reorganize)
    } else {
        None
    }
}

#[tactic(auto, unfolding(crate::specs::Names::op_of))]
fn op_of(text: &[u8]) -> Option<Op>
    ensures { result ≡ op_of text.now }
{
    if text == b"=".as_slice() {
        Some(Op::Equal)
    } else if text == b"<>".as_slice() {
        Some(Op::Unequal)
    } else if text == b"<".as_slice() {
        Some(Op::Less)
    } else if text == b"<=".as_slice() {
        Some(Op::AtMost)
    } else if text == b">".as_slice() {
        Some(Op::Greater)
    } else if text == b">=".as_slice() {
        Some(Op::AtLeast)
    } else {
        None
    }
}

/// What the first word begins, and what follows it. `Word` where it begins no command.
pub fn read_verb(line: &[u8]) -> Result<(Verb, &[u8]), LineWhy>
    ensures { map_ok (λ x. (x.0, words_in x.1.now)) result ≡ want a_verb (words_in line.now) }
{
    match take_word(line)? {
        (LineWord::Bare(text), rest) => match verb_of(text) {
            Some(verb) => Ok((verb, rest)),
            None => Err(LineWhy::Word),
        },
        (LineWord::Quoted(_), _) => Err(LineWhy::Word),
    }
}

/// The operator that the first word is, and what follows it. `Word` where it is none.
pub fn read_op(line: &[u8]) -> Result<(Op, &[u8]), LineWhy>
    ensures exact { map_ok (λ x. (x.0, words_in x.1.now)) result
        ≡ want an_op (words_in line.now) }
    ensures left { IfOk result (λ x. IsRestOf line.now x.1.now) }
{
    match take_word(line)? {
        (LineWord::Bare(text), rest) => match op_of(text) {
            Some(op) => Ok((op, rest)),
            None => Err(LineWhy::Word),
        },
        (LineWord::Quoted(_), _) => Err(LineWhy::Word),
    }
}

/// What follows the first word, where it is this keyword.
pub fn after_keyword<'a>(line: &'a [u8], keyword: &[u8]) -> Option<&'a [u8]>
    ensures exact { option_map (λ x. words_in x.now) result
        ≡ behind keyword.now (words_in line.now) }
    ensures left { IfSome result (λ rest. IsRestOf line.now rest.now) }
{
    match take_word(line) {
        Ok((LineWord::Bare(text), rest)) if text == keyword => Some(rest),
        _ => None,
    }
}
