// Canonical texts.
ghost use Rattle.std.specs.Prelude.{◌≡◌, ◌++◌, ◌∷◌, [], List, ℕ, IfOk, OnOk};
ghost use Rattle.std.specs.Fmt.{decimal, signed_decimal};
ghost use Rattle.gx_equation.specs.declared.heads.Head.TheVariants as heads;
ghost use Rattle.gx_equation.specs.Printing.{bound_text, spaced, names_text, head_text, term_text, list_text, side_text, definition_text, equation_text, AreWritten};
ghost use Rattle.gx_equation.specs.Grammar.{Means};
ghost use Rattle.gx_equation.specs.Seen.{tree_of, trees_of, side_of, definition_of, definitions_of};
ghost use Rattle.gx_equation.specs.Trees.{head_of, kids_from};

use gx_equation::{Definition, Definitions, Equation, Names, Side, Term};
use gx_ports::LeafKind;
use gx_tokens::push_quoted;
use gx_values::{Code, Name, NoMemory, Octets, Value, Values};
use std::alloc::Global;

// ---- parts of heads

fn push_text(out: &mut Vec<u8>, text: &[u8]) -> Result<(), NoMemory>
    ensures { OnOk result (out.new.items ≡ out.old.items ++ text.now) }
{
    out.extend_from_slice(text)?;
    Ok(())
}

fn push_number(alloc: Global, out: &mut Vec<u8>, number: u16) -> Result<(), NoMemory>
    ensures { OnOk result (out.new.items ≡ out.old.items ++ decimal number) }
{
    let digits = number.to_string(alloc)?;
    push_text(out, digits.as_bytes())
}

fn push_int(alloc: Global, out: &mut Vec<u8>, number: i64) -> Result<(), NoMemory>
    ensures { OnOk result (out.new.items ≡ out.old.items ++ signed_decimal number) }
{
    let digits = number.to_string(alloc)?;
    push_text(out, digits.as_bytes())
}

fn push_bound(alloc: Global, out: &mut Vec<u8>, bound: &Value) -> Result<(), NoMemory>
    ensures { OnOk result (out.new.items ≡ out.old.items ++ bound_text bound.now) }
{
    match bound {
        Value::Int(number) => push_int(alloc, out, *number),
        Value::Text(text) => {
            push_quoted(out, text.as_slice())?;
            Ok(())
        }
        Value::Bytes(_) => Ok(()),
    }
}

fn push_bounds(alloc: Global, out: &mut Vec<u8>, bounds: &[Value]) -> Result<(), NoMemory>
    ensures { OnOk result (out.new.items ≡ out.old.items ++ spaced bound_text bounds.now) }
{
    for bound in bounds {
        push_text(out, b" ")?;
        push_bound(alloc, out, bound)?;
    }
    push_text(out, b", ")
}

// The names behind the first.
fn push_more_names(out: &mut Vec<u8>, names: &[Name]) -> Result<(), NoMemory>
    ensures { OnOk result (out.new.items ≡ out.old.items ++ spaced (λ name. name) names.now) }
{
    for name in names {
        out.push(b' ')?;
        push_text(out, name.as_slice())?;
    }
    push_text(out, b", ")
}

fn push_names(out: &mut Vec<u8>, names: &[Name]) -> Result<(), NoMemory>
    ensures { OnOk result (out.new.items ≡ out.old.items ++ names_text names.now) }
{
    match names {
        [] => push_text(out, b", "),
        [first, others @ ..] => {
            push_text(out, first.as_slice())?;
            push_more_names(out, others)
        }
    }
}

// ---- heads, and what stands before their first term

fn push_leaf(alloc: Global, out: &mut Vec<u8>, kind: LeafKind) -> Result<(), NoMemory>
    ensures { OnOk result (out.new.items ≡ out.old.items ++ head_text (heads.Leaf kind)) }
{
    match kind {
        LeafKind::Heap => push_text(out, b"heap"),
        LeafKind::Hash(buckets) => {
            push_text(out, b"hash(")?;
            push_number(alloc, out, u16::from(buckets))?;
            push_text(out, b")")
        }
        LeafKind::Isam => push_text(out, b"isam"),
        LeafKind::Bplus => push_text(out, b"bplus"),
    }
}

fn push_encode(out: &mut Vec<u8>, name: &Name, code: Code) -> Result<(), NoMemory>
    ensures { OnOk result (out.new.items ≡ out.old.items
        ++ head_text (heads.Encode name.now code)) }
{
    push_text(out, b"encode(")?;
    push_text(out, name.as_slice())?;
    match code {
        Code::Pack => push_text(out, b" pack, "),
        Code::Rle => push_text(out, b" rle, "),
    }
}

fn push_segment(out: &mut Vec<u8>, names: &Names) -> Result<(), NoMemory>
    ensures { OnOk result (out.new.items ≡ out.old.items ++ head_text (heads.Segment names.now)) }
{
    push_text(out, b"segment(")?;
    push_names(out, &names.0)
}

fn push_partition(
    alloc: Global,
    out: &mut Vec<u8>,
    name: &Name,
    bounds: &Values,
) -> Result<(), NoMemory>
    ensures { OnOk result (out.new.items ≡ out.old.items
        ++ head_text (heads.Partition name.now bounds.now)) }
{
    push_text(out, b"partition(")?;
    push_text(out, name.as_slice())?;
    push_bounds(alloc, out, &bounds.0)
}

fn push_divide(alloc: Global, out: &mut Vec<u8>, size: u16) -> Result<(), NoMemory>
    ensures { OnOk result (out.new.items ≡ out.old.items ++ head_text (heads.Divide size)) }
{
    push_text(out, b"divide(")?;
    push_number(alloc, out, size)?;
    push_text(out, b", ")
}

fn push_index(out: &mut Vec<u8>, name: &Name) -> Result<(), NoMemory>
    ensures { OnOk result (out.new.items ≡ out.old.items ++ head_text (heads.Index name.now)) }
{
    push_text(out, b"index(")?;
    push_text(out, name.as_slice())?;
    push_text(out, b", ")
}

// The head of a term, and what stands before the term's first child.
fn push_head(alloc: Global, out: &mut Vec<u8>, term: &Term) -> Result<(), NoMemory>
    ensures { OnOk result (out.new.items ≡ out.old.items
        ++ head_text (head_of (tree_of term.now))) }
{
    match term {
        Term::Leaf(kind) => push_leaf(alloc, out, *kind),
        Term::Actual(_) => push_text(out, b"actual("),
        Term::Encode(name, code, _) => push_encode(out, name, *code),
        Term::Segment(names, _, _) => push_segment(out, names),
        Term::Transpose(_) => push_text(out, b"transpose("),
        Term::Partition(name, bounds, _) => push_partition(alloc, out, name, bounds),
        Term::Divide(size, _) => push_divide(alloc, out, *size),
        Term::Index(name, _, _) => push_index(out, name),
    }
}

// ---- terms

#[cycle(printing)]
fn push_kids(alloc: Global, out: &mut Vec<u8>, kids: &[Term]) -> Result<(), NoMemory>
    ensures { OnOk result (out.new.items ≡ out.old.items
        ++ list_text (kids_from (trees_of kids.now))) }
{
    match kids {
        [first, others @ ..] => {
            push_term(alloc, out, first)?;
            for kid in others {
                push_text(out, b", ")?;
                push_term(alloc, out, kid)?;
            }
            push_text(out, b")")
        }
        [] => push_text(out, b")"),
    }
}

#[cycle(printing)]
fn push_term(alloc: Global, out: &mut Vec<u8>, term: &Term) -> Result<(), NoMemory>
    ensures { OnOk result (out.new.items ≡ out.old.items ++ term_text (tree_of term.now)) }
{
    push_head(alloc, out, term)?;
    match term {
        Term::Leaf(_) => Ok(()),
        Term::Actual(kid) | Term::Encode(_, _, kid) | Term::Divide(_, kid) => {
            push_term(alloc, out, kid)?;
            push_text(out, b")")
        }
        Term::Segment(_, first, second) | Term::Index(_, first, second) => {
            push_term(alloc, out, first)?;
            push_text(out, b", ")?;
            push_term(alloc, out, second)?;
            push_text(out, b")")
        }
        Term::Transpose(kids) | Term::Partition(_, _, kids) => push_kids(alloc, out, kids),
    }
}

// ---- definitions

// Two terms with a comma between them, and the `)` behind them.
fn push_two_kids(
    alloc: Global,
    out: &mut Vec<u8>,
    first: &Term,
    second: &Term,
) -> Result<(), NoMemory>
    ensures { OnOk result (out.new.items ≡ out.old.items
        ++ list_text (kids_from (tree_of first.now ∷ tree_of second.now ∷ []))) }
{
    push_term(alloc, out, first)?;
    push_text(out, b", ")?;
    push_term(alloc, out, second)?;
    push_text(out, b")")
}

fn push_side(alloc: Global, out: &mut Vec<u8>, side: &Side) -> Result<(), NoMemory>
    ensures { OnOk result (out.new.items ≡ out.old.items ++ side_text (side_of side.now)) }
{
    match side {
        Side::File(term) => push_term(alloc, out, term),
        Side::Array(members) => {
            push_text(out, b"array(")?;
            push_term(alloc, out, members)?;
            push_text(out, b")")
        }
        Side::Ring(firsts, nexts) => {
            push_text(out, b"ring(")?;
            push_two_kids(alloc, out, firsts, nexts)
        }
        Side::Inverted(pairs, owners) => {
            push_text(out, b"inverted(")?;
            push_two_kids(alloc, out, pairs, owners)
        }
    }
}

fn push_definition(
    alloc: Global,
    out: &mut Vec<u8>,
    definition: &Definition,
) -> Result<(), NoMemory>
    ensures { OnOk result (out.new.items ≡ out.old.items
        ++ definition_text (definition_of definition.now)) }
{
    push_text(out, definition.name.as_slice())?;
    push_text(out, b" = ")?;
    push_side(alloc, out, &definition.side)?;
    push_text(out, b"\n")
}

fn text_of(alloc: Global, definitions: &Definitions) -> Result<Octets, NoMemory>
    ensures { IfOk result (λ text. text ≡ equation_text (definitions_of definitions.now)) }
{
    let mut out = Vec::new(alloc);
    for definition in definitions.0.iter() {
        push_definition(alloc, &mut out, definition)?;
    }
    Ok(Octets(out))
}

/// The canonical text of an equation: one definition a line, with the blanks that are needed and
/// one behind each comma and on both sides of each `=`. The equation's lines aren't looked at. The
/// error comes where there was no memory for the text.
pub fn print_equation(alloc: Global, equation: &Equation) -> Result<Octets, NoMemory>
    ensures text { IfOk result
        (λ text. text ≡ equation_text (definitions_of equation.now.definitions)) }
    // Where some text means the definitions, this one means them too.
    ensures again { IfOk result (λ text. AreWritten (definitions_of equation.now.definitions) →
        (lines : List ℕ) × Means text (definitions_of equation.now.definitions, lines)) }
{
    text_of(alloc, &equation.definitions)
}
