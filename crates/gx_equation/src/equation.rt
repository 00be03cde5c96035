// Equations, their definitions, and terms.
use gx_ports::LeafKind;
use gx_values::{Code, Name, Values};
use std::marker::Model;

/// Names, seen as a list.
#[derive(Debug, Drop)]
pub struct Names(pub Vec<Name>);

impl Model for Names {
    ghost use Rattle.std.specs.Prelude.{List};
    ghost use Rattle.gx_values.specs.declared.bytes.Name.{Name};

    ghost Value = { List Name };

    ghost view = { λ n. n.0.items };
}

/// How records are stored: in a leaf, or changed by a head and then by the terms that are its
/// children.
#[derive(Drop)]
pub enum Term {
    /// One file of this kind.
    Leaf(LeafKind),
    /// All data fields as the bytes of one.
    Actual(Box<Term>),
    /// The named field by its code.
    Encode(Name, Code, Box<Term>),
    /// The named fields in the first child, the others in the second.
    Segment(Names, Box<Term>, Box<Term>),
    /// Each data field in a child of its own.
    Transpose(Vec<Term>),
    /// Each record in the child that its value of the named field gives, by the ascending bounds
    /// between the children.
    Partition(Name, Values, Vec<Term>),
    /// The one data field in pieces of so many bytes, 1 to 16,000.
    Divide(u16, Box<Term>),
    /// The records in the first child, and in the second one the named field's values with the
    /// keys.
    Index(Name, Box<Term>, Box<Term>),
}

/// What a definition says of its name: how a file's records are stored, or a link's pairs of owner
/// and member.
#[derive(Drop)]
pub enum Side {
    /// A file by its term.
    File(Term),
    /// A link by the members of each owner.
    Array(Term),
    /// A link by the first member of each owner, and by the next one of each member.
    Ring(Term, Term),
    /// A link by its pairs, and by the owner of each member.
    Inverted(Term, Term),
}

/// A definition: the name of a file or of a link, and how it is stored.
#[derive(Drop)]
pub struct Definition {
    pub name: Name,
    pub side: Side,
}

/// Definitions, seen as a list.
#[derive(Drop)]
pub struct Definitions(pub Vec<Definition>);

impl Model for Definitions {
    ghost use Rattle.std.specs.Prelude.{List};
    ghost use Rattle.gx_equation.specs.declared.equation.Definition.{Definition};
    ghost use Rattle.gx_equation.specs.contracts.equation.Term as e;
    ghost use Rattle.std.specs.Coded.{codes};

    ghost Value = { List Definition };

    ghost view = { λ d. d.0.items };

    ghost coded = { Prim.hlevel (codes, e.the_row.coded) };
}

/// Lines of a text, counted from 1, seen as a list.
#[derive(Debug, Drop)]
pub struct Lines(pub Vec<u32>);

impl Model for Lines {
    ghost use Rattle.std.specs.Prelude.{List, ℕ};

    ghost Value = { List ℕ };

    ghost view = { λ l. l.0.items };
}

/// An equation: its definitions in the order of the text, and the lines of their places. Those are
/// for each definition the line of its name and then the lines of the heads of its side in the
/// order of the text, and last the text's last line.
#[derive(Drop)]
pub struct Equation {
    pub definitions: Definitions,
    pub lines: Lines,
}
