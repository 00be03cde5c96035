// Worked equations: their leaves, and the nodes that are built of them.
ghost use Rattle.std.specs.Prelude.{◌≡◌, ◌∷◌, [], IfOk};
ghost use Rattle.gx_values.specs.declared.values.Kind.TheVariants as kind;
ghost use Rattle.gx_values.specs.declared.values.Value.TheVariants as value;
ghost use Rattle.gx_mapping.specs.Rule.{IsOf};
ghost use Rattle.gx_types.specs.Any.{any_rule};

use crate::row::check_row;
use crate::texts::{build_texts, type_texts};
use gx_actual::actual;
use gx_mapping::Mapping;
use gx_stack::Node;
use gx_types::{AnyMapping, Built, LinkTree};
use gx_typing::{TypeWhy, Typing, Untyped, root_pages};
use gx_values::{Field, Fields, Form, Kind, Name, NoMemory, Rec, Value, Values};
use std::alloc::Global;
use std::process::Abort;
use std::test::Fail;

// Whether these are the leaves of an equation under a schema, each a line: the number of its
// definition, its kind, the kind of its first key field and the width of its key.
fn has_leaves(alloc: Global, typing: &Typing, leaves: &str) -> Result<bool, Fail> {
    let mut text = String::new(alloc);
    for (owner, spec) in typing.owners.0.iter().zip(typing.specs.0.iter()) {
        let (kind, first, width) = (spec.kind, spec.first, spec.key_width);
        text.push_str(format!(in alloc; "{owner} {kind:?} {first:?} {width}\n")?.as_str())?;
    }
    Ok(text.as_str() == leaves)
}

const DEPARTMENTS: &str = "file dept (dno int, dname text 12)
file emp (eno int, name text 24, pay int, room text 8)
link works (dept, emp)
";

// A schema, an equation, and its leaves.
#[derive(Clone, Copy)]
struct Case {
    schema: &'static str,
    equation: &'static str,
    leaves: &'static str,
}

const CASES: [Case; 18] = [
    Case {
        schema: DEPARTMENTS,
        equation: "dept = actual(bplus)
emp = index(pay, segment(name pay, actual(bplus), actual(heap)), bplus)
works = ring(actual(hash(8)), actual(bplus))
",
        leaves: "0 Bplus Int 8
1 Bplus Int 8
1 Heap Int 8
1 Bplus Int 16
2 Hash(8) Int 8
2 Bplus Int 8
",
    },
    Case {
        schema: DEPARTMENTS,
        equation: "dept = actual(hash(4)) emp = actual(heap) works = inverted(heap, actual(heap))",
        leaves: "0 Hash(4) Int 8
1 Heap Int 8
2 Heap Int 16
2 Heap Int 8
",
    },
    Case {
        schema: DEPARTMENTS,
        equation: "dept = actual(hash(4)) emp = actual(isam) works = array(divide(64, bplus))",
        leaves: "0 Hash(4) Int 8
1 Isam Int 8
2 Bplus Int 16
",
    },
    Case {
        schema: DEPARTMENTS,
        equation: "dept = actual(hash(4))
emp = transpose(actual(bplus), actual(heap), actual(hash(8)))
works = inverted(bplus, actual(hash(16)))",
        leaves: "0 Hash(4) Int 8
1 Bplus Int 8
1 Heap Int 8
1 Hash(8) Int 8
2 Bplus Int 16
2 Hash(16) Int 8
",
    },
    Case {
        schema: DEPARTMENTS,
        equation: "dept = actual(hash(4)) emp = encode(pay pack, actual(divide(16, bplus)))
works = ring(actual(heap), actual(isam))",
        leaves: "0 Hash(4) Int 8
1 Bplus Int 16
2 Heap Int 8
2 Isam Int 8
",
    },
    Case {
        schema: DEPARTMENTS,
        equation: "dept = actual(hash(4))
emp = partition(pay 1030 1060, index(pay, actual(heap), bplus), index(pay,
    actual(isam), heap), index(pay, actual(bplus), bplus))
works = array(divide(200, isam))",
        leaves: "0 Hash(4) Int 8
1 Heap Int 8
1 Bplus Int 16
1 Isam Int 8
1 Heap Int 16
1 Bplus Int 8
1 Bplus Int 16
2 Isam Int 16
",
    },
    Case {
        schema: "file f (k int, t text 5)",
        equation: "f = actual(divide(64, heap))",
        leaves: "0 Heap Int 16\n",
    },
    // No data, and no `actual`.
    Case {
        schema: "file f (k text 7)",
        equation: "f = heap",
        leaves: "0 Heap Text(7) 8\n",
    },
    Case {
        schema: "file f (k int, a int)",
        equation: "f = encode(a pack, isam)",
        leaves: "0 Isam Int 8\n",
    },
    // Entries of 1,000 bytes.
    Case {
        schema: "file f (k int, a text 200, b text 200, c text 200, d text 200, e text 187)",
        equation: "f = actual(heap)",
        leaves: "0 Heap Int 8\n",
    },
    Case {
        schema: "file f (k text 100, a text 200)",
        equation: "f = encode(a rle, divide(891, heap))",
        leaves: "0 Heap Text(100) 109\n",
    },
    // A key of 398 bytes.
    Case {
        schema: "file f (k text 100, a text 200)",
        equation: "f = index(a, actual(heap), actual(divide(1, divide(1, divide(1, divide(1,
    divide(1, divide(1, divide(1, divide(1, divide(1, divide(1, divide(1,
    divide(1, heap))))))))))))))",
        leaves: "0 Heap Text(100) 101
0 Heap Text(200) 398
",
    },
    // A field of the key that a head made.
    Case {
        schema: "file f (k int)",
        equation: "f = actual(divide(9, partition(_seq 1, heap, hash(64))))",
        leaves: "0 Heap Int 16
0 Hash(64) Int 16
",
    },
    Case {
        schema: "file f (k int, a int)",
        equation: "f = partition(k -9223372036854775808 9223372036854775807, encode(a pack, heap),
    actual(heap), actual(bplus))",
        leaves: "0 Heap Int 8
0 Heap Int 8
0 Bplus Int 8
",
    },
    Case {
        schema: "file f (k int, a text 3, b int)",
        equation: r#"f = partition(a "" "a" "ab" "b", actual(heap), actual(heap), actual(heap),
    actual(heap), segment(b, actual(heap), encode(a rle, heap)))"#,
        leaves: "0 Heap Int 8
0 Heap Int 8
0 Heap Int 8
0 Heap Int 8
0 Heap Int 8
0 Heap Int 8
",
    },
    // The fields of links.
    Case {
        schema: "file f (k text 9) file g (k int) link l (f, g)",
        equation: "f = heap
g = heap
l = ring(encode(first pack, heap), index(last, segment(owner, encode(owner rle,
    heap), actual(heap)), partition(member 0, heap, isam)))",
        leaves: "0 Heap Text(9) 10
1 Heap Int 8
2 Heap Text(9) 10
2 Heap Int 8
2 Heap Int 8
2 Heap Int 16
2 Isam Int 16
",
    },
    Case {
        schema: "file f (k text 9) link l (f, f)",
        equation: r#"f = heap
l = inverted(partition(member "a", heap, isam), index(owner, encode(owner rle,
    heap), heap))"#,
        leaves: "0 Heap Text(9) 10
1 Heap Text(9) 20
1 Isam Text(9) 20
1 Heap Text(9) 10
1 Heap Text(9) 20
",
    },
    Case {
        schema: "file f (k text 100) link l (f, f)",
        equation: r#"f = heap
l = array(actual(actual(divide(16000, partition(owner "a", divide(800, heap),
    divide(790, heap))))))"#,
        leaves: "0 Heap Text(100) 101
1 Heap Text(100) 117
1 Heap Text(100) 117
",
    },
];

// Whether an equation under a schema has the leaves that are stated.
fn is_as_stated(alloc: Global, case: Case) -> Result<bool, Fail> {
    let typing = type_texts(alloc, case.schema.as_bytes(), case.equation.as_bytes())?;
    has_leaves(alloc, &typing, case.leaves)
}

#[test]
fn gives_leaves(rt: HostRuntime) -> Result<(), Fail> {
    for case in CASES {
        check_row(&rt, case.equation, is_as_stated(rt.alloc(), case)?);
    }
    Ok(())
}

#[test]
fn counts_pages(rt: HostRuntime) -> Result<(), Fail> {
    let alloc = rt.alloc();
    let typing = type_texts(
        alloc,
        b"file f (k int)",
        b"f = partition(k 1, heap, hash(64))",
    )?;
    assert!(rt; root_pages(&typing.specs) == 65);
    Ok(())
}

type AnyNode = Node<AnyMapping>;

// Appends the numbers of the leaves in the order in which they stand in the node.
fn push_leaves(node: &AnyNode, numbers: &mut Vec<u32>) -> Result<(), Fail> {
    match node {
        Node::Leaf(leaf) => numbers.push(leaf.leaf)?,
        Node::Layer(layer) => {
            for kid in &layer.kids {
                push_leaves(kid, numbers)?;
            }
        }
    }
    Ok(())
}

// Whether these are the numbers of the leaves in the order in which they stand in the node.
fn has_numbers(alloc: Global, node: &AnyNode, numbers: &[u32]) -> Result<bool, Fail> {
    let mut found = Vec::new(alloc);
    push_leaves(node, &mut found)?;
    Ok(found.as_slice() == numbers)
}

// Expects the nodes of two files, of which the first has an index.
fn expect_files(rt: &impl Abort, alloc: Global, built: &Built) -> Result<(), Fail> {
    let files = built.files.0.as_slice();
    assert!(rt; files.len() == 2);
    assert!(rt; has_numbers(alloc, &files[0], &[0, 1])?);
    assert!(rt; has_numbers(alloc, &files[1], &[2])?);
    assert!(rt; built.owners.0.as_slice() == [0, 0, 1].as_slice());
    assert!(rt; built.specs.0.len() == 3);
    Ok(())
}

#[test]
fn builds_a_node_for_each_file(rt: HostRuntime) -> Result<(), Fail> {
    let alloc = rt.alloc();
    let schema = b"file f (k int, v int) file g (k text 7)".as_slice();
    let built = build_texts(alloc, schema, b"f = index(v, actual(heap), heap) g = bplus")?;
    expect_files(&rt, alloc, &built)
}

// Whether these are the leaves of the two nodes of a ring.
fn is_ring(alloc: Global, tree: &LinkTree, first: &[u32], next: &[u32]) -> Result<bool, Fail> {
    match tree {
        LinkTree::Ring(firsts, nexts) => {
            Ok(has_numbers(alloc, firsts, first)? && has_numbers(alloc, nexts, next)?)
        }
        _ => Ok(false),
    }
}

// Whether these are the leaves of the node of an array.
fn is_array(alloc: Global, tree: &LinkTree, lists: &[u32]) -> Result<bool, Fail> {
    match tree {
        LinkTree::Array(node) => has_numbers(alloc, node, lists),
        _ => Ok(false),
    }
}

// Expects the nodes of a ring and of an array.
fn expect_links(rt: &impl Abort, alloc: Global, built: &Built) -> Result<(), Fail> {
    let links = built.links.0.as_slice();
    assert!(rt; links.len() == 2);
    assert!(rt; is_ring(alloc, &links[0], &[1], &[2, 3, 4])?);
    assert!(rt; is_array(alloc, &links[1], &[5])?);
    assert!(rt; built.owners.0.as_slice() == [0, 1, 1, 1, 1, 2].as_slice());
    Ok(())
}

#[test]
fn builds_the_nodes_of_links(rt: HostRuntime) -> Result<(), Fail> {
    let alloc = rt.alloc();
    let built = build_texts(
        alloc,
        b"file f (k int) link l (f, f) link m (f, f)",
        b"f = heap l = ring(actual(heap), transpose(actual(heap), heap, actual(heap)))
m = array(divide(800, heap))",
    )?;
    expect_links(&rt, alloc, &built)
}

#[test]
fn refuses_a_leaf_of_several_fields(rt: HostRuntime) -> Result<(), Fail> {
    let alloc = rt.alloc();
    let schema = b"file f (k int, v int)".as_slice();
    let error = build_texts(alloc, schema, b"f = partition(v 10, actual(heap), heap)").err();
    assert!(rt; error == Some(Untyped::Mistyped(1, TypeWhy::LeafForm)));
    assert!(rt; TypeWhy::LeafForm.words() == "leaf");
    Ok(())
}

// The child that the one part of a record goes to.
fn child_of<M: Mapping>(alloc: Global, mapping: &M, rec: &Rec) -> Result<Option<u16>, NoMemory>
    requires { IsOf (M.rule mapping.now).form rec.now }
{
    match mapping.parts(alloc, rec)?.0.as_slice() {
        [part] => Ok(Some(part.child)),
        _ => Ok(None),
    }
}

fn key_form(alloc: Global) -> Result<Form, NoMemory>
    ensures keys { IfOk result
        (λ form. form.keys ≡ record { name = 107 ∷ []; kind = kind.Int } ∷ []) }
    ensures fields { IfOk result (λ form. form.fields ≡ []) }
{
    let key = Field {
        name: Name::from_slice(b"k"),
        kind: Kind::Int,
    };
    Ok(Form {
        keys: Fields(vec![in alloc; key]?),
        fields: Fields(Vec::new(alloc)),
    })
}

fn key_rec(alloc: Global, key: i64) -> Result<Rec, NoMemory>
    ensures key { IfOk result (λ r. r.key ≡ value.Int key ∷ []) }
    ensures fields { IfOk result (λ r. r.fields ≡ []) }
{
    Ok(Rec {
        key: Values(vec![in alloc; Value::Int(key)]?),
        fields: Values(Vec::new(alloc)),
    })
}

// The layer `actual` of records of a key alone.
fn key_layer(alloc: Global) -> Result<AnyMapping, NoMemory>
    ensures keys { IfOk result (λ layer. (any_rule layer).form.keys
        ≡ record { name = 107 ∷ []; kind = kind.Int } ∷ []) }
    ensures fields { IfOk result (λ layer. (any_rule layer).form.fields ≡ []) }
{
    let form = key_form(alloc)?;
    Ok(AnyMapping::Actual(actual(alloc, &form)?))
}

// The child that a record of a key alone goes to.
fn child_of_key<M: Mapping + Drop>(alloc: Global, mapping: M) -> Result<Option<u16>, NoMemory>
    requires keys { (M.rule mapping).form.keys
        ≡ record { name = 107 ∷ []; kind = kind.Int } ∷ [] }
    requires fields { (M.rule mapping).form.fields ≡ [] }
{
    let rec = key_rec(alloc, 7)?;
    child_of(alloc, &mapping, &rec)
}

#[test]
fn records_go_through_layers(rt: HostRuntime) -> Result<(), Fail> {
    let alloc = rt.alloc();
    assert!(rt; child_of_key(alloc, key_layer(alloc)?)? == Some(0));
    Ok(())
}
