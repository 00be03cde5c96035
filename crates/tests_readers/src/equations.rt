// Worked texts: what they mean, their canonical texts, and the lines of their places.
use gx_equation::{Definition, Side, Term, read_equation};
use gx_printing::print_equation;
use gx_values::{Code, Value};
use std::alloc::Global;
use std::test::Fail;

// A text, and the canonical text of the same equation.
#[derive(Clone, Copy)]
struct Case {
    text: &'static [u8],
    canonical: &'static [u8],
}

const CASES: &[Case] = &[
    Case {
        text: b"f=heap",
        canonical: b"f = heap\n",
    },
    Case {
        text: b"f = hash ( 0064 ) g=hash(1)",
        canonical: b"f = hash(64)
g = hash(1)
",
    },
    Case {
        text: b"heap = isam isam = bplus",
        canonical: b"heap = isam
isam = bplus
",
    },
    Case {
        text: b"f=actual(heap)",
        canonical: b"f = actual(heap)\n",
    },
    Case {
        text: b"f=encode(a pack,heap)g=encode(a rle,heap)",
        canonical: b"f = encode(a pack, heap)
g = encode(a rle, heap)
",
    },
    Case {
        text: b"f=segment(a _b pack,heap,isam)",
        canonical: b"f = segment(a _b pack, heap, isam)\n",
    },
    Case {
        text: b"f=transpose(heap)g=transpose(heap,isam,bplus)",
        canonical: b"f = transpose(heap)
g = transpose(heap, isam, bplus)
",
    },
    Case {
        text: b"f=partition(_seq -0 007\"\"\"a\"\"b\" \"x\"\
9223372036854775807 -9223372036854775808,heap,heap)",
        canonical: b"f = partition(_seq 0 7 \"\"\"a\"\"b\" \"x\" \
9223372036854775807 -9223372036854775808, heap, heap)
",
    },
    Case {
        text: b"f=partition(a\"#\",heap)# \xFF (",
        canonical: b"f = partition(a \"#\", heap)\n",
    },
    Case {
        text: b"f=divide(16000,heap)g=divide(1,heap)",
        canonical: b"f = divide(16000, heap)
g = divide(1, heap)
",
    },
    Case {
        text: b"f=index(index,actual(heap),heap)",
        canonical: b"f = index(index, actual(heap), heap)\n",
    },
    Case {
        text: b"l=array(divide(4,heap))",
        canonical: b"l = array(divide(4, heap))\n",
    },
    Case {
        text: b"l=ring(heap,actual(isam))array=inverted(heap,heap)",
        canonical: b"l = ring(heap, actual(isam))
array = inverted(heap, heap)
",
    },
    Case {
        text: b"f=actual(actual(actual(actual(actual(actual(actual(actual(actual(actual(\
actual(actual(actual(actual(actual(heap)))))))))))))))",
        canonical: b"f = actual(actual(actual(actual(actual(actual(actual(actual(actual(actual(\
actual(actual(actual(actual(actual(heap)))))))))))))))
",
    },
];

// Whether a text means an equation with this canonical text.
fn is_canonical(alloc: Global, text: &[u8], canonical: &[u8]) -> Result<bool, Fail> {
    if text.len() >= 4_294_967_295 {
        return Ok(false);
    }
    let equation = read_equation(alloc, text)?;
    Ok(print_equation(alloc, &equation)?.as_slice() == canonical)
}

#[test]
fn reads_and_prints(rt: HostRuntime) -> Result<(), Fail> {
    for Case { text, canonical } in CASES {
        assert!(rt; is_canonical(rt.alloc(), text, canonical)?);
        assert!(rt; is_canonical(rt.alloc(), canonical, canonical)?);
    }
    Ok(())
}

#[test]
fn tells_lines(rt: HostRuntime) -> Result<(), Fail> {
    let alloc = rt.alloc();
    let text = "# a
f = partition(k
10, # b
heap\r
,
 hash(2))

l
= ring(isam,
actual(
bplus))

";
    assert!(rt; text.len() < 100);
    let equation = read_equation(alloc, text.as_bytes())?;
    // f, partition, heap, hash, l, ring, isam, actual, bplus, and the last line
    assert!(rt; equation.lines.0.as_slice() == [2, 2, 4, 6, 8, 9, 9, 10, 11, 12].as_slice());
    Ok(())
}

// Whether these are the bounds 5 and `a"`.
fn are_bounds(bounds: &[Value]) -> bool {
    match bounds {
        [Value::Int(5), Value::Text(text)] => text.as_slice() == b"a\"".as_slice(),
        _ => false,
    }
}

// Whether the term is a partition by `k`, whose first kid is coded by runs.
fn is_partition(term: &Term) -> bool {
    match term {
        Term::Partition(field, bounds, kids) => {
            field.as_slice() == b"k".as_slice()
                && are_bounds(bounds.0.as_slice())
                && matches!(kids.first(), Some(Term::Encode(_, Code::Rle, _)))
        }
        _ => false,
    }
}

// Whether this is the definition of `f`, a partition.
fn is_worked(definition: &Definition) -> bool {
    match &definition.side {
        Side::File(term) => definition.name.as_slice() == b"f".as_slice() && is_partition(term),
        _ => false,
    }
}

#[test]
fn makes_terms(rt: HostRuntime) -> Result<(), Fail> {
    let text = br#"f = partition(k 5 "a""", encode(t rle, heap))"#;
    let equation = read_equation(rt.alloc(), text)?;
    let first = equation.definitions.0.first().ok_or("a definition")?;
    assert!(rt; is_worked(first));
    Ok(())
}
