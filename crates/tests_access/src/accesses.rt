// Worked equations, and the fragments of the records of their first file.
use crate::row::check_row;
use crate::texts::access_text;
use std::test::Fail;

// The data fields are 0 name, 1 quantity and 2 price.
const ITEMS: &str = "file item (id text 4, name text 9, quantity int, price int)";

const COLUMNS: &str =
    "file wide (k int, a int, b int, c int, d int, e int, f int, g int, h int, i int, j int)";

// An equation under a schema, and the access of its file.
#[derive(Clone, Copy)]
struct Case {
    schema: &'static str,
    equation: &'static str,
    access: &'static str,
}

const CASES: [Case; 20] = [
    Case {
        schema: ITEMS,
        equation: "item = actual(bplus)",
        access: "0: 1 of 0 1 2\n",
    },
    // a segment with an encoded group: the group is tested before the code
    Case {
        schema: ITEMS,
        equation: "item = segment(name, actual(heap), encode(quantity pack, actual(heap)))",
        access: "0: 1 of 0
1: 1 of 1 pack 2, in 1 2, else [0, 0, 0, 0, 0, 0, 0, 0, 0, 0]
",
    },
    // a transposition with an encoded column: the code stands bare in its leaf
    Case {
        schema: ITEMS,
        equation: "item = transpose(actual(heap), encode(quantity pack, heap), actual(heap))",
        access: "0: 1 of 0
1: 0 of 1 pack
2: 1 of 2
",
    },
    Case {
        schema: ITEMS,
        equation: "item = encode(name rle, actual(divide(8, heap)))",
        access: "0: 1 of 0 rle 1 2, by 8\n",
    },
    // a segment in a segment: the inner group first
    Case {
        schema: ITEMS,
        equation: "item = segment(quantity, actual(heap), segment(price, actual(heap), actual(bplus)))",
        access: "0: 1 of 1
1: 1 of 2, in 0 2, else [0, 0, 0, 0, 0, 0, 0, 0]
2: 1 of 0, in 0, in 0 2, else [0]
",
    },
    Case {
        schema: ITEMS,
        equation: "item = index(quantity, segment(name, actual(heap), actual(heap)), bplus)",
        access: "0: 1 of 0
1: 1 of 1 2, in 1 2, else [0, 0, 0, 0, 0, 0, 0, 0, 0, 0, 0, 0, 0, 0, 0, 0]
",
    },
    Case {
        schema: ITEMS,
        equation: "item = index(price, transpose(actual(heap), actual(heap), actual(bplus)), bplus)",
        access: "0: 1 of 0\n1: 1 of 1\n2: 1 of 2\n",
    },
    // ten columns
    Case {
        schema: COLUMNS,
        equation: "wide = transpose(actual(heap), actual(heap), actual(heap), actual(heap),
    actual(heap), actual(heap), actual(heap), actual(heap), actual(heap), actual(heap))",
        access: "0: 1 of 0
1: 1 of 1
2: 1 of 2
3: 1 of 3
4: 1 of 4
5: 1 of 5
6: 1 of 6
7: 1 of 7
8: 1 of 8
9: 1 of 9
",
    },
    // a group with a text, in pieces
    Case {
        schema: ITEMS,
        equation: "item = segment(price, actual(heap), actual(divide(8, heap)))",
        access: "0: 1 of 2
1: 1 of 0 1, in 0 1, by 8, else [0, 0, 0, 0, 0, 0, 0, 0, 0]
",
    },
    // partitions: over a segment, and by a field of the key
    Case {
        schema: ITEMS,
        equation: r#"item = partition(id "m", segment(name, actual(heap), actual(bplus)), actual(heap))"#,
        access: "key 0 [Text(Octets([109]))]
0: 1 of 0
1: 1 of 1 2, in 1 2, else [0, 0, 0, 0, 0, 0, 0, 0, 0, 0, 0, 0, 0, 0, 0, 0]
2: 1 of 0 1 2
",
    },
    // over a code over a segment, and by a data field
    Case {
        schema: ITEMS,
        equation: "item = partition(quantity 5, encode(price pack, segment(name, actual(heap),
    actual(heap))), actual(heap))",
        access: " 1 [Int(5)]
0: 1 of 0
1: 1 of 1 2 pack, in 1 2 pack, else [0, 0, 0, 0, 0, 0, 0, 0, 0, 0]
2: 1 of 0 1 2
",
    },
    // below an index, with two bounds
    Case {
        schema: ITEMS,
        equation: "item = index(quantity, partition(price 5 10, actual(heap), actual(bplus), actual(heap)),
    bplus)",
        access: " 2 [Int(5), Int(10)]
0: 1 of 0 1 2
1: 1 of 0 1 2
2: 1 of 0 1 2
",
    },
    // below `actual`, over a division
    Case {
        schema: ITEMS,
        equation: r#"item = encode(name rle, actual(partition(id "m", divide(8, heap), heap)))"#,
        access: "key 0 [Text(Octets([109]))]
0: 1 of 0 rle 1 2, by 8
1: 1 of 0 rle 1 2
",
    },
    // a partition in a partition
    Case {
        schema: ITEMS,
        equation: r#"item = partition(id "m", partition(quantity 5, actual(heap), actual(heap)),
    actual(heap))"#,
        access: "key 0 [Text(Octets([109]))]
 1 [Int(5)]
0: 1 of 0 1 2
1: 1 of 0 1 2
2: 1 of 0 1 2
",
    },
    // partitions below a segment and a transposition
    Case {
        schema: ITEMS,
        equation: r#"item = segment(name, partition(id "m", actual(heap), actual(heap)), actual(heap))"#,
        access: "none",
    },
    Case {
        schema: ITEMS,
        equation: r#"item = transpose(partition(name "m", actual(heap), actual(heap)), actual(heap),
    actual(heap))"#,
        access: "none",
    },
    // a transposition below `actual`, and divisions of what isn't a leaf
    Case {
        schema: ITEMS,
        equation: "item = actual(transpose(heap))",
        access: "none",
    },
    Case {
        schema: ITEMS,
        equation: "item = actual(divide(8, actual(heap)))",
        access: "none",
    },
    Case {
        schema: ITEMS,
        equation: "item = actual(divide(8, divide(4, heap)))",
        access: "none",
    },
    Case {
        schema: ITEMS,
        equation: r#"item = actual(divide(8, partition(id "m", heap, heap)))"#,
        access: "none",
    },
];

#[test]
fn gives_the_access(rt: HostRuntime) -> Result<(), Fail> {
    for case in CASES {
        let access = access_text(rt.alloc(), case.schema, case.equation)?;
        check_row(&rt, case.equation, access.as_str() == case.access);
    }
    Ok(())
}
