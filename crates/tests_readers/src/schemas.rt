// Worked texts: what they mean, and their canonical texts.
use gx_schema::{print_schema, read_schema};
use std::alloc::Global;
use std::test::Fail;

// Whether a text means a schema with this canonical text.
fn is_canonical(alloc: Global, text: &[u8], canonical: &[u8]) -> Result<bool, Fail> {
    if text.len() >= 4_294_967_295 {
        return Ok(false);
    }
    let schema = read_schema(alloc, text)?;
    Ok(print_schema(alloc, &schema)?.as_slice() == canonical)
}

// A text, and the canonical text of the same schema.
#[derive(Clone, Copy)]
struct Case {
    text: &'static [u8],
    canonical: &'static [u8],
}

const CASES: &[Case] = &[
    Case {
        text: b"file dept (dno int, dname text 12)
file emp (eno int, name text 24, pay int, room text 8)
link works (dept, emp)
",
        canonical: b"file dept (dno int, dname text 12)
file emp (eno int, name text 24, pay int, room text 8)
link works (dept, emp)
",
    },
    // Names that are words of the grammar.
    Case {
        text: b"file file (file int)",
        canonical: b"file file (file int)\n",
    },
    Case {
        text: b"file link (int int, text text 200) link file (link, link)",
        canonical: b"file link (int int, text text 200)
link file (link, link)
",
    },
    // Blanks, and none where none is needed.
    Case {
        text: b"\t\r\n file\ra(b\ntext\t7,c int)\r\n",
        canonical: b"file a (b text 7, c int)\n",
    },
    // Comments of any bytes, up to the end of the text.
    Case {
        text: b"#\xFF\"(\x00\nfile a (b int)#) file",
        canonical: b"file a (b int)\n",
    },
    // Leading zeros, and the greatest sizes.
    Case {
        text: b"file a (b text 0100, c text 000200)",
        canonical: b"file a (b text 100, c text 200)\n",
    },
    // Names of 16 bytes.
    Case {
        text: b"file a_______9______z (b int)",
        canonical: b"file a_______9______z (b int)\n",
    },
    // Files and links in turn.
    Case {
        text: b"file a (k int) link l (a, a) file b (k int) link m (b, a)",
        canonical: b"file a (k int)
file b (k int)
link l (a, a)
link m (b, a)
",
    },
];

#[test]
fn reads_and_prints(rt: HostRuntime) -> Result<(), Fail> {
    for Case { text, canonical } in CASES {
        assert!(rt; is_canonical(rt.alloc(), text, canonical)?);
    }
    Ok(())
}

#[test]
fn finds_files_and_links(rt: HostRuntime) -> Result<(), Fail> {
    let alloc = rt.alloc();
    let schema = read_schema(alloc, b"file f (k int) file g (k int) link l (g, f)")?;
    assert!(rt; schema.file_position(b"g") == Some(1));
    assert!(rt; schema.file_position(b"l") == None);
    assert!(rt; schema.link_position(b"l") == Some(0));
    assert!(rt; schema.link_position(b"f") == None);
    Ok(())
}
