//! Texts that are read, and texts that are refused.

use hp_fixtures::page::Page;
use hp_fixtures::repeats::with_repeats;
use hp_text::{Node, NodeKind, TextRefusal, read};
use std::alloc::{AllocError, Global};

const ACCEPTED: [&[u8]; 12] = [
    b"",
    b" (a b) ",
    b"((a)(b c))",
    b"a (b)c\t\r\nd",
    b"()",
    b"+ - . .a -a -. +. .. ?x :m !m nil",
    b"0 -1 +007 .5 +.500 5. 9223372036854775.807 -9223372036854775.808",
    b"1(2)3",
    b"a;b (\nc",
    b"a;b",
    b";\x00\x7f\xc8\"(;)\r\t1a\n",
    b"a ; b\n;c\n\n d;",
];

const REFUSED: [&[u8]; 29] = [
    b"a\xc8",
    b"a\x00",
    b"\x7f",
    b"(a \"b\")",
    b"; \xc8\n \xc8",
    b" 1a",
    b"(+.5000)",
    b"-.5.",
    b".5-",
    b"0.5000",
    b"1e5",
    b"0.5.1",
    b"1..5",
    b"1.x )",
    b"a 1-;)",
    b"9223372036854775.808",
    b" -9223372036854775.809",
    b"+9223372036854775.808",
    b"99999999999999999999999999999999999999999",
    b"(",
    b"((a)",
    b"(a(b) (c",
    b"(;)",
    b")",
    b"(a))",
    b") \x00",
    b"(1a \x00",
    b"(1\x00",
    b"1a\x00",
];

const NUMBERS: [&[u8]; 16] = [
    b"0",
    b"+0",
    b"-0",
    b"+007",
    b"-12",
    b".5",
    b"+.500",
    b"-0.5",
    b"-.0",
    b"5.",
    b".25",
    b".007",
    b"999999999999999",
    b"9223372036854775.807",
    b"-9223372036854775.808",
    b"-00000000000000000000000009223372036854775.808",
];

// Brackets and tokens up to their limits and past them, and texts of 4,194,304 bytes, their limit, and of more.
const LIMITS: [&str; 13] = [
    "{64 (}{64 )}",
    "{65 (}{65 )}",
    "{64 (}",
    "{64 (}{63 )}",
    "{3  }{256 a}",
    "{3  }{257 a}",
    "{256 1}",
    "{257 1}",
    "{4194302  }  ",
    "{4194302  }   ",
    "{4194302  }1x",
    "{4194302  }1x ",
    "{4194302  }1xx",
];

/// How many nodes a text has, and how many bytes.
fn size_of(alloc: Global, text: &[u8]) -> Result<(usize, u32), TextRefusal> {
    let forest = read(alloc, text)?;
    Ok((forest.nodes.len(), forest.len))
}

fn show_sizes(page: &mut Page, alloc: Global, texts: &[&[u8]]) {
    for text in texts {
        page.row(text, &size_of(alloc, text));
    }
}

/// The number that a text is, by its thousandths.
fn number_of(alloc: Global, text: &[u8]) -> Result<Option<i64>, TextRefusal> {
    let forest = read(alloc, text)?;
    match forest.nodes.as_slice() {
        [
            Node {
                kind: NodeKind::Num(n),
                ..
            },
        ] => Ok(Some(*n)),
        _ => Ok(None),
    }
}

fn show_numbers(page: &mut Page, alloc: Global) {
    page.title("Numbers are read, by their thousandths");
    for text in &NUMBERS {
        page.row(text, &number_of(alloc, text));
    }
}

fn show_limits(page: &mut Page, alloc: Global) -> Result<(), AllocError> {
    page.title("Brackets, tokens and texts have limits");
    for text in &LIMITS {
        let whole = with_repeats(alloc, text)?;
        page.line(text, &size_of(alloc, whole.as_bytes()));
    }
    Ok(())
}

/// The parts of the last of nodes, if it is a list.
fn parts_of(nodes: &[Node]) -> &[Node] {
    match nodes {
        [
            ..,
            Node {
                kind: NodeKind::List(parts),
                ..
            },
        ] => parts.as_slice(),
        _ => &[],
    }
}

fn show_spans(page: &mut Page, what: &str, nodes: &[Node]) {
    for node in nodes {
        if let NodeKind::Name(name) = &node.kind {
            page.row(name.bytes(), &node.span);
        } else {
            page.line(what, &node.span);
        }
    }
}

fn show_places(page: &mut Page, alloc: Global) -> Result<(), TextRefusal> {
    let text = b" ((a)(bc 12)) ".as_slice();
    page.title("Nodes have spans");
    let forest = read(alloc, text)?;
    let lists = parts_of(forest.nodes.as_slice());
    page.row(text, &(forest.nodes.len(), forest.len));
    show_spans(page, "a node", forest.nodes.as_slice());
    show_spans(page, "a part", lists);
    show_spans(page, "a part of the last part", parts_of(lists));
    Ok(())
}

/// Texts, their limits and the places of what stands in them.
pub fn show_forests(page: &mut Page, alloc: Global) -> Result<(), AllocError> {
    page.title("Texts are read: how many nodes, and how many bytes");
    show_sizes(page, alloc, &ACCEPTED);
    page.title("Texts are refused");
    show_sizes(page, alloc, &REFUSED);
    show_numbers(page, alloc);
    show_limits(page, alloc)?;
    let read = show_places(page, alloc);
    page.line("it is read", &read);
    Ok(())
}
