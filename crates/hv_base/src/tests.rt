//! Each call once, and rows of the tables.
use super::*;
use std::rc::Rc;
use std::test::Fail;

#[test]
fn refusals_are_numbered_as_the_table_has_them(rt: HostRuntime) {
    let table = [
        (Why::OpenComment, 1, "OpenComment"),
        (Why::NoFile, 6, "NoFile"),
        (Why::LeftOut, 14, "LeftOut"),
        (Why::NotDefined, 24, "NotDefined"),
    ];
    for (why, number, name) in table {
        assert_eq!(rt; why.number(), number);
        assert_eq!(rt; why.name(), name);
    }
}

#[test]
fn lists_grow_at_their_end(rt: HostRuntime) -> Result<(), Fail> {
    let mut text = Text::from_slice(rt.alloc(), b"ab")?;
    assert_eq!(rt; text.push(b'c'), Ok(()));
    text.extend_from_slice(b"de")?;
    assert_eq!(rt; text.len(), 5);
    assert_eq!(rt; text.as_slice(), b"abcde".as_slice());
    assert_eq!(rt; text.get(1).copied(), Some(b'b'));
    assert_eq!(rt; text.get(5).copied(), None);
    Ok(())
}

#[test]
fn lists_are_equal_where_their_items_are(rt: HostRuntime) -> Result<(), Fail> {
    let mut text = Text::from_slice(rt.alloc(), b"ab")?;
    let copy = text.copy(rt.alloc())?;
    assert!(rt; text == copy);
    assert!(rt; text.is_text(b"ab"));
    text.add(b'c')?;
    assert!(rt; text != copy);
    assert!(rt; !text.is_text(b"ab"));
    assert!(rt; !text.is_empty());
    assert_eq!(rt; text.len(), 3);
    assert_eq!(rt; text.replace(1, b'x'), b'b');
    assert!(rt; text.is_text(b"axc"));
    assert_eq!(rt; text.into_vec().as_slice(), b"axc".as_slice());
    Ok(())
}

#[test]
fn places_and_starts_are_copied_and_compared(rt: HostRuntime) -> Result<(), Fail> {
    let place = Place {
        stack: List::from_slice(rt.alloc(), &[3, 5])?,
        file: 2,
        offset: 9,
    };
    let mut other = place.copy(rt.alloc())?;
    assert!(rt; place == other);
    other.stack.add(7)?;
    assert!(rt; place != other);
    let start = Start {
        place,
        face: 1,
        index: 0,
    };
    let mut next = start.copy(rt.alloc())?;
    assert!(rt; start == next);
    next.index = 1;
    assert!(rt; start != next);
    Ok(())
}

#[test]
fn stacks_give_the_last_pushed_first(rt: HostRuntime) -> Result<(), Fail> {
    let mut stack = Stack::new(rt.alloc());
    assert!(rt; stack.is_empty());
    stack.push(b'a')?;
    stack.push(b'b')?;
    assert_eq!(rt; stack.len(), 2);
    assert_eq!(rt; stack.as_slice(), b"ab".as_slice());
    assert_eq!(rt; stack.replace_top(b'c'), Some(b'b'));
    assert_eq!(rt; stack.top().copied(), Some(b'c'));
    assert_eq!(rt; stack.pop(), Some(b'c'));
    assert_eq!(rt; stack.pop(), Some(b'a'));
    assert_eq!(rt; stack.pop(), None);
    assert_eq!(rt; stack.replace_top(b'd'), None);
    Ok(())
}

#[test]
fn bytes_are_in_their_classes(rt: HostRuntime) {
    for byte in b"Zq".as_slice() {
        assert!(rt; is_letter(*byte) && is_nondigit(*byte) && is_identifier_byte(*byte));
    }
    assert!(rt; is_nondigit(b'_') && !is_letter(b'_'));
    assert!(rt; is_digit(b'7') && is_identifier_byte(b'7') && !is_nondigit(b'7'));
    assert!(rt; is_blank(b'\t') && is_line_space(b'\r') && !is_blank(b'\r'));
    assert!(rt; is_printable(b'~') && !is_printable(b'\n'));
    assert!(rt; is_among(b"if", &["else", "if"]) && !is_among(b"i", &["else", "if"]));
}

#[test]
fn statuses_have_their_codes(rt: HostRuntime) {
    for (status, code) in [
        (Status::Done, 0),
        (Status::Memory, 5),
        (Status::OutOfSteps, 9),
    ] {
        assert_eq!(rt; status.code(), code);
    }
}

#[test]
fn spellings_are_read_back(rt: HostRuntime) {
    let words = [
        ("_Bool", Keyword::Bool),
        ("sizeof", Keyword::Sizeof),
        ("while", Keyword::While),
    ];
    for (text, word) in words {
        assert_eq!(rt; word.spelling(), text);
        assert_eq!(rt; Keyword::from_spelling(text.as_bytes()), Some(word));
    }
    for text in ["goto", "float", "unsigne", "voids", ""] {
        assert_eq!(rt; Keyword::from_spelling(text.as_bytes()), None);
    }
    let signs = [
        ("...", Punct::Ellipsis),
        (">>=", Punct::RightShiftEqual),
        ("##", Punct::HashHash),
    ];
    for (text, sign) in signs {
        assert_eq!(rt; sign.spelling(), text);
        assert_eq!(rt; Punct::from_spelling(text.as_bytes()), Some(sign));
    }
    for text in ["..", "<:", "$", ""] {
        assert_eq!(rt; Punct::from_spelling(text.as_bytes()), None);
    }
}

#[test]
fn bundles_number_names_in_order(rt: HostRuntime) -> Result<(), Fail> {
    let alloc = rt.alloc();
    let dirs = [String::from_str(alloc, "include")?];
    let mut bundle = Bundle::new(alloc, "main.c", &dirs)?;
    let bytes = Text::from_slice(alloc, b"#include \"a.h\"\n")?;
    assert_eq!(rt; bundle.add("main.c", Held::Bytes(bytes))?, 0);
    assert_eq!(rt; bundle.add("a.h", Held::Absent)?, 1);
    assert!(rt; matches!(bundle.get("a.h"), Some(Held::Absent)));
    assert!(rt; matches!(bundle.get("main.c"), Some(Held::Bytes(text)) if text.len() == 15));
    assert!(rt; bundle.get("b.h").is_none());
    assert_eq!(rt; bundle.number_of("a.h"), Some(1));
    assert_eq!(rt; bundle.number_of("include/a.h"), None);
    assert_eq!(rt; bundle.name_of(0), Some("main.c"));
    assert_eq!(rt; bundle.name_of(2), None);
    assert_eq!(rt; bundle.dirs().len(), 1);
    Ok(())
}

/// A tree that leads back to itself through `List`, as syntax trees do.
#[derive(Drop)]
enum Tree {
    Leaf(u8),
    Branch(List<Rc<Tree>>),
}

fn leaves(tree: &Tree) -> u64 {
    match tree {
        Tree::Leaf(_) => 1,
        Tree::Branch(children) => {
            let mut sum = 0u64;
            for child in children.as_slice() {
                sum = sum.saturating_add(leaves(child));
            }
            sum
        }
    }
}

#[test]
fn trees_hold_lists_of_themselves(rt: HostRuntime) -> Result<(), Fail> {
    let shared = Rc::new(rt.alloc(), Tree::Leaf(7))?;
    let mut children = List::new(rt.alloc());
    assert!(rt; children.push(shared.clone()?).is_ok());
    assert!(rt; children.push(shared).is_ok());
    assert_eq!(rt; leaves(&Tree::Branch(children)), 2);
    Ok(())
}
