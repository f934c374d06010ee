//! Worked examples of lines.

use crate::{
    LineReading, RecursionLine, RecursionReading, code, place_of, read_recursion, read_tokens,
    tokens,
};
use fr_alphabet::Alphabet;
use std::test::Fail;

#[test]
fn lines_end_where_they_begin_nothing(rt: HostRuntime) -> Result<(), Fail> {
    let a = Alphabet::new(2).expect(&rt, "two letters");
    for (line, place) in [
        ("act t 12 12", 10),
        ("act t", 6),
        ("eq a [b,c # ]", 10),
        ("eq a b^-1", 0),
    ] {
        let found = tokens(rt.alloc(), code(line.as_bytes()))?;
        let end = match read_tokens(rt.alloc(), a, &found)? {
            LineReading::Whole(_) => 0,
            LineReading::Syntax(k) => place_of(&found, k),
        };
        assert_eq!(rt; end, place, "at {line}");
    }
    Ok(())
}

#[test]
fn sections_are_products_of_names(rt: HostRuntime) -> Result<(), Fail> {
    let a = Alphabet::new(2).expect(&rt, "two letters");
    let found = tokens(rt.alloc(), b"s = <1,t*u^-1>(1,2)")?;
    let RecursionReading::Whole(line) = read_recursion(rt.alloc(), a, &found)? else {
        panic!(rt; "no recursion");
    };
    let RecursionLine {
        name,
        sections,
        cycles: _,
        not_a_letter: _,
    } = line;
    assert_eq!(rt; name.bytes(), "s".as_bytes());
    let Some(sections) = sections else {
        panic!(rt; "no sections");
    };
    let [first, second] = sections.as_slice() else {
        panic!(rt; "not two sections");
    };
    assert!(rt; first.names().is_empty());
    assert_eq!(rt; second.names().len(), 2);
    assert!(rt; second.names().last().is_some_and(|name| name.inverse));
    Ok(())
}
