//! The classes of elements that texts on automata groups begin with.

use super::*;
use fr_alphabet::{Alphabet, Perm};
use fr_machine::{Machine, Minimal, Row};
use fr_minimal::minimize;
use std::alloc::Global;
use std::test::Fail;

// Whether a row exchanges the two letters, and the rows behind the letters 1 and 2.
type Given = (bool, u16, u16);

// Rows a, b, c, d and the identity of Grigorchuk's group.
const GRIGORCHUK: [Given; 5] = [
    (true, 4, 4),
    (false, 0, 2),
    (false, 0, 3),
    (false, 4, 1),
    (false, 4, 4),
];

// The element of row t of a machine over two letters.
fn element(alloc: Global, given: &[Given], t: u16) -> Result<Minimal, Fail> {
    let a = Alphabet::new(2).ok_or("letters")?;
    let swap = Perm::of_images(a, &[2, 1]).ok_or("images")?;
    let mut rows = Vec::new(alloc);
    for (exchanges, first, second) in given {
        rows.push(Row {
            perm: if *exchanges { swap } else { Perm::identity(a) },
            next: [*first, *second, 0, 0, 0, 0, 0, 0],
        })?;
    }
    let m = Machine::new(a, rows).ok_or("rows")?;
    if t as usize >= m.rows().len() {
        return Err("row".into());
    }
    Ok(minimize(alloc, &m, t)?)
}

// The text of its class.
fn text_of(alloc: Global, given: &[Given], t: u16) -> Result<Vec<u8>, Fail> {
    let mut text = Vec::new(alloc);
    print_class(&class(alloc, &element(alloc, given, t)?)?, &mut text)?;
    Ok(text)
}

#[test]
fn known_elements_have_their_classes(rt: HostRuntime) -> Result<(), Fail> {
    let alloc = rt.alloc();
    // x = <y,1> and y = <a,1>, behind which stands the exchange a of the letters.
    let tower = [(false, 1, 3), (false, 2, 3), (true, 3, 3), (false, 3, 3)];
    // q = <q,s>, s = <s,t> and the adding machine t.
    let chain = [(false, 0, 1), (false, 1, 2), (true, 3, 2), (false, 3, 3)];
    // a = <1,b> and b = <1,a>(1,2) of the basilica group.
    let basilica = [(false, 2, 1), (true, 2, 0), (false, 2, 2)];
    // p and q of the lamplighter group, and r = <1,p>.
    let lamplighter = [(true, 1, 0), (false, 1, 0), (false, 3, 0), (false, 3, 3)];
    let cases: [(&[Given], u16, &[u8]); 15] = [
        (&GRIGORCHUK, 4, b"finitary 0"),
        (&GRIGORCHUK, 0, b"finitary 1"),
        (&tower, 1, b"finitary 2"),
        (&tower, 0, b"finitary 3"),
        (&GRIGORCHUK, 1, b"bounded"),
        (&GRIGORCHUK, 2, b"bounded"),
        (&GRIGORCHUK, 3, b"bounded"),
        (&chain, 2, b"bounded"),
        (&basilica, 0, b"bounded"),
        (&basilica, 1, b"bounded"),
        (&chain, 1, b"polynomial 1"),
        (&chain, 0, b"polynomial 2"),
        (&lamplighter, 0, b"exponential at - by 12 22"),
        (&lamplighter, 1, b"exponential at - by 11 21"),
        (&lamplighter, 2, b"exponential at 2 by 12 22"),
    ];
    for (given, t, wanted) in cases {
        assert_eq!(rt; text_of(alloc, given, t)?.as_slice(), wanted);
    }
    Ok(())
}

#[test]
fn a_chain_goes_round_its_cycle(rt: HostRuntime) -> Result<(), Fail> {
    let alloc = rt.alloc();
    let b = element(alloc, &GRIGORCHUK, 1)?;
    let Class::Polynomial { degree: 0, chain } = class(alloc, &b)? else {
        return Err("degree".into());
    };
    assert_eq!(rt; chain.len(), 1);
    assert_eq!(rt; chain[0].at.letters().len(), 0);
    assert_eq!(rt; chain[0].back.letters(), [2, 2, 2].as_slice());
    Ok(())
}
