//! What no clause says: values from outside, and that the calls succeed where there is memory.

use super::*;
use fr_alphabet::Alphabet;
use std::test::Fail;

// Grigorchuk's b, its sections a, c and d, and the identity.
const B: &[u8] = b"states 5\n1 = <2,3>\n2 = <4,4>(1,2)\n3 = <2,5>\n4 = <4,4>\n5 = <4,1>\n";

#[test]
fn elements_have_their_codes_and_homes(rt: HostRuntime) -> Result<(), Fail> {
    let a = Alphabet::new(2).expect(&rt, "two letters");
    let b = read_machine(rt.alloc(), a, B)?;
    let mut scratch = Scratch::new(rt.alloc())?;
    let mut code = Code::new(rt.alloc())?;
    canon(&mut scratch, &b, 0, &mut code);
    assert_eq!(rt;
        code.numbers(),
        &[0, 2, 3, 1, 4, 4, 0, 2, 5, 0, 4, 4, 0, 4, 1][..]
    );
    assert!(rt; b.size() == 5);
    let mut rows = Vec::with_capacity(rt.alloc(), 1024)?;
    rows_of_code(a, &code, &mut rows);
    assert!(rt; rows.as_slice() == b.machine().rows());
    canon(&mut scratch, &b, 3, &mut code);
    assert_eq!(rt; code.numbers(), &[0, 1, 1][..]);
    assert_eq!(rt; home(&code, 8), 0);
    assert_eq!(rt; home(&code, 2097152), (4088273985u32 / 128) % 2097152);
    let rows = b.machine().rows();
    assert!(rt; has_code(&mut scratch, a, rows, 3, &code));
    assert!(rt; !has_code(&mut scratch, a, rows, 1, &code));
    assert_eq!(rt; count_states(&mut scratch, a, rows, 1), 2);
    let exchange = canonical_machine(rt.alloc(), &mut scratch, a, rows, 1)?;
    assert_eq!(rt; exchange.machine().rows()[0].next, [1, 1, 0, 0, 0, 0, 0, 0]);
    assert!(rt; alike(&mut scratch, &b, 1, &exchange, 0));
    assert!(rt; alike(&mut scratch, &b, 2, &b, 2));
    assert!(rt; !alike(&mut scratch, &b, 0, &b, 2));
    Ok(())
}

#[test]
fn machines_are_read_and_printed(rt: HostRuntime) -> Result<(), Fail> {
    let cases: [(u8, &[u8]); 3] = [
        (2, B),
        (
            2,
            b"states 6\n1 = <2,3>(1,2)\n2 = <3,4>\n3 = <5,5>(1,2)\n4 = <5,6>\n5 = <5,5>\n6 = <3,2>\n",
        ),
        (3, b"states 2\n1 = <2,2,1>(1,2,3)\n2 = <2,2,2>\n"),
    ];
    let mut scratch = Scratch::new(rt.alloc())?;
    let mut code = Code::new(rt.alloc())?;
    for (d, text) in cases {
        let a = Alphabet::new(d).expect(&rt, "an alphabet");
        let m = read_machine(rt.alloc(), a, text)?;
        let machine = m.machine();
        canon_rows(
            &mut scratch,
            machine.alphabet(),
            machine.rows(),
            0,
            &mut code,
        );
        let mut out = Vec::new(rt.alloc());
        print_machine(machine.alphabet(), &code, &mut out)?;
        assert_eq!(rt; out.as_slice(), text);
    }
    Ok(())
}

#[test]
fn faults_have_their_lines(rt: HostRuntime) {
    let a = Alphabet::new(2).expect(&rt, "two letters");
    let cases: [(&[u8], ReadFault); 9] = [
        (b"states 0\n", ReadFault::Syntax(1)),
        (b"states 1\n1 = <1,1>", ReadFault::Syntax(2)),
        (b"states 2\n2 = <2,2>\n1 = <1,2>\n", ReadFault::Syntax(2)),
        (b"states 1\n1 = <1,1>(2,1)\n", ReadFault::Syntax(2)),
        (b"states 2\n1 = <1,2>(1,2)\n", ReadFault::Syntax(3)),
        (b"states 1\n1 = <1,1>\n\n", ReadFault::Syntax(3)),
        (
            b"states 3\n1 = <3,2>\n2 = <1,1>\n3 = <1,1>\n",
            ReadFault::NotCanonical(2),
        ),
        (
            b"states 2\n1 = <1,1>\n2 = <2,2>\n",
            ReadFault::NotCanonical(3),
        ),
        (
            b"states 2\n1 = <2,2>\n2 = <2,2>\n",
            ReadFault::NotCanonical(3),
        ),
    ];
    for (text, fault) in cases {
        assert_eq!(rt; read_machine(rt.alloc(), a, text).err(), Some(fault));
    }
}
