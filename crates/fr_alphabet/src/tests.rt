//! What no clause says: values from outside, and that the calls succeed where there is memory.

use super::*;
use std::test::Fail;

#[test]
fn alphabets_have_two_to_eight_letters(rt: HostRuntime) {
    for (d, accepted) in [(1, false), (2, true), (8, true), (9, false)] {
        assert_eq!(rt; Alphabet::new(d).is_some(), accepted, "{d} letters");
    }
}

#[test]
fn two_letters_have_two_permutations(rt: HostRuntime) {
    let a = Alphabet::new(2).expect(&rt, "two letters");
    assert!(rt; Perm::of_images(a, &[2, 2]).is_none());
    assert!(rt; Perm::of_rank(a, 1).is_some());
    assert!(rt; Perm::of_rank(a, 2).is_none());
}

#[test]
fn permutations_have_ranks_and_cycles(rt: HostRuntime) -> Result<(), Fail> {
    let cases: [(u8, &[u8], u32, &[u8]); 4] = [
        (2, &[2, 1], 1, b"(1,2)"),
        (3, &[2, 3, 1], 3, b"(1,2,3)"),
        (3, &[1, 2, 3], 0, b""),
        (5, &[3, 5, 1, 2, 4], 66, b"(1,3)(2,5,4)"),
    ];
    for (d, images, rank, cycles) in cases {
        let a = Alphabet::new(d).expect(&rt, "an alphabet");
        let p = Perm::of_images(a, images).expect(&rt, "a permutation");
        assert_eq!(rt; p.rank(), rank, "{d} letters");
        assert_eq!(rt; Perm::of_rank(a, rank), Some(p), "{d} letters");
        let mut out = Vec::new(rt.alloc());
        p.print_cycles(&mut out)?;
        assert_eq!(rt; out.as_slice(), cycles, "{d} letters");
    }
    Ok(())
}

#[test]
fn words_are_read_and_printed(rt: HostRuntime) -> Result<(), Fail> {
    let a = Alphabet::new(2).expect(&rt, "two letters");
    let cases: [(&[u8], &[u8]); 2] = [(b"121", &[1, 2, 1]), (b"-", &[])];
    for (text, letters) in cases {
        let word = Word::read(rt.alloc(), a, text)?.copy(rt.alloc())?;
        assert_eq!(rt; word.letters(), letters);
        let mut out = Vec::new(rt.alloc());
        print_word(&word, &mut out)?;
        assert_eq!(rt; out.as_slice(), text);
    }
    assert!(rt; Word::of_letters(Vec::new(rt.alloc())).letters().is_empty());
    Ok(())
}

#[test]
fn faults_of_words_have_their_places(rt: HostRuntime) -> Result<(), Fail> {
    let a = Alphabet::new(2).expect(&rt, "two letters");
    let long = vec![in rt.alloc(); b'1'; WORD_LIMIT + 1]?;
    let cases: [(&[u8], WordFault); 3] = [
        (b"13", WordFault::NotALetter(2)),
        (b"", WordFault::NotALetter(1)),
        (&long, WordFault::WordTooLong),
    ];
    for (text, fault) in cases {
        assert_eq!(rt; Word::read(rt.alloc(), a, text).err(), Some(fault));
    }
    Ok(())
}
