use crate::{cache_square, publish_rows};
use fr_alphabet::{Alphabet, Perm};
use fr_canon::{Code, Scratch};
use fr_machine::Row;
use fr_words::Words;
use std::test::Fail;

#[test]
fn the_identity_is_published(rt: HostRuntime) -> Result<(), Fail> {
    let Some(a) = Alphabet::new(2) else {
        panic!(rt; "two letters are an alphabet")
    };
    let (words, mut hand) = Words::new(rt.alloc(), a, 4)?;
    let mut scratch = Scratch::new(rt.alloc())?;
    let mut code = Code::new(rt.alloc())?;
    let identity = Row {
        perm: Perm::identity(a),
        next: [0; 8],
    };
    let Some(start) = publish_rows(&mut scratch, &mut code, a, &[identity], &words, &mut hand)
    else {
        panic!(rt; "the table has room")
    };
    assert_eq!(rt; start, 0);
    assert_eq!(rt; cache_square(&identity, start, &words, &mut hand), 0);
    assert_eq!(rt; hand.cache_word(&words, 0), 1);
    assert_eq!(rt; hand.cell(&words, 0), 1);
    assert_eq!(rt; hand.link(&words, 0), 1);
    assert_eq!(rt; hand.row_word(&words, 0, 2), 1);
    Ok(())
}

#[test]
fn the_adding_machine_is_published_with_the_identity(rt: HostRuntime) -> Result<(), Fail> {
    let Some(a) = Alphabet::new(2) else {
        panic!(rt; "two letters are an alphabet")
    };
    let Some(swap) = Perm::of_images(a, &[2, 1]) else {
        panic!(rt; "a permutation")
    };
    let (words, mut hand) = Words::new(rt.alloc(), a, 8)?;
    let mut scratch = Scratch::new(rt.alloc())?;
    let mut code = Code::new(rt.alloc())?;
    let adding = Row {
        perm: swap,
        next: [1, 0, 0, 0, 0, 0, 0, 0],
    };
    let identity = Row {
        perm: Perm::identity(a),
        next: [1, 1, 0, 0, 0, 0, 0, 0],
    };
    assert_eq!(rt;
        publish_rows(
            &mut scratch,
            &mut code,
            a,
            &[adding, identity],
            &words,
            &mut hand
        ),
        Some(0)
    );
    assert_eq!(rt; hand.look_claim(&words), 2);
    assert_eq!(rt; hand.cell(&words, 15), 1025);
    assert_eq!(rt; hand.cell(&words, 8), 1026);
    assert_eq!(rt; hand.cell(&words, 0), 0);
    assert_eq!(rt; hand.link(&words, 0), 1025);
    assert_eq!(rt; hand.link(&words, 1), 1026);
    assert_eq!(rt; hand.row_word(&words, 0, 0), 2);
    Ok(())
}
