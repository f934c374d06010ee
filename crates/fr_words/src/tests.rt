ghost use Rattle.std.specs.Prelude.{◌≡◌, [], ◌≤◌};
ghost use Rattle.fr_words.specs.Hands.{note, IsOf};

use crate::{Hand, Words};
use fr_alphabet::Alphabet;
use std::test::Fail;
use std::thread;

#[test]
fn a_claim_that_comes_late_gives_the_number(rt: HostRuntime) -> Result<(), Fail> {
    let Some(a) = Alphabet::new(2) else {
        panic!(rt; "two letters are an alphabet")
    };
    let (words, mut first) = Words::new(rt.alloc(), a, 4)?;
    let mut second = first.split(&words)?;
    assert_eq!(rt; first.look_claim(&words), 0);
    assert_eq!(rt; second.look_claim(&words), 0);
    assert_eq!(rt; first.claim(&words, 0, 2), Ok(0));
    assert_eq!(rt; second.claim(&words, 0, 2), Err(2));
    assert_eq!(rt; second.claim(&words, 2, 2), Ok(2));
    Ok(())
}

#[test]
fn a_new_table_is_empty(rt: HostRuntime) -> Result<(), Fail> {
    let Some(a) = Alphabet::new(2) else {
        panic!(rt; "two letters are an alphabet")
    };
    let (words, mut hand) = Words::new(rt.alloc(), a, 4)?;
    assert_eq!(rt; hand.row_word(&words, 3, 2), 0);
    assert_eq!(rt; hand.link(&words, 3), 0);
    assert_eq!(rt; hand.cell(&words, 7), 0);
    assert_eq!(rt; hand.cache_word(&words, 65535), 0);
    let other = hand.split(&words)?;
    hand.join(&words, other);
    assert_eq!(rt; hand.look_claim(&words), 0);
    Ok(())
}

// Claims two of the four rows, and tries again while others are faster. It gives the first of them,
// or 4 where none were left.
fn claim_two(words: &Words, hand: &mut Hand) -> u32
    requires { IsOf words.now hand.old × ((note hand.old).own ≡ []) × (words.now.plan.capacity ≡ 4) }
    ensures { IsOf words.now hand.new × (result ≤ 4) }
{
    let mut seen = hand.look_claim(words);
    while seen <= 2 {
        match hand.claim(words, seen, 2) {
            Ok(start) => return start,
            Err(now) => seen = now,
        }
    }
    4
}

#[test]
fn two_threads_claim_different_rows(rt: HostRuntime) -> Result<(), Fail> {
    let Some(a) = Alphabet::new(2) else {
        panic!(rt; "two letters are an alphabet")
    };
    let (words, mut mine) = Words::new(rt.alloc(), a, 4)?;
    let mut theirs = mine.split(&words)?;
    let (one, two) = thread::join_mut(
        &rt,
        &mut || claim_two(&words, &mut mine),
        &mut || claim_two(&words, &mut theirs),
    );
    assert_eq!(rt; one + two, 2);
    assert!(rt; one == 0 || two == 0);
    assert_eq!(rt; mine.look_claim(&words), 4);
    Ok(())
}
