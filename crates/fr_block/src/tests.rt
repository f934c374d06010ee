//! Blocks whose elements are known by hand.

use super::*;
use fr_alphabet::{Alphabet, NoMemory, Perm};
use fr_machine::Minimal;
use fr_minimal::separate;
use std::alloc::Global;
use std::test::Fail;

// A name.
fn name(place: u16) -> Factor {
    Factor {
        name: place,
        inverse: false,
    }
}

// The product of one member so many times.
fn power(alloc: Global, factor: Factor, count: usize) -> Result<Vec<Factor>, NoMemory> {
    Ok(vec![in alloc; factor; count]?)
}

// A recursion over two letters.
fn wreath(
    alloc: Global,
    perm: Perm,
    first: Vec<Factor>,
    second: Vec<Factor>,
) -> Result<Wreath, NoMemory> {
    let mut sections = Vec::new(alloc);
    sections.push(first)?;
    sections.push(second)?;
    Ok(Wreath { perm, sections })
}

// The two permutations of two letters.
fn perms() -> Result<(Alphabet, Perm, Perm), Fail> {
    let a = Alphabet::new(2).ok_or("letters")?;
    let swap = Perm::of_images(a, &[2, 1]).ok_or("images")?;
    Ok((a, Perm::identity(a), swap))
}

fn elements(alloc: Global, a: Alphabet, wreaths: Vec<Wreath>) -> Result<Elements, Fail> {
    let block = Block::new(a, wreaths).ok_or("a block")?;
    Ok(Elements::new(alloc, block)?)
}

// The element of a name that a block has.
fn element(elements: &Elements, alloc: Global, place: u16) -> Result<Minimal, NameFault> {
    if place < elements.block().names() {
        elements.element(alloc, place)
    } else {
        Err(NameFault::NoMemory)
    }
}

// How many states a name has, or why it has no element.
fn states(elements: &Elements, alloc: Global, place: u16) -> Result<u16, NameFault> {
    Ok(element(elements, alloc, place)?.size())
}

#[test]
fn a_name_next_to_its_inverse_goes(rt: HostRuntime) -> Result<(), Fail> {
    let alloc = rt.alloc();
    let (a, _, swap) = perms()?;

    // t = <1,t>(1,2), and s = <1,t*t^-1*s>(1,2).
    let mut wreaths = Vec::new(alloc);
    wreaths.push(wreath(alloc, swap, Vec::new(alloc), power(alloc, name(0), 1)?)?)?;
    let long = Vec::from_slice(alloc, &[name(0), name(0).inverted(), name(1)])?;
    wreaths.push(wreath(alloc, swap, Vec::new(alloc), long)?)?;
    let elements = elements(alloc, a, wreaths)?;
    let t = element(&elements, alloc, 0)?;
    let s = element(&elements, alloc, 1)?;
    assert_eq!(rt; (t.size(), s.size()), (2, 2));
    assert!(rt; t.machine().rows() == s.machine().rows());
    Ok(())
}

#[test]
fn a_product_of_a_name_with_itself_may_be_one(rt: HostRuntime) -> Result<(), Fail> {
    let alloc = rt.alloc();
    let (a, _, swap) = perms()?;

    // a = <a*a,1>(1,2)
    let mut wreaths = Vec::new(alloc);
    wreaths.push(wreath(alloc, swap, power(alloc, name(0), 2)?, Vec::new(alloc))?)?;
    let elements = elements(alloc, a, wreaths)?;
    let found = element(&elements, alloc, 0)?;
    let rows = found.machine().rows();
    assert_eq!(rt; rows.len(), 2);
    assert!(rt; &rows[0].next[..2] == &[1, 1][..] && &rows[1].next[..2] == &[1, 1][..]);
    Ok(())
}

#[test]
fn a_name_whose_section_words_grow_is_refused(rt: HostRuntime) -> Result<(), Fail> {
    let alloc = rt.alloc();
    let (a, identity, swap) = perms()?;

    // a = <a*a,a>, and t = <1,t>(1,2), which is not refused with it.
    let mut wreaths = Vec::new(alloc);
    wreaths.push(wreath(
        alloc,
        identity,
        power(alloc, name(0), 2)?,
        power(alloc, name(0), 1)?,
    )?)?;
    wreaths.push(wreath(alloc, swap, Vec::new(alloc), power(alloc, name(1), 1)?)?)?;
    let elements = elements(alloc, a, wreaths)?;
    assert!(rt; states(&elements, alloc, 0) == Err(NameFault::ClosurePassed));
    assert!(rt; states(&elements, alloc, 1) == Ok(2));
    Ok(())
}

#[test]
fn a_product_of_two_generators_of_the_first_grigorchuk_group(rt: HostRuntime) -> Result<(), Fail> {
    let alloc = rt.alloc();
    let (a, identity, swap) = perms()?;

    // a = <1,1>(1,2), b = <a,c>, c = <a,d>, d = <1,b>, x = <b*c,x>
    let mut wreaths = Vec::new(alloc);
    wreaths.push(wreath(alloc, swap, Vec::new(alloc), Vec::new(alloc))?)?;
    wreaths.push(wreath(
        alloc,
        identity,
        power(alloc, name(0), 1)?,
        power(alloc, name(2), 1)?,
    )?)?;
    wreaths.push(wreath(
        alloc,
        identity,
        power(alloc, name(0), 1)?,
        power(alloc, name(3), 1)?,
    )?)?;
    wreaths.push(wreath(alloc, identity, Vec::new(alloc), power(alloc, name(1), 1)?)?)?;
    let product = Vec::from_slice(alloc, &[name(1), name(2)])?;
    wreaths.push(wreath(alloc, identity, product, power(alloc, name(4), 1)?)?)?;
    let elements = elements(alloc, a, wreaths)?;
    let x = element(&elements, alloc, 4)?;
    let nexts = [[1, 0], [2, 3], [2, 2], [4, 5], [2, 2], [4, 1]];
    assert_eq!(rt; x.size(), 6);
    for (row, next) in x.machine().rows().iter().zip(&nexts) {
        assert!(rt; &row.next[..2] == &next[..]);
    }
    Ok(())
}

// x = <u^64,1>, or <u^64*w,1>; u = <v^64,1>; v = <1,1>; w = <v,1>
fn powers(alloc: Global, identity: Perm, with_w: bool) -> Result<Vec<Wreath>, NoMemory> {
    let mut wreaths = Vec::new(alloc);
    let mut longest = power(alloc, name(1), 64)?;
    if with_w {
        longest.push(name(3))?;
    }
    wreaths.push(wreath(alloc, identity, longest, Vec::new(alloc))?)?;
    wreaths.push(wreath(alloc, identity, power(alloc, name(2), 64)?, Vec::new(alloc))?)?;
    wreaths.push(wreath(alloc, identity, Vec::new(alloc), Vec::new(alloc))?)?;
    wreaths.push(wreath(alloc, identity, power(alloc, name(2), 1)?, Vec::new(alloc))?)?;
    Ok(wreaths)
}

#[test]
fn a_section_word_has_4096_members_and_not_4097(rt: HostRuntime) -> Result<(), Fail> {
    let alloc = rt.alloc();
    let (a, identity, _) = perms()?;
    let met = elements(alloc, a, powers(alloc, identity, false)?)?;
    assert!(rt; states(&met, alloc, 0) == Ok(1));
    let passed = elements(alloc, a, powers(alloc, identity, true)?)?;
    assert!(rt; states(&passed, alloc, 0) == Err(NameFault::ClosurePassed));
    assert!(rt; states(&passed, alloc, 1) == Ok(1));
    Ok(())
}

// x1 = <x2,1>, .., and the last is (1,2)
fn chain(alloc: Global, identity: Perm, swap: Perm, count: u16) -> Result<Vec<Wreath>, NoMemory> {
    let mut wreaths = Vec::new(alloc);
    for next in 1..count {
        wreaths.push(wreath(
            alloc,
            identity,
            power(alloc, name(next), 1)?,
            Vec::new(alloc),
        )?)?;
    }
    wreaths.push(wreath(alloc, swap, Vec::new(alloc), Vec::new(alloc))?)?;
    Ok(wreaths)
}

#[test]
fn a_chain_of_1023_names_has_1024_states(rt: HostRuntime) -> Result<(), Fail> {
    let alloc = rt.alloc();
    let (a, identity, swap) = perms()?;
    let most = elements(alloc, a, chain(alloc, identity, swap, 1023)?)?;
    assert!(rt; states(&most, alloc, 0) == Ok(1024));
    assert!(rt; states(&most, alloc, 1022) == Ok(2));
    let passed = elements(alloc, a, chain(alloc, identity, swap, 1024)?)?;
    assert!(rt; states(&passed, alloc, 0) == Err(NameFault::StatesPassed));
    assert!(rt; states(&passed, alloc, 1) == Ok(1024));
    Ok(())
}

#[test]
fn a_recursion_with_an_unknown_name_makes_no_block(rt: HostRuntime) -> Result<(), Fail> {
    let alloc = rt.alloc();
    let (a, identity, _) = perms()?;
    let mut wreaths = Vec::new(alloc);
    wreaths.push(wreath(alloc, identity, power(alloc, name(1), 1)?, Vec::new(alloc))?)?;
    assert!(rt; Block::new(a, wreaths).is_none());
    Ok(())
}
