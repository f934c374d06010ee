//! The nuclei of a few groups, most of them well known.

ghost use Rattle.std.specs.Prelude.{◌≡◌, IfOk, length};
ghost use Rattle.fr_nucleus.specs.Elements.{alphabet_of, AreOver};

use super::*;
use fr_alphabet::{Alphabet, NoMemory, Perm};
use fr_canon::{Code, Scratch, canon, print_machine};
use fr_machine::{Machine, Minimal, Row};
use fr_minimal::minimize;
use std::alloc::Global;
use std::test::Fail;

// The images of the letters under a row, and the rows behind the letters.
type Given<'a> = (&'a [u8], &'a [u16]);

// The machine of some rows over d letters.
fn machine_of(alloc: Global, d: u8, given: &[Given<'_>]) -> Result<Machine, Fail> {
    let a = Alphabet::new(d).ok_or("letters")?;
    let mut rows = Vec::new(alloc);
    for (images, nexts) in given {
        let perm = Perm::of_images(a, images).ok_or("images")?;
        let mut next = [0; 8];
        for (entry, row) in next.iter_mut().zip(*nexts) {
            *entry = *row;
        }
        rows.push(Row { perm, next })?;
    }
    Ok(Machine::new(a, rows).ok_or("rows")?)
}

// The machine of n rows over two letters, each of which leads to the next one, and the last, which exchanges the letters,
// to the first.
fn cycle(alloc: Global, n: u16) -> Result<Machine, Fail> {
    let a = Alphabet::new(2).ok_or("letters")?;
    let swap = Perm::of_images(a, &[2, 1]).ok_or("images")?;
    let mut rows = Vec::new(alloc);
    for s in 1..n {
        rows.push(Row {
            perm: Perm::identity(a),
            next: [s, s, 0, 0, 0, 0, 0, 0],
        })?;
    }
    rows.push(Row {
        perm: swap,
        next: [0; 8],
    })?;
    Ok(Machine::new(a, rows).ok_or("rows")?)
}

// The elements of some rows.
fn elements(alloc: Global, m: &Machine, rows: &[u16]) -> Result<Vec<Minimal>, Fail>
    ensures count { IfOk result (λ ms. length ms.items ≡ length rows.now) }
    ensures over { IfOk result (λ ms. AreOver (alphabet_of ms.items) ms.items) }
{
    let mut elements = Vec::new(alloc);
    for s in rows {
        if *s as usize >= m.rows().len() {
            return Err("row".into());
        }
        elements.push(minimize(alloc, m, *s)?)?;
    }
    Ok(elements)
}

// The nucleus of the group of some rows and all that are behind them.
fn found_from(alloc: Global, m: &Machine, gens: &[u16]) -> Result<Nucleus, Fail> {
    let gens = elements(alloc, m, gens)?;
    if gens.is_empty() {
        return Err("no generator".into());
    }
    Ok(nucleus(alloc, &gens, 256)?)
}

// The texts of elements, one behind the other.
fn text_of(alloc: Global, elements: &[Minimal]) -> Result<Vec<u8>, NoMemory> {
    let mut scratch = Scratch::new(alloc)?;
    let mut code = Code::new(alloc)?;
    let mut text = Vec::new(alloc);
    for m in elements {
        let machine = m.machine();
        if machine.rows().len() > 0 {
            canon(&mut scratch, m, 0, &mut code);
            print_machine(machine.alphabet(), &code, &mut text)?;
        }
    }
    Ok(text)
}

#[test]
fn groups_over_two_letters_have_their_nuclei(rt: HostRuntime) -> Result<(), Fail> {
    let alloc = rt.alloc();
    let stay: &[u8] = &[1, 2];
    let swap: &[u8] = &[2, 1];
    // The adding machine t, 1 and the inverse of t.
    let adding: &[Given<'_>] = &[(swap, &[1, 0]), (stay, &[1, 1]), (swap, &[2, 1])];
    // Rows a, b, c, d and 1 of Grigorchuk's group.
    let grigorchuk: &[Given<'_>] = &[
        (swap, &[4, 4]),
        (stay, &[0, 2]),
        (stay, &[0, 3]),
        (stay, &[4, 1]),
        (stay, &[4, 4]),
    ];
    // The basilica group: a = <1,b> and b = <1,a>(1,2), 1, the inverses of a and b, and c = <1,c^-1>(1,2) with its inverse.
    let basilica: &[Given<'_>] = &[
        (stay, &[2, 1]),
        (swap, &[2, 0]),
        (stay, &[2, 2]),
        (stay, &[2, 4]),
        (swap, &[3, 2]),
        (swap, &[2, 6]),
        (swap, &[5, 2]),
    ];
    // An element that is its own section, and 1.
    let constant: &[Given<'_>] = &[(swap, &[0, 0]), (stay, &[1, 1])];
    // An element whose sections are 1, and 1.
    let finite: &[Given<'_>] = &[(swap, &[1, 1]), (stay, &[1, 1])];
    let cases: [(&[Given<'_>], &[u16], &[u16], u32); 6] = [
        (adding, &[0], &[1, 2, 0], 1),
        (grigorchuk, &[0, 1, 2, 3], &[4, 0, 3, 1, 2], 1),
        (basilica, &[0, 1], &[2, 3, 0, 1, 5, 4, 6], 2),
        (constant, &[0], &[1, 0], 0),
        (finite, &[0], &[1], 1),
        (finite, &[1], &[1], 0),
    ];
    for (given, gens, members, depth) in cases {
        let m = machine_of(alloc, 2, given)?;
        let found = found_from(alloc, &m, gens)?;
        assert_eq!(rt; found.depth, depth);
        let wanted = text_of(alloc, &elements(alloc, &m, members)?)?;
        assert_eq!(rt; text_of(alloc, &found.members)?, wanted);
    }
    Ok(())
}

#[test]
fn groups_over_three_letters_have_their_nuclei(rt: HostRuntime) -> Result<(), Fail> {
    let alloc = rt.alloc();
    let stay: &[u8] = &[1, 2, 3];
    // The towers of Hanoi over three pegs, and 1.
    let hanoi: &[Given<'_>] = &[
        (&[2, 1, 3], &[3, 3, 0]),
        (&[3, 2, 1], &[3, 1, 3]),
        (&[1, 3, 2], &[2, 3, 3]),
        (stay, &[3, 3, 3]),
    ];
    // The group of Gupta and Sidki over three letters: a, t = <a,a^-1,t>, 1, the inverse of a and that of t.
    let gupta_sidki: &[Given<'_>] = &[
        (&[2, 3, 1], &[2, 2, 2]),
        (stay, &[0, 3, 1]),
        (stay, &[2, 2, 2]),
        (&[3, 1, 2], &[2, 2, 2]),
        (stay, &[3, 0, 4]),
    ];
    let cases: [(&[Given<'_>], &[u16], &[u16], u32); 2] = [
        (hanoi, &[0, 1, 2], &[3, 2, 0, 1], 1),
        (gupta_sidki, &[0, 1], &[2, 0, 3, 1, 4], 1),
    ];
    for (given, gens, members, depth) in cases {
        let m = machine_of(alloc, 3, given)?;
        let found = found_from(alloc, &m, gens)?;
        assert_eq!(rt; found.depth, depth);
        let wanted = text_of(alloc, &elements(alloc, &m, members)?)?;
        assert_eq!(rt; text_of(alloc, &found.members)?, wanted);
    }
    Ok(())
}

#[test]
fn the_nucleus_of_the_adding_machine_is_printed(rt: HostRuntime) -> Result<(), Fail> {
    let alloc = rt.alloc();
    let m = machine_of(alloc, 2, &[(&[2, 1], &[1, 0]), (&[1, 2], &[1, 1])])?;
    let gens = elements(alloc, &m, &[0])?;
    let found = nucleus(alloc, &gens, 3)?;
    let text = b"states 1
1 = <1,1>
states 2
1 = <1,2>(1,2)
2 = <2,2>
states 2
1 = <2,1>(1,2)
2 = <2,2>
";
    assert_eq!(rt; text_of(alloc, &found.members)?.as_slice(), text.as_slice());
    Ok(())
}

#[test]
fn members_of_the_basilica_nucleus_have_these_codes(rt: HostRuntime) -> Result<(), Fail> {
    let alloc = rt.alloc();
    let m = machine_of(
        alloc,
        2,
        &[(&[1, 2], &[2, 1]), (&[2, 1], &[2, 0]), (&[1, 2], &[2, 2])],
    )?;
    let gens = elements(alloc, &m, &[0, 1])?;
    let found = nucleus(alloc, &gens, 7)?;
    let codes: [&[u32]; 7] = [
        &[0, 1, 1],
        &[0, 2, 3, 0, 2, 2, 1, 1, 2],
        &[0, 2, 3, 0, 2, 2, 1, 2, 1],
        &[1, 2, 3, 0, 2, 2, 0, 2, 1],
        &[1, 2, 3, 0, 2, 2, 1, 1, 2],
        &[1, 2, 3, 0, 3, 1, 0, 3, 3],
        &[1, 2, 3, 1, 3, 1, 0, 3, 3],
    ];
    let mut scratch = Scratch::new(alloc)?;
    let mut code = Code::new(alloc)?;
    assert_eq!(rt; found.members.len(), codes.len());
    for (member, wanted) in found.members.iter().zip(codes) {
        assert!(rt; member.machine().rows().len() > 0);
        canon(&mut scratch, member, 0, &mut code);
        assert_eq!(rt; code.numbers(), wanted);
    }
    Ok(())
}

#[test]
fn too_many_sections_or_members_are_refused(rt: HostRuntime) -> Result<(), Fail> {
    let alloc = rt.alloc();
    let adding = machine_of(alloc, 2, &[(&[2, 1], &[1, 0]), (&[1, 2], &[1, 1])])?;
    // s = <s,t>, behind which stands the adding machine t.
    let chain = machine_of(
        alloc,
        2,
        &[(&[1, 2], &[0, 1]), (&[2, 1], &[2, 1]), (&[1, 2], &[2, 2])],
    )?;
    // Two generators of a free group (Aleshin).
    let free = machine_of(
        alloc,
        2,
        &[(&[2, 1], &[2, 1]), (&[2, 1], &[1, 2]), (&[1, 2], &[0, 0])],
    )?;
    let cases: [(&Machine, &[u16], u16, NucleusFault); 6] = [
        (&adding, &[0], 2, NucleusFault::Passes(2)),
        (&adding, &[0], 1, NucleusFault::Passes(1)),
        (&chain, &[0], 256, NucleusFault::Passes(256)),
        (&free, &[0, 1], 256, NucleusFault::Passes(256)),
        (&cycle(alloc, 63)?, &[0], 256, NucleusFault::Passes(256)),
        (&cycle(alloc, 64)?, &[0], 256, NucleusFault::TooManySections),
    ];
    for (m, gens, most, fault) in cases {
        let gens = elements(alloc, m, gens)?;
        assert!(rt; !gens.is_empty() && most > 0 && most <= 256);
        assert_eq!(rt; nucleus(alloc, &gens, most).err(), Some(fault));
    }
    Ok(())
}
