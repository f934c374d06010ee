//! What no clause says: values that are known by hand, and that the calls succeed where there is memory.

ghost use Rattle.std.specs.Prelude.{◌≡◌, ◌≤◌, [], ◌∷◌, IfOk, length};
ghost use Rattle.fr_machine.specs.Minimal.{AreReached, AreUnlike};

use super::*;
use fr_alphabet::{Alphabet, Perm};
use fr_machine::{Machine, Minimal, Row};
use std::alloc::Global;
use std::test::Fail;

// A row over two letters.
fn row(perm: Perm, first: u16, second: u16) -> Row
    ensures { result ≡ record { perm = perm; next = first ∷ second ∷ 0 ∷ 0 ∷ 0 ∷ 0 ∷ 0 ∷ 0 ∷ [] } }
{
    Row {
        perm,
        next: [first, second, 0, 0, 0, 0, 0, 0],
    }
}

// The machine of rows that are reached and unlike.
fn minimal(a: Alphabet, rows: Vec<Row>) -> Result<Minimal, Fail>
    requires letters { a ≡ 2 }
    requires small { length rows.items ≤ 1024 }
    requires reached { AreReached 2 rows.items }
    requires unlike { AreUnlike rows.items }
    ensures { IfOk result (λ m. m.alphabet ≡ 2) }
{
    let m = Machine::new(a, rows).ok_or("rows")?;
    Ok(Minimal::of(m))
}

// The adding machine: row 0 is `<1,0>(1,2)`, and row 1 leaves each word.
fn adding(alloc: Global, a: Alphabet) -> Result<Minimal, Fail>
    requires { a ≡ 2 }
    ensures { IfOk result (λ m. m.alphabet ≡ 2) }
{
    let swap = Perm::of_images(a, &[2, 1]).ok_or("images")?;
    let stay = Perm::of_images(a, &[1, 2]).ok_or("images")?;
    let rows = vec![in alloc; row(swap, 1, 0), row(stay, 1, 1)]?;
    minimal(a, rows)
}

// The identity.
fn identity(alloc: Global, a: Alphabet) -> Result<Minimal, Fail>
    requires { a ≡ 2 }
    ensures { IfOk result (λ m. m.alphabet ≡ 2) }
{
    let stay = Perm::of_images(a, &[1, 2]).ok_or("images")?;
    let rows = vec![in alloc; row(stay, 0, 0)]?;
    let m = Machine::new(a, rows).ok_or("rows")?;
    Ok(Minimal::of(m))
}

// Reads a ray over two letters, and prints its image.
fn print_image(alloc: Global, a: Alphabet, m: &Minimal, text: &[u8]) -> Result<Vec<u8>, Fail>
    requires letters { a ≡ 2 }
    requires machine { m.now.alphabet ≡ 2 }
{
    let ray = Ray::read(alloc, a, text)?;
    let image = act(alloc, m, &ray)?;
    let mut out = Vec::new(alloc);
    image.print(&mut out)?;
    Ok(out)
}

#[test]
fn rays_have_one_form(rt: HostRuntime) -> Result<(), Fail> {
    let alloc = rt.alloc();
    let a = Alphabet::new(2).ok_or("letters")?;
    let cases: [(&[u8], &[u8]); 4] = [
        (b"12(12)", b"(12)"),
        (b"12(21)", b"12(21)"),
        (b"1(2121)", b"(12)"),
        (b"21(1)", b"2(1)"),
    ];
    for (text, form) in cases {
        let ray = Ray::read(alloc, a, text)?;
        let mut out = Vec::new(alloc);
        ray.print(&mut out)?;
        assert_eq!(rt; out.as_slice(), form);
        assert!(rt; ray.equal(&Ray::read(alloc, a, form)?));
        assert!(rt; !ray.equal(&Ray::read(alloc, a, b"(2)")?));
    }
    let ray = Ray::of_words(alloc, &[1], &[2, 1])?.copy(alloc)?;
    assert!(rt; ray.before().is_empty());
    assert_eq!(rt; ray.period(), [1, 2].as_slice());
    Ok(())
}

#[test]
fn faults_of_rays_have_their_places(rt: HostRuntime) -> Result<(), Fail> {
    let a = Alphabet::new(2).ok_or("letters")?;
    let long = vec![in rt.alloc(); b'1'; 4099]?;
    let cases: [(&[u8], RayText); 9] = [
        (b"1()", RayText::EmptyPeriod),
        (b"1(2", RayText::Syntax(4)),
        (b"(3)", RayText::NotALetter(2)),
        (b"10(3)", RayText::NotALetter(2)),
        (b"", RayText::Syntax(1)),
        (b"3()1", RayText::Syntax(3)),
        (b"(1))", RayText::Syntax(4)),
        (b"12-", RayText::Syntax(3)),
        (&long, RayText::WordTooLong),
    ];
    for (text, fault) in cases {
        assert_eq!(rt; Ray::read(rt.alloc(), a, text).err(), Some(fault));
    }
    Ok(())
}

#[test]
fn one_is_added_to_rays(rt: HostRuntime) -> Result<(), Fail> {
    let alloc = rt.alloc();
    let a = Alphabet::new(2).ok_or("letters")?;
    let t = adding(alloc, a)?;
    let cases: [(&[u8], &[u8]); 4] = [
        (b"(2)", b"(1)"),
        (b"12(21)", b"22(21)"),
        (b"(1)", b"2(1)"),
        (b"12(12)", b"2(21)"),
    ];
    for (text, image) in cases {
        assert_eq!(rt; print_image(alloc, a, &t, text)?.as_slice(), image);
    }
    let one = identity(alloc, a)?;
    assert_eq!(rt;
        print_image(alloc, a, &one, b"12(12)")?.as_slice(),
        b"(12)".as_slice()
    );
    Ok(())
}

// One is added to a period `1 1 .. 1 2`: the first letter changes, so it stands before the period from then on.
#[test]
fn images_have_at_most_4096_letters(rt: HostRuntime) -> Result<(), Fail> {
    let alloc = rt.alloc();
    let a = Alphabet::new(2).ok_or("letters")?;
    let t = adding(alloc, a)?;
    for (ones, expected) in [(4094usize, None), (4095, Some(RayFault::RayPassed))] {
        let mut text = Vec::new(alloc);
        text.push(b'(')?;
        text.extend_from_slice(&vec![in alloc; b'1'; ones]?)?;
        text.extend_from_slice(b"2)")?;
        let ray = Ray::read(alloc, a, &text)?;
        assert_eq!(rt; act(alloc, &t, &ray).err(), expected);
    }
    Ok(())
}
