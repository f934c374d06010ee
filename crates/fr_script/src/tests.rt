//! Worked examples of the language.

use crate::{
    Body, Fault, Kept, LineFault, LineReader, ScriptFault, Statement, print_fault, read_script,
};
use fr_alphabet::{NoMemory, print_word};
use std::alloc::Global;
use std::test::Fail;

// A block of one name, before the line that a case is about.
const ADDING_MACHINE: &[u8] = b"group\nt = <1,t>(1,2)\nend\n";

// Appends the fault of an item that has one.
fn print_faulty(alloc: Global, kept: &Kept, text: &mut Vec<u8>) -> Result<(), NoMemory> {
    let told = kept.read(alloc)?;
    match told.body() {
        Body::Faulty(fault) => print_fault(fault, text),
        Body::Says(_) => Ok(()),
    }
}

// Appends the fault of an item, the word on which it acts, or the name that it binds.
fn print_said(alloc: Global, kept: &Kept, text: &mut Vec<u8>) -> Result<(), NoMemory> {
    let told = kept.read(alloc)?;
    match told.body() {
        Body::Faulty(fault) => print_fault(fault, text),
        Body::Says(Statement::Act(_, word)) => print_word(word, text),
        Body::Says(Statement::Let(name, _)) => Ok(text.extend_from_slice(name.bytes())?),
        Body::Says(_) => Ok(()),
    }
}

// The texts of the faulty items of a script.
fn faults(alloc: Global, script: &[u8]) -> Result<Vec<u8>, ScriptFault> {
    let mut text = Vec::new(alloc);
    let script = read_script(alloc, script)?;
    for item in script.items.as_slice() {
        print_faulty(alloc, &item.body, &mut text)?;
    }
    Ok(text)
}

// A line between copies of two bytes.
fn between(alloc: Global, front: &[u8], count: usize, back: u8) -> Result<Vec<u8>, NoMemory> {
    let mut line = Vec::new(alloc);
    line.extend_from_slice(front)?;
    for _ in 0..count {
        line.push(back)?;
    }
    Ok(line)
}

#[test]
fn a_line_ends_an_item(rt: HostRuntime) -> Result<(), Fail> {
    let mut reader = LineReader::new(rt.alloc())?;
    assert!(rt; reader.push(b"group")?.is_none());
    assert!(rt; reader.push(b"t = <1,t>(1,2)")?.is_none());
    let item = reader.push(b"end")?;
    assert_eq!(rt; item.map(|item| item.line), Some(1));
    assert_eq!(rt; reader.alphabet().letters(), 2);
    assert!(rt; reader.finish()?.is_none());
    Ok(())
}

#[test]
fn a_block_wants_an_end(rt: HostRuntime) -> Result<(), Fail> {
    let mut reader = LineReader::new(rt.alloc())?;
    assert!(rt; reader.push(b"group")?.is_none());
    let item = reader.finish()?.expect(&rt, "an item");
    let mut text = Vec::new(rt.alloc());
    print_faulty(rt.alloc(), &item.body, &mut text)?;
    assert_eq!(rt; text.as_slice(), "line 1: no end\n".as_bytes());
    Ok(())
}

#[test]
fn a_kept_line_is_read_as_what_it_says(rt: HostRuntime) -> Result<(), Fail> {
    let cases = [
        ("alphabet 3\nact t 3213", true, "3213"),
        (
            "alphabet 2\nact t 3213",
            true,
            "line 2: letter out of range\n",
        ),
        ("  let u = t # a name", false, "u"),
        ("let = t", false, "line 1: syntax at 5\n"),
        ("frob", true, "line 1: unknown statement\n"),
        ("alphabet 9", false, "line 1: alphabet out of range\n"),
    ];
    for (lines, asks, expected) in cases {
        let script = read_script(rt.alloc(), lines.as_bytes())?;
        let item = script.items.as_slice().last().expect(&rt, "an item");
        assert_eq!(rt; item.body.asks(), asks, "at {lines}");
        let mut text = Vec::new(rt.alloc());
        print_said(rt.alloc(), &item.body, &mut text)?;
        assert_eq!(rt; text.as_slice(), expected.as_bytes(), "at {lines}");
    }
    Ok(())
}

#[test]
fn a_script_has_at_most_4096_lines(rt: HostRuntime) -> Result<(), Fail> {
    for last in [b'\n', b'\r'] {
        let mut lines = between(rt.alloc(), b"", 4096, b'\n')?;
        assert!(rt; read_script(rt.alloc(), &lines)?.items.is_empty());
        lines.push(last)?;
        assert_eq!(rt;
            read_script(rt.alloc(), &lines).err(),
            Some(ScriptFault::LinesPassed)
        );
    }
    Ok(())
}

#[test]
fn each_fault_has_its_text(rt: HostRuntime) -> Result<(), Fail> {
    let cases = [
        (LineFault::BadByte(7), "line 4: bad byte at 7\n"),
        (LineFault::LineTooLong, "line 4: line too long\n"),
        (LineFault::UnknownStatement, "line 4: unknown statement\n"),
        (LineFault::Syntax(10), "line 4: syntax at 10\n"),
        (LineFault::NotALetter, "line 4: letter out of range\n"),
        (LineFault::WrongArity, "line 4: wrong number of sections\n"),
        (LineFault::NotPermutation, "line 4: not a permutation\n"),
        (LineFault::NestingPassed, "line 4: nesting passes 64\n"),
        (LineFault::PowerPassed, "line 4: number passes 1000000\n"),
        (LineFault::NoEnd, "line 4: no end\n"),
        (LineFault::NameTaken, "line 4: name taken\n"),
        (LineFault::UnknownName, "line 4: unknown name\n"),
        (LineFault::PairsPassed, "line 4: pairs pass 65536\n"),
        (LineFault::StatesPassed, "line 4: states pass 1024\n"),
        (LineFault::NucleusPassed, "line 4: nucleus passes 256\n"),
        (LineFault::TooManySections, "line 4: sections pass 64\n"),
        (LineFault::AlphabetRange, "line 4: alphabet out of range\n"),
        (LineFault::AlphabetPlace, "line 4: alphabet must be first\n"),
        (LineFault::RayPassed, "line 4: ray passes 4096\n"),
        (
            LineFault::ClosurePassed,
            "line 4: section words pass limit\n",
        ),
    ];
    for (kind, expected) in cases {
        let mut text = Vec::new(rt.alloc());
        print_fault(&Fault { line: 4, kind }, &mut text)?;
        assert_eq!(rt; text.as_slice(), expected.as_bytes(), "at {expected}");
    }
    Ok(())
}

#[test]
fn a_line_has_its_first_fault(rt: HostRuntime) -> Result<(), Fail> {
    let cases = [
        ("act t 12 12", "line 4: syntax at 10\n"),
        ("act t", "line 4: syntax at 6\n"),
        ("show t\x7f", "line 4: bad byte at 7\n"),
        ("show t\u{e9}", "line 4: bad byte at 7\n"),
        ("show t # \u{e9}", ""),
        ("act t 13 12", "line 4: syntax at 10\n"),
        ("order t 1000001", "line 4: number passes 1000000\n"),
        ("order t 001000000", ""),
        (
            "act t 13\nfrob t\nact t 21",
            "line 4: letter out of range\nline 5: unknown statement\n",
        ),
        ("alphabet 2", "line 4: alphabet must be first\n"),
        ("let show = 1\nshow show", ""),
        ("ray t 1(2)", ""),
        ("ray t (1", "line 4: syntax at 9\n"),
        ("ray t 1()", "line 4: syntax at 9\n"),
        ("ray t 1(3)", "line 4: letter out of range\n"),
        ("eq t@-1", ""),
        ("group\na = <1,1>(1,1)\nend", "line 5: not a permutation\n"),
        ("group\na = <1>\nend", "line 5: wrong number of sections\n"),
        ("group\na = <1>(3,1)\nend", "line 5: letter out of range\n"),
        ("group\na = ()(1,2)\nend", "line 5: syntax at 7\n"),
        ("group\nshow t\nend", "line 5: syntax at 6\n"),
        ("group\nshow\nend", "line 5: syntax at 5\n"),
        ("group\nend = (1,2) # end\n\nend # here", ""),
        ("group\na = <a*a^-1,1>\nb = <1>\nc = <", "line 4: no end\n"),
        ("group\na = <1,1>(1,2)", "line 4: no end\n"),
    ];
    for (lines, expected) in cases {
        let mut script = Vec::from_slice(rt.alloc(), ADDING_MACHINE)?;
        script.extend_from_slice(lines.as_bytes())?;
        let text = faults(rt.alloc(), &script)?;
        assert_eq!(rt; text.as_slice(), expected.as_bytes(), "at {lines}");
    }
    Ok(())
}

#[test]
fn the_first_item_sets_the_alphabet(rt: HostRuntime) -> Result<(), Fail> {
    let cases = [
        (
            "alphabet 3\ngroup\nr = <1,1,r>(1,2,3)\nend\nact r 332",
            3,
            "",
        ),
        ("alphabet 9", 2, "line 1: alphabet out of range\n"),
        (
            "zed\nalphabet 9",
            2,
            "line 1: unknown statement\nline 2: alphabet must be first\n",
        ),
        ("\n# 3 letters\nalphabet 03", 3, ""),
    ];
    for (script, letters, expected) in cases {
        let read = read_script(rt.alloc(), script.as_bytes())?;
        assert_eq!(rt; read.alphabet.letters(), letters, "at {script}");
        let text = faults(rt.alloc(), script.as_bytes())?;
        assert_eq!(rt; text.as_slice(), expected.as_bytes(), "at {script}");
    }
    Ok(())
}

#[test]
fn lines_and_brackets_have_limits(rt: HostRuntime) -> Result<(), Fail> {
    for (count, expected) in [(4090, ""), (4091, "line 1: line too long\n")] {
        let line = between(rt.alloc(), b"show t", count, b' ')?;
        let text = faults(rt.alloc(), &line)?;
        assert_eq!(rt; text.as_slice(), expected.as_bytes(), "at {count}");
    }
    let line = between(rt.alloc(), b"group t", 4090, b'*')?;
    assert_eq!(rt;
        faults(rt.alloc(), &line)?.as_slice(),
        b"line 1: no end\n".as_slice()
    );
    for (count, expected) in [(64, ""), (65, "line 1: nesting passes 64\n")] {
        let mut line = between(rt.alloc(), b"show ", count, b'(')?;
        let back = between(rt.alloc(), b"t", count, b')')?;
        line.extend_from_slice(&back)?;
        let text = faults(rt.alloc(), &line)?;
        assert_eq!(rt; text.as_slice(), expected.as_bytes(), "at {count}");
    }
    Ok(())
}
