//! What the program answers, and what it leaves where its source or its sink fails.

ghost use Rattle.std.specs.Prelude.{◌<◌};

use crate::program::run;
use fr_io::{MemSink, MemSource};
use std::alloc::Global;
use std::process::Abort;
use std::test::Fail;

/// The first Grigorchuk group, 6 lines.
const GRIGORCHUK: &str = "group\na = (1,2)\nb = <a,c>\nc = <a,d>\nd = <1,b>\nend\n";

/// The block of the adding machine, 3 lines.
const ADDING: &str = "group\nt = <1,t>(1,2)\nend\n";

/// The Basilica group, 4 lines.
const BASILICA: &str = "group\na = <1,b>\nb = <1,a>(1,2)\nend\n";

/// An element of linear activity, 4 lines.
const LINEAR: &str = "group\ns = <s,t>\nt = <1,t>(1,2)\nend\n";

/// Elements of exponential activity, 5 lines.
const EXPONENTIAL: &str = "group\np = <q,p>(1,2)\nq = <q,p>\nr = <1,p>\nend\n";

/// The nucleus of the adding machine.
const NUCLEUS: &str =
    "nucleus 3 depth 1\nelement 1\nstates 1\n1 = <1,1>\nelement 2\nstates 2\n1 = <1,2>(1,2)\n2 = <2,2>\nelement 3\nstates 2\n1 = <2,1>(1,2)\n2 = <2,2>\n";

/// Lines below the Grigorchuk group that ask each in its way.
const ASKS: &str =
    "show a*b\neq (a*d)^4 1\norder a*c 8\nact a*b*a 1122\neq b^a [a,b]\nwreath b^a\nclass [a,b]\neq (a*b)@1 c\nray b (2)\nray b 1(2)\nstates b*c\nact b 112\norder a*b 15\nshow 1\nzed b\n";

/// Their answers.
const ANSWERS: &str =
    "states 6\n1 = <2,3>(1,2)\n2 = <3,4>\n3 = <5,5>(1,2)\n4 = <5,6>\n5 = <5,5>\n6 = <3,2>\nequal\n8\n1112\ndiffer at 11: 11 / 12\n<2,3>\nbounded\nequal\n(2)\n11(2)\n5\n122\npasses 15\nstates 1\n1 = <1,1>\nline 21: unknown statement\n";

/// What a run left.
#[derive(Debug, Drop)]
struct Finished {
    status: u8,
    text: Vec<u8>,
    said: Vec<u8>,
}

/// Runs with these words over a source that gives so many bytes at a time and a sink that takes so many.
fn finish(
    alloc: Global,
    words: &[&str],
    script: &[u8],
    piece: u32,
    read_fails: &[u32],
    take: u32,
    write_fails: &[u32],
) -> Result<Finished, Fail>
    requires piece { 0 < piece }
    requires take { 0 < take }
{
    let bytes = Vec::from_slice(alloc, script)?;
    let mut input = MemSource::new(bytes, piece, Vec::from_slice(alloc, read_fails)?);
    let mut out = MemSink::new(alloc, 4096, take, Vec::from_slice(alloc, write_fails)?)?;
    let mut err = MemSink::new(alloc, 4096, 4096, Vec::new(alloc))?;
    let mut given = Vec::new(alloc);
    for word in words {
        given.push(String::from_str(alloc, word)?)?;
    }
    let status = run(alloc, &given, &mut input, &mut out, &mut err);
    Ok(Finished {
        status,
        text: Vec::from_slice(alloc, out.written())?,
        said: Vec::from_slice(alloc, err.written())?,
    })
}

/// Runs each of these rows: lines below a block, with their text and status.
fn answer(
    rt: &impl Abort,
    alloc: Global,
    block: &str,
    rows: &[(&str, &str, u8)],
) -> Result<(), Fail> {
    for (lines, text, status) in rows {
        let script = format!(in alloc; "{block}{lines}")?;
        let ran = finish(alloc, &[], script.as_bytes(), 8, &[], 64, &[])?;
        assert_eq!(rt; ran.text.as_slice(), text.as_bytes(), "{lines}");
        assert_eq!(rt; ran.status, *status, "{lines}");
        assert_eq!(rt; ran.said.len(), 0, "{lines}");
    }
    Ok(())
}

#[test]
fn answers_below_the_adding_machine(rt: HostRuntime) -> Result<(), Fail> {
    answer(
        &rt,
        rt.alloc(),
        ADDING,
        &[
            ("act t 2221", "1112\n", 0),
            ("act t -", "-\n", 0),
            ("states t^1024", "12\n", 0),
            ("order t 100", "passes 100\n", 0),
            ("ray t (2)", "(1)\n", 0),
            ("ray t 12(21)", "22(21)\n", 0),
            ("ray t (1)", "2(1)\n", 0),
            ("ray t 12(12)", "2(21)\n", 0),
            ("ray 1 12(12)", "(12)\n", 0),
            ("nucleus t", NUCLEUS, 0),
            ("let t = t", "", 0),
            (
                "let t = t*t\nstates t\nlet t = t*t\nstates t\nlet t = z\nstates t",
                "3\n4\nline 8: unknown name\n4\n",
                1,
            ),
        ],
    )
}

#[test]
fn answers_below_groups(rt: HostRuntime) -> Result<(), Fail> {
    answer(
        &rt,
        rt.alloc(),
        GRIGORCHUK,
        &[
            (
                "show b",
                "states 5\n1 = <2,3>\n2 = <4,4>(1,2)\n3 = <2,5>\n4 = <4,4>\n5 = <4,1>\n",
                0,
            ),
            ("eq b*c*d 1", "equal\n", 0),
            ("eq a*b b*a", "differ at 11: 21 / 22\n", 0),
            ("order a*b 16", "16\n", 0),
            ("order a*b 15", "passes 15\n", 0),
            ("order a 0", "passes 0\n", 0),
            ("class a", "finitary 1\n", 0),
            ("class b", "bounded\n", 0),
            ("class 1", "finitary 0\n", 0),
            (ASKS, ANSWERS, 1),
        ],
    )?;
    answer(
        &rt,
        rt.alloc(),
        LINEAR,
        &[
            ("class s", "polynomial 1\n", 0),
            ("nucleus s", "line 5: nucleus passes 256\n", 1),
        ],
    )?;
    answer(
        &rt,
        rt.alloc(),
        EXPONENTIAL,
        &[
            ("class p", "exponential at - by 12 22\n", 0),
            ("class r", "exponential at 2 by 12 22\n", 0),
        ],
    )
}

#[test]
fn nuclei_begin_so(rt: HostRuntime) -> Result<(), Fail> {
    let alloc = rt.alloc();
    for (block, line, begins) in [
        (GRIGORCHUK, "nucleus a, b, c, d", "nucleus 5 depth 1\n"),
        (BASILICA, "nucleus a, b", "nucleus 7 depth 2\n"),
    ] {
        let script = format!(in alloc; "{block}{line}")?;
        let ran = finish(alloc, &[], script.as_bytes(), 64, &[], 64, &[])?;
        assert!(rt; ran.text.starts_with(begins.as_bytes()), "{line}");
        assert_eq!(rt; ran.status, 0, "{line}");
    }
    Ok(())
}

#[test]
fn refuses_lines(rt: HostRuntime) -> Result<(), Fail> {
    answer(
        &rt,
        rt.alloc(),
        ADDING,
        &[
            ("act u 1", "line 4: unknown name\n", 1),
            (
                "act t 13\nfrob t\nact t 21",
                "line 4: letter out of range\nline 5: unknown statement\n12\n",
                1,
            ),
            ("act t 12 12", "line 4: syntax at 10\n", 1),
            ("act t", "line 4: syntax at 6\n", 1),
            ("order t 1000001", "line 4: number passes 1000000\n", 1),
            (
                "group\na = (1,2)\na = (1,2)\nend\nact a 1",
                "line 6: name taken\nline 8: unknown name\n",
                1,
            ),
            ("group\na = <b,1>\nend", "line 5: unknown name\n", 1),
            ("group\na = <t,1>\nend", "line 5: unknown name\n", 1),
            (
                "group\na = <1,1>(1,1)\nend",
                "line 5: not a permutation\n",
                1,
            ),
            (
                "group\na = <1>\nend",
                "line 5: wrong number of sections\n",
                1,
            ),
            ("group\nt = ()\nend\nact t 21", "21\n", 0),
            ("group", "line 4: no end\n", 1),
            ("alphabet 2", "line 4: alphabet must be first\n", 1),
        ],
    )
}

// Lines that no table here writes: brackets round a name, and bytes of one kind behind it.
#[test]
fn refuses_nested_and_long_lines(rt: HostRuntime) -> Result<(), Fail> {
    let alloc = rt.alloc();
    let shown = "states 2\n1 = <2,1>(1,2)\n2 = <2,2>\n";
    for (brackets, byte, count, text, status) in [
        (65, b' ', 0, "line 4: nesting passes 64\n", 1),
        (64, b' ', 0, shown, 0),
        (0, 195, 1, "line 4: bad byte at 7\n", 1),
        (0, b' ', 4091, "line 4: line too long\n", 1),
        (0, b' ', 4090, shown, 0),
    ] {
        let mut script = Vec::from_slice(alloc, ADDING.as_bytes())?;
        script.extend_from_slice(b"show ")?;
        script.extend_from_slice(&vec![in alloc; b'('; brackets]?)?;
        script.extend_from_slice(b"t")?;
        script.extend_from_slice(&vec![in alloc; b')'; brackets]?)?;
        script.extend_from_slice(&vec![in alloc; byte; count]?)?;
        let ran = finish(alloc, &[], &script, 4096, &[], 64, &[])?;
        assert_eq!(rt; ran.text.as_slice(), text.as_bytes(), "{brackets} {count}");
        assert_eq!(rt; ran.status, status, "{brackets} {count}");
    }
    Ok(())
}

#[test]
fn answers_whole_scripts(rt: HostRuntime) -> Result<(), Fail> {
    answer(
        &rt,
        rt.alloc(),
        "",
        &[
            ("", "", 0),
            ("group\nt = <1,t>(1,2)", "line 1: no end\n", 1),
            (
                "group\na = <1,1>(1,1)\nend",
                "line 2: not a permutation\n",
                1,
            ),
            (
                "group\na = <1>\nend",
                "line 2: wrong number of sections\n",
                1,
            ),
            (
                "group\na = (1,2)\na = (1,2)\nend",
                "line 3: name taken\n",
                1,
            ),
            (
                "alphabet 3\ngroup\nr = <1,1,r>(1,2,3)\nend\nact r 332",
                "113\n",
                0,
            ),
            ("alphabet 9", "line 1: alphabet out of range\n", 1),
        ],
    )
}

/// Appends the lines of a cycle of elements: each has the next one as both sections, and the last puts out the other letter.
fn add_cycle(alloc: Global, name: &str, count: u32, script: &mut Vec<u8>) -> Result<(), Fail> {
    for k in 1..count {
        let next = k + 1;
        let line = format!(in alloc; "{name}{k} = <{name}{next},{name}{next}>\n")?;
        script.extend_from_slice(line.as_bytes())?;
    }
    let line = format!(in alloc; "{name}{count} = <{name}1,{name}1>(1,2)\n")?;
    script.extend_from_slice(line.as_bytes())?;
    Ok(())
}

#[test]
fn refuses_large_elements(rt: HostRuntime) -> Result<(), Fail> {
    let alloc = rt.alloc();
    for (a_count, b_count, line, text) in [
        (257, 256, "states a1*b1", "line 516: pairs pass 65536\n"),
        (257, 255, "states a1*b1", "line 515: states pass 1024\n"),
        (
            257,
            0,
            "ray a1 (1111111111111112)",
            "line 260: ray passes 4096\n",
        ),
        (64, 0, "nucleus a1", "line 67: sections pass 64\n"),
        (63, 0, "nucleus a1", "line 66: nucleus passes 256\n"),
    ] {
        let mut script = Vec::from_slice(alloc, b"group\n")?;
        add_cycle(alloc, "a", a_count, &mut script)?;
        if b_count > 0 {
            add_cycle(alloc, "b", b_count, &mut script)?;
        }
        let end = format!(in alloc; "end\n{line}\n")?;
        script.extend_from_slice(end.as_bytes())?;
        let ran = finish(alloc, &[], &script, 4096, &[], 4096, &[])?;
        assert_eq!(rt; ran.text.as_slice(), text.as_bytes());
        assert_eq!(rt; ran.status, 1);
    }
    Ok(())
}

// The charge of the names is 1,024 and 1,023 and so on down to 2.
#[test]
fn a_block_may_be_charged_the_most(rt: HostRuntime) -> Result<(), Fail> {
    let alloc = rt.alloc();
    for (count, text, status) in [
        (1023, "1024\n", 0),
        (
            1024,
            "line 2: states pass 1024\nline 1027: unknown name\n",
            1,
        ),
    ] {
        let mut script = Vec::from_slice(alloc, b"group\n")?;
        for k in 1..count {
            let next = k + 1;
            let line = format!(in alloc; "x{k} = <x{next},1>\n")?;
            script.extend_from_slice(line.as_bytes())?;
        }
        let end = format!(in alloc; "x{count} = (1,2)\nend\nstates x1\n")?;
        script.extend_from_slice(end.as_bytes())?;
        let ran = finish(
            alloc,
            &["--states", "1048576"],
            &script,
            4096,
            &[],
            4096,
            &[],
        )?;
        assert_eq!(rt; ran.text.as_slice(), text.as_bytes(), "{count}");
        assert_eq!(rt; ran.status, status, "{count}");
    }
    Ok(())
}

// The charge of the block is 2 + 5 + 5 + 5.
#[test]
fn stops_where_the_charge_passes_the_limit(rt: HostRuntime) -> Result<(), Fail> {
    let alloc = rt.alloc();
    for (states, status, said) in [
        ("17", 0, ""),
        ("16", 6, "frcalc: states pass 16\n"),
        ("0000000016", 6, "frcalc: states pass 16\n"),
        ("1", 6, "frcalc: states pass 1\n"),
    ] {
        let ran = finish(
            alloc,
            &["--states", states],
            GRIGORCHUK.as_bytes(),
            8,
            &[],
            64,
            &[],
        )?;
        assert_eq!(rt; ran.status, status, "{states}");
        assert_eq!(rt; ran.said.as_slice(), said.as_bytes(), "{states}");
        assert_eq!(rt; ran.text.len(), 0, "{states}");
    }
    Ok(())
}

// The script of the adding machine and its question have 36 bytes, so there are six reads and one at the end.
#[test]
fn fails_with_its_source_and_sink(rt: HostRuntime) -> Result<(), Fail> {
    let alloc = rt.alloc();
    let script = format!(in alloc; "{ADDING}act t 2221\n")?;
    for (reads, writes, text, status, said) in [
        ([1], [9], "", 3, "frcalc: read failed\n"),
        ([2], [9], "", 3, "frcalc: read failed\n"),
        ([6], [9], "", 3, "frcalc: read failed\n"),
        ([7], [9], "1112\n", 0, ""),
        ([9], [1], "", 4, "frcalc: write failed\n"),
        ([9], [2], "11", 4, "frcalc: write failed\n"),
        ([9], [3], "1112", 4, "frcalc: write failed\n"),
        ([9], [4], "1112\n", 0, ""),
    ] {
        let ran = finish(alloc, &[], script.as_bytes(), 8, &reads, 2, &writes)?;
        assert_eq!(rt;
            ran.text.as_slice(),
            text.as_bytes(),
            "reads {reads:?} writes {writes:?}"
        );
        assert_eq!(rt; ran.status, status, "reads {reads:?} writes {writes:?}");
        assert_eq!(rt; ran.said.as_slice(), said.as_bytes());
    }
    Ok(())
}

#[test]
fn refuses_long_scripts(rt: HostRuntime) -> Result<(), Fail> {
    let alloc = rt.alloc();
    for (byte, count, status) in [(b'\n', 4096, 0), (b'\n', 4097, 5), (b' ', 1_048_577, 5)] {
        let script = vec![in alloc; byte; count]?;
        let ran = finish(alloc, &[], &script, 4096, &[], 64, &[])?;
        assert_eq!(rt; ran.status, status, "{count}");
        assert_eq!(rt; ran.text.len(), 0);
    }
    Ok(())
}

// What words are accepted is said by the crate that reads them.
#[test]
fn refuses_words(rt: HostRuntime) -> Result<(), Fail> {
    let alloc = rt.alloc();
    for (first, second, status) in [
        ("--workers", "64", 0),
        ("--grain", "1024", 0),
        ("--states", "1048576", 0),
        ("--workers", "0", 2),
        ("--grain", "1025", 2),
        ("--states", "0", 2),
        ("--frob", "1", 2),
    ] {
        let ran = finish(alloc, &[first, second], b"", 8, &[], 64, &[])?;
        assert_eq!(rt; ran.status, status, "{first} {second}");
    }
    let ran = finish(alloc, &["--frob"], b"", 8, &[], 64, &[])?;
    assert_eq!(rt; ran.status, 2);
    assert_eq!(rt;
        ran.said.as_slice(),
        b"frcalc: usage: frcalc [--workers W] [--grain K] [--states N] [--census] [--demo SEED]\n".as_slice()
    );
    Ok(())
}

#[test]
fn counts_what_a_script_holds(rt: HostRuntime) -> Result<(), Fail> {
    let alloc = rt.alloc();
    for (block, lines, text, status) in [
        ("", "", "store 0\n", 0),
        (ADDING, "", "store 2\n", 0),
        (ADDING, "states t^1024", "12\nstore 12\n", 0),
        (ADDING, "eq t*t*zed 1", "line 4: unknown name\nstore 3\n", 1),
        (
            GRIGORCHUK,
            "eq b*c d\neq c*d b\neq d*b c",
            "equal\nequal\nequal\nstore 5\n",
            0,
        ),
    ] {
        let script = format!(in alloc; "{block}{lines}")?;
        let ran = finish(alloc, &["--census"], script.as_bytes(), 8, &[], 64, &[])?;
        assert_eq!(rt; ran.text.as_slice(), text.as_bytes(), "{lines}");
        assert_eq!(rt; ran.status, status, "{lines}");
    }
    Ok(())
}

// The source fails at its first read, which does not come.
#[test]
fn demonstrates(rt: HostRuntime) -> Result<(), Fail> {
    let alloc = rt.alloc();
    for (seed, states, text, status, said) in [
        (
            "0",
            "22584",
            "lines 2000\nequal 64\ncharge 22584\nstore 47\n",
            0,
            "",
        ),
        ("0", "22583", "", 6, "frcalc: states pass 22583\n"),
        (
            "1",
            "262144",
            "lines 2000\nequal 66\ncharge 22490\nstore 47\n",
            0,
            "",
        ),
        (
            "4294967295",
            "262144",
            "lines 2000\nequal 68\ncharge 22307\nstore 47\n",
            0,
            "",
        ),
    ] {
        let words = ["--demo", seed, "--states", states];
        let ran = finish(alloc, &words, b"", 8, &[1], 64, &[])?;
        assert_eq!(rt; ran.text.as_slice(), text.as_bytes(), "{seed}");
        assert_eq!(rt; ran.status, status, "{seed}");
        assert_eq!(rt; ran.said.as_slice(), said.as_bytes(), "{seed}");
    }
    Ok(())
}
