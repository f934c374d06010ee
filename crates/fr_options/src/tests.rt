//! What no clause says: that words are read where there is memory.

use super::*;
use std::alloc::Global;
use std::test::Fail;

fn read(alloc: Global, words: &[&str]) -> Result<Result<Options, WordsFault>, Fail> {
    let mut given = Vec::new(alloc);
    for word in words {
        given.push(String::from_str(alloc, word)?)?;
    }
    Ok(read_words(alloc, &given))
}

#[test]
fn words_give_options(rt: HostRuntime) -> Result<(), Fail> {
    let alloc = rt.alloc();
    let usual = Options {
        workers: 4,
        grain: 1,
        states: 262_144,
        census: false,
        demo: None,
    };
    for (words, options) in [
        ([].as_slice(), usual),
        (
            ["--workers", "64", "--grain=0001024"].as_slice(),
            Options {
                workers: 64,
                grain: 1024,
                ..usual
            },
        ),
        (
            ["--states", "1048576", "--"].as_slice(),
            Options {
                states: 1_048_576,
                ..usual
            },
        ),
        (
            ["--demo", "0", "--census"].as_slice(),
            Options {
                census: true,
                demo: Some(0),
                ..usual
            },
        ),
        (
            ["--demo=4294967295"].as_slice(),
            Options {
                demo: Some(u32::MAX),
                ..usual
            },
        ),
    ] {
        assert_eq!(rt; read(alloc, words)?, Ok(options));
    }
    Ok(())
}

#[test]
fn other_words_are_refused(rt: HostRuntime) -> Result<(), Fail> {
    let alloc = rt.alloc();
    for words in [
        ["--workers", "0"].as_slice(),
        ["--workers", "65"].as_slice(),
        ["--grain", "1025"].as_slice(),
        ["--states", "0"].as_slice(),
        ["--states", "1048577"].as_slice(),
        ["--states", "4294967297"].as_slice(),
        ["--states", "00000000001"].as_slice(),
        ["--states", ""].as_slice(),
        ["--states", "+1"].as_slice(),
        ["--states", "1 "].as_slice(),
        ["--states"].as_slice(),
        ["--states", "1", "--states", "1"].as_slice(),
        ["--demo", "4294967296"].as_slice(),
        ["--demo", "00000000000"].as_slice(),
        ["--demo", "-1"].as_slice(),
        ["--demo"].as_slice(),
        ["--demo", "1", "--demo", "1"].as_slice(),
        ["--census", "--census"].as_slice(),
        ["--census="].as_slice(),
        ["--census=true"].as_slice(),
        ["--frob"].as_slice(),
        ["--frob", "1"].as_slice(),
        ["1"].as_slice(),
        ["--help"].as_slice(),
        ["--version"].as_slice(),
    ] {
        assert_eq!(rt; read(alloc, words)?, Err(WordsFault::Usage));
    }
    Ok(())
}
