//! What no clause says: that reads and writes can succeed, and what a failure in mid-stream leaves.
use super::*;
use std::alloc::{AllocError, Global};
use std::test::Fail;

const LETTERS: [u8; 10] = *b"abcdefghij";

// The letters in pieces of three, failing at one call, or at none for 0.
fn letters(alloc: Global, failing: u32) -> Result<MemSource, AllocError> {
    let bytes = LETTERS.to_vec(alloc)?;
    let fails = [failing].to_vec(alloc)?;
    Ok(MemSource::new(bytes, 3, fails))
}

#[test]
fn a_source_is_read_to_its_end_or_up_to_its_failing_call(rt: HostRuntime) -> Result<(), Fail> {
    for (most, failing, stop, left) in [
        (10, 0, None, ""),
        (9, 0, Some(ReadStop::TooLong), ""),
        (10, 1, Some(ReadStop::Failed), "abcdefghij"),
        (10, 2, Some(ReadStop::Failed), "defghij"),
        (10, 5, Some(ReadStop::Failed), ""),
        (10, 6, None, ""),
        (0, 0, Some(ReadStop::TooLong), "defghij"),
    ] {
        let mut source = letters(rt.alloc(), failing)?;
        let answer = get_all(rt.alloc(), &mut source, most);
        assert_eq!(rt;
            source.left(),
            left.as_bytes(),
            "most {most}, failing {failing}"
        );
        assert_eq!(rt;
            answer.as_ref().err().copied(),
            stop,
            "most {most}, failing {failing}"
        );

        // After a stop the next call goes on with what is left.
        let (bytes, expected) = match answer {
            Ok(bytes) => (bytes, LETTERS.as_slice()),
            Err(_) => (get_all(rt.alloc(), &mut source, 10)?, left.as_bytes()),
        };
        assert_eq!(rt;
            bytes.as_slice(),
            expected,
            "most {most}, failing {failing}"
        );
    }
    Ok(())
}

#[test]
fn no_call_follows_the_read_that_passes_the_limit(rt: HostRuntime) -> Result<(), Fail> {
    let mut source = letters(rt.alloc(), 5)?;
    for stop in [ReadStop::TooLong, ReadStop::Failed] {
        let answer = get_all(rt.alloc(), &mut source, 9);
        assert_eq!(rt; answer.map(|bytes| bytes.len()), Err(stop));
    }
    Ok(())
}

#[test]
fn a_sink_takes_a_text_whole_or_up_to_its_failing_call(rt: HostRuntime) -> Result<(), Fail> {
    for (room, take, failing, answer, written) in [
        (64, 2, 0, Ok(()), "1112\n"),
        (64, 2, 1, Err(Failed), ""),
        (64, 2, 2, Err(Failed), "11"),
        (64, 2, 3, Err(Failed), "1112"),
        (64, 2, 4, Ok(()), "1112\n"),
        (5, 64, 0, Ok(()), "1112\n"),
        (4, 64, 0, Err(Failed), "1112"),
        (0, 1, 0, Err(Failed), ""),
    ] {
        let fails = [failing].to_vec(rt.alloc())?;
        let mut sink = MemSink::new(rt.alloc(), room, take, fails).map_err(|_| AllocError)?;
        let answered = put_all(&mut sink, b"1112\n");
        assert_eq!(rt;
            answered,
            answer,
            "room {room}, take {take}, failing {failing}"
        );
        assert_eq!(rt; sink.written(), written.as_bytes(), "failing {failing}");
    }
    Ok(())
}

#[test]
fn no_bytes_are_written_without_a_call(rt: HostRuntime) -> Result<(), Fail> {
    let fails = [1].to_vec(rt.alloc())?;
    let mut sink = MemSink::new(rt.alloc(), 0, 1, fails).map_err(|_| AllocError)?;
    assert_eq!(rt; put_all(&mut sink, b""), Ok(()));
    Ok(())
}

#[test]
fn a_sure_source_is_read_to_its_end(rt: HostRuntime) -> Result<(), Fail> {
    let mut source = SureSource::new(LETTERS.to_vec(rt.alloc())?);
    let bytes = get_all(rt.alloc(), &mut source, 10)?;
    assert_eq!(rt; bytes.as_slice(), LETTERS.as_slice());
    Ok(())
}

#[test]
fn readers_and_writers_of_std_pass_bytes_on(rt: HostRuntime) -> Result<(), Fail> {
    let mut source = StdSource::new(LETTERS.as_slice());
    let bytes = get_all(rt.alloc(), &mut source, 10)?;
    assert_eq!(rt; bytes.as_slice(), LETTERS.as_slice());

    let mut page = [0u8; 10];
    let mut sink = StdSink::new(page.as_mut_slice());
    assert_eq!(rt; put_all(&mut sink, &bytes), Ok(()));
    assert_eq!(rt; put_all(&mut sink, b"k"), Err(Failed));
    assert_eq!(rt; page, LETTERS);
    Ok(())
}
