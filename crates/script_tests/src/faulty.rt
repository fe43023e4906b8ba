// Lines that cannot be read.
use crate::support::refused;
use script::faults::{Fault, LineFault};
use script::scripts::ScriptError;
use std::test::Fail;

#[test]
fn numbers_that_are_wrong(rt: HostRuntime) -> Result<(), Fail> {
    let heap = rt.alloc();
    refused(&rt, heap, b"write 774400 200000", 1, Fault::TooLarge)?;
    refused(&rt, heap, b"read 40000000000", 1, Fault::TooLarge)?;
    refused(&rt, heap, b"load 256 0", 1, Fault::TooLarge)?;
    refused(&rt, heap, b"sector 0 65536", 1, Fault::TooLarge)?;
    refused(&rt, heap, b"read 774408", 1, Fault::NotANumber)?;
    refused(&rt, heap, b"poke 0 1 9", 1, Fault::NotANumber)?;
    refused(&rt, heap, b"kind -1", 1, Fault::NotANumber)?;
    refused(
        &rt,
        heap,
        b"kind 99999999999999999999x",
        1,
        Fault::NotANumber,
    )?;
    refused(&rt, heap, b"memory bord 4", 1, Fault::NotANumber)
}

#[test]
fn words_that_are_unknown(rt: HostRuntime) -> Result<(), Fail> {
    let heap = rt.alloc();
    refused(&rt, heap, b"init\ntick\n", 2, Fault::UnknownWord)?;
    refused(&rt, heap, b"Read 0", 1, Fault::UnknownWord)?;
    refused(&rt, heap, b"reads 0", 1, Fault::UnknownWord)?;
    refused(
        &rt,
        heap,
        b" # a comment begins a line",
        1,
        Fault::UnknownWord,
    )?;
    refused(&rt, heap, b"shelf round 1", 1, Fault::UnknownWord)?;
    refused(
        &rt,
        heap,
        b"shelf cards 0 0 0 0 0 0 0 0 rooms 1",
        1,
        Fault::UnknownWord,
    )
}

#[test]
fn words_that_are_missing(rt: HostRuntime) -> Result<(), Fail> {
    let heap = rt.alloc();
    refused(&rt, heap, b"\n\nread", 3, Fault::MissingWord)?;
    refused(&rt, heap, b"write 0", 1, Fault::MissingWord)?;
    refused(&rt, heap, b"drives 1 1 2", 1, Fault::MissingWord)?;
    refused(&rt, heap, b"shelf", 1, Fault::MissingWord)?;
    refused(&rt, heap, b"memory", 1, Fault::MissingWord)?;
    refused(&rt, heap, b"memory 0", 1, Fault::MissingWord)?;
    refused(&rt, heap, b"card 0 0", 1, Fault::MissingWord)?;
    refused(&rt, heap, b"poke 0", 1, Fault::MissingWord)
}

#[test]
fn words_too_many(rt: HostRuntime) -> Result<(), Fail> {
    let heap = rt.alloc();
    refused(
        &rt,
        heap,
        b"grant\n# all is well\nread 0 0",
        3,
        Fault::ExtraWord,
    )?;
    refused(&rt, heap, b"init 0", 1, Fault::ExtraWord)?;
    refused(&rt, heap, b"drives 0 0 0 0 0", 1, Fault::ExtraWord)?;
    refused(&rt, heap, b"shelf flat 1 1", 1, Fault::ExtraWord)?;
    refused(&rt, heap, b"memory stack 0 1 2 3", 1, Fault::ExtraWord)
}

#[test]
fn more_words_than_a_card_holds(rt: HostRuntime) -> Result<(), Fail> {
    let heap = rt.alloc();
    let mut text = Vec::from_slice(heap, b"card 0 0 0")?;
    for _ in 0..129 {
        text.extend_from_slice(b" 7")?;
    }
    refused(&rt, heap, text.as_slice(), 1, Fault::ExtraWord)
}

#[test]
fn set_up_too_late(rt: HostRuntime) -> Result<(), Fail> {
    let heap = rt.alloc();
    refused(&rt, heap, b"init\ndrives 0 0 0 0", 2, Fault::LateSetup)?;
    refused(&rt, heap, b"kind 0\npoke 0 1", 2, Fault::LateSetup)?;
    refused(
        &rt,
        heap,
        b"memory 0 1\nmemory board 1",
        2,
        Fault::LateSetup,
    )
}

#[test]
fn set_up_twice(rt: HostRuntime) -> Result<(), Fail> {
    let heap = rt.alloc();
    refused(
        &rt,
        heap,
        b"drives 0 0 0 0\ndrives 0 0 0 0",
        2,
        Fault::SetupTwice,
    )?;
    refused(
        &rt,
        heap,
        b"shelf flat 1\n\nshelf flat 1",
        3,
        Fault::SetupTwice,
    )?;
    refused(
        &rt,
        heap,
        b"memory board 1\nmemory stack 0 1 1",
        2,
        Fault::SetupTwice,
    )
}

#[test]
fn lines_of_many_characters(rt: HostRuntime) -> Result<(), Fail> {
    let heap = rt.alloc();
    let mut text = vec![in heap; b'x'; 100_000]?;
    refused(&rt, heap, text.as_slice(), 1, Fault::UnknownWord)?;
    text.clear();
    text.extend_from_slice(b"init\nread ")?;
    for _ in 0..100_000 {
        text.push(b'7')?;
    }
    refused(&rt, heap, text.as_slice(), 2, Fault::TooLarge)
}

#[test]
fn faults_in_words(rt: HostRuntime) -> Result<(), Fail> {
    let heap = rt.alloc();
    let fault = LineFault {
        line: 12,
        fault: Fault::UnknownWord,
    };
    assert_eq!(rt; fault.to_string(heap)?.as_str(), "line 12: unknown word");
    assert_eq!(rt;
        ScriptError::Line(fault).to_string(heap)?.as_str(),
        "line 12: unknown word"
    );
    Ok(())
}
