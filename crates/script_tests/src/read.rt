// Scripts that are read.
use crate::support::has_step;
use exchanges::calls::Call;
use media::shelf::SECTOR_WORDS;
use script::scripts::{CardLine, PokeLine, Script, read_script};
use script::setup::{MemorySetup, ShelfSetup};
use script::steps::{Look, Step};
use shelves::cards::Card;
use std::process::Abort;
use std::test::Fail;

// A script says nothing.
fn says_nothing(rt: &impl Abort, script: &Script) {
    assert_eq!(rt; script.drives, [0; 4]);
    assert_eq!(rt; script.shelf, ShelfSetup::Flat { kind: 1 });
    assert_eq!(rt; script.memory, MemorySetup::Board { words: 0 });
    assert_eq!(rt; script.cards.len(), 0);
    assert_eq!(rt; script.pokes.len(), 0);
    assert_eq!(rt; script.steps.len(), 0);
}

#[test]
fn scripts_that_say_nothing(rt: HostRuntime) -> Result<(), Fail> {
    let heap = rt.alloc();
    says_nothing(&rt, &read_script(heap, b"")?);
    says_nothing(&rt, &read_script(heap, b"\n\r\n \t \n")?);
    says_nothing(&rt, &read_script(heap, b"# nothing\n#read 0 0 0\n#")?);
    Ok(())
}

#[test]
fn a_bench_of_cards(rt: HostRuntime) -> Result<(), Fail> {
    let heap = rt.alloc();
    let script = read_script(
        heap,
        b"# a bench\ndrives 1 2 0 255\nshelf cards 1 2 0 0 0 0 0 3 room 40\ncard 7 40959 3 177777 5\nmemory stack 100000 4 8\npoke 1000 1 2\npoke 37777777776 3 4\n",
    )?;
    assert_eq!(rt; script.drives, [1, 2, 0, 255]);
    let kinds = [1, 2, 0, 0, 0, 0, 0, 3];
    assert_eq!(rt; script.shelf, ShelfSetup::Cards { kinds, room: 40 });
    let stack = MemorySetup::Stack {
        border: 0o100000,
        lower: 4,
        upper: 8,
    };
    assert_eq!(rt; script.memory, stack);
    let mut words = [0; SECTOR_WORDS];
    words[0] = 0o177777;
    words[1] = 5;
    let card = Card {
        pack: 7,
        block: 40_959,
        mark: 3,
        words,
    };
    assert!(rt; script.cards.len() == 1);
    assert_eq!(rt; script.cards[0], CardLine { line: 4, card });
    Ok(())
}

#[test]
fn words_poked_into_memory(rt: HostRuntime) -> Result<(), Fail> {
    let script = read_script(rt.alloc(), b"poke 1000 1 2\npoke 37777777776 3 4\n")?;
    let pokes = script.pokes.as_slice();
    assert!(rt; pokes.len() == 4);
    poked(&rt, pokes[0], 1, 0o1000, 1);
    poked(&rt, pokes[1], 1, 0o1002, 2);
    poked(&rt, pokes[2], 2, u32::MAX - 1, 3);
    poked(&rt, pokes[3], 2, u32::MAX, 4);
    Ok(())
}

fn poked(rt: &impl Abort, poke: PokeLine, line: usize, address: u32, word: u16) {
    assert_eq!(rt; poke.line, line);
    assert_eq!(rt; poke.address, address);
    assert_eq!(rt; poke.word, word);
}

#[test]
fn calls_of_every_sort(rt: HostRuntime) -> Result<(), Fail> {
    let script = read_script(
        rt.alloc(),
        b"read 774400\nwrite 774404 177600\ninit\ngrant\nload 0 255\nunload 1\nprotect 2\n",
    )?;
    assert_eq!(rt; script.steps.len(), 7);
    let address = 0o774400;
    has_step(
        &rt,
        &script,
        0,
        1,
        Step::Call(Call::Read { address }),
        "read 774400",
    );
    let write = Call::Write {
        address: 0o774404,
        word: 0o177600,
    };
    has_step(&rt, &script, 1, 2, Step::Call(write), "write 774404 177600");
    has_step(&rt, &script, 2, 3, Step::Call(Call::Init), "init");
    has_step(&rt, &script, 3, 4, Step::Call(Call::Grant), "grant");
    let load = Call::Load { unit: 0, pack: 255 };
    has_step(&rt, &script, 4, 5, Step::Call(load), "load 0 255");
    has_step(
        &rt,
        &script,
        5,
        6,
        Step::Call(Call::Unload { unit: 1 }),
        "unload 1",
    );
    has_step(
        &rt,
        &script,
        6,
        7,
        Step::Call(Call::Protect { unit: 2 }),
        "protect 2",
    );
    Ok(())
}

#[test]
fn looks_and_their_echoes(rt: HostRuntime) -> Result<(), Fail> {
    let script = read_script(
        rt.alloc(),
        b"memory board 16\n\n  sector\t0   0010 \r\nmemory 00 \t 2\r\nkind  1",
    )?;
    assert_eq!(rt; script.memory, MemorySetup::Board { words: 16 });
    assert_eq!(rt; script.steps.len(), 3);
    let sector = Look::Sector { pack: 0, block: 10 };
    has_step(&rt, &script, 0, 3, Step::Look(sector), "sector 0 0010");
    let memory = Look::Memory {
        address: 0,
        count: 2,
    };
    has_step(&rt, &script, 1, 4, Step::Look(memory), "memory 00 2");
    has_step(
        &rt,
        &script,
        2,
        5,
        Step::Look(Look::Kind { pack: 1 }),
        "kind 1",
    );
    Ok(())
}
