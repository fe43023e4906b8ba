// What is told of scripts.
use runner::transcripts::transcript;
use std::alloc::Global;
use std::process::Abort;
use std::test::Fail;

// What is told of a script is this text.
fn tells(rt: &impl Abort, heap: Global, script: &[u8], told: &str) -> Result<(), Fail> {
    let text = transcript(heap, script).map_err(|_| Fail::new("no memory"))?;
    assert_eq!(rt; text.as_str(), told);
    Ok(())
}

#[test]
fn nothing_to_run(rt: HostRuntime) -> Result<(), Fail> {
    tells(&rt, rt.alloc(), b"", "")?;
    tells(&rt, rt.alloc(), b"# a comment\n\ndrives 1 0 0 0\n", "")
}

#[test]
fn a_faulty_line(rt: HostRuntime) -> Result<(), Fail> {
    tells(
        &rt,
        rt.alloc(),
        b"init\nread 0\n\nturn 0\n",
        "line 4: unknown word\n",
    )
}

#[test]
fn a_card_too_many(rt: HostRuntime) -> Result<(), Fail> {
    tells(
        &rt,
        rt.alloc(),
        b"shelf cards 1 0 0 0 0 0 0 0 room 1\ncard 0 0 0\ncard 0 1 0\npoke 1 0\ninit\n",
        "line 3: there is no room for this card\n",
    )?;
    tells(
        &rt,
        rt.alloc(),
        b"card 0 0 0\ninit\n",
        "line 1: there is no room for this card\n",
    )
}

#[test]
fn a_poke_at_an_absent_word(rt: HostRuntime) -> Result<(), Fail> {
    tells(
        &rt,
        rt.alloc(),
        b"memory board 2\npoke 0 1 2 3\ninit\n",
        "line 2: there is no memory word at 000004\n",
    )?;
    tells(
        &rt,
        rt.alloc(),
        b"poke 37777777776 1\n",
        "line 1: there is no memory word at 37777777776\n",
    )
}

#[test]
fn a_kind_that_is_refused(rt: HostRuntime) -> Result<(), Fail> {
    tells(
        &rt,
        rt.alloc(),
        b"drives 3 0 0 0\ninit\n",
        "drives 3 0 0 0 -> refused 1\n",
    )
}

#[test]
fn a_flat_shelf(rt: HostRuntime) -> Result<(), Fail> {
    tells(
        &rt,
        rt.alloc(),
        b"drives 0 2 0 0\nshelf flat 2\nkind  0\nkind 1\nload 1 0\nload 1 0\nsector 0 40960\nmemory 0 2\n",
        "kind 0 -> 2\nkind 1 -> refused 9\nload 1 0 -> done\nload 1 0 -> refused 8\nsector 0 40960 -> refused 14\nmemory 0 2 -> absent absent\n",
    )
}
