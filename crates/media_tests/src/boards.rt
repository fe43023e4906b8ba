// A board over a slice of words.
use crate::support::{all_are, no_word, reads, writes};
use memories::board::Board;
use std::test::Fail;

#[test]
fn words_in_their_places(rt: HostRuntime) -> Result<(), Fail> {
    let mut words = [1, 2, 3];
    let mut board = Board::new(&mut words);
    reads(&rt, &board, 0, 1);
    reads(&rt, &board, 2, 2);
    reads(&rt, &board, 4, 3);
    writes(&rt, &mut board, 4, 9)?;
    drop(board);
    assert_eq!(rt; words, [1, 2, 9]);
    Ok(())
}

#[test]
fn odd_before_absent(rt: HostRuntime) {
    let mut words = [1, 2, 3];
    let mut board = Board::new(&mut words);
    no_word(&rt, &mut board, 1, 3);
    no_word(&rt, &mut board, 5, 3);
    no_word(&rt, &mut board, 7, 3);
    no_word(&rt, &mut board, 0o760001, 3);
    no_word(&rt, &mut board, u32::MAX, 3);
    drop(board);
    assert_eq!(rt; words, [1, 2, 3]);
}

#[test]
fn beyond_the_slice(rt: HostRuntime) {
    let mut words = [1, 2, 3];
    let mut board = Board::new(&mut words);
    no_word(&rt, &mut board, 6, 4);
    no_word(&rt, &mut board, 0o757776, 4);
    no_word(&rt, &mut board, 0o760000, 4);
    no_word(&rt, &mut board, u32::MAX - 1, 4);
    no_word(&rt, &mut Board::new(&mut []), 0, 4);
    drop(board);
    assert_eq!(rt; words, [1, 2, 3]);
}

#[test]
fn longer_than_the_bus(rt: HostRuntime) -> Result<(), Fail> {
    let mut words = vec![in rt.alloc(); 5; 0o370010]?;
    let mut board = Board::new(&mut words);
    reads(&rt, &board, 0o757776, 5);
    writes(&rt, &mut board, 0o757776, 6)?;
    no_word(&rt, &mut board, 0o760000, 4);
    no_word(&rt, &mut board, 0o760016, 4);
    drop(board);
    assert!(rt; words.len() == 0o370010);
    all_are(&rt, &words[0..0o367777], 5);
    all_are(&rt, &words[0o370000..0o370010], 5);
    Ok(())
}
