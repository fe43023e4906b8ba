// Two memories, one above the other.
use crate::support::{no_word, reads, writes};
use makes::one_word::OneWord;
use memories::board::Board;
use memories::stack::Stack;
use std::test::Fail;

#[test]
fn odd_border_is_lowered(rt: HostRuntime) -> Result<(), Fail> {
    let mut low = [1, 2];
    let mut high = [3, 4];
    let mut stack = Stack::new(3, Board::new(&mut low), Board::new(&mut high));
    reads(&rt, &stack, 0, 1);
    reads(&rt, &stack, 2, 3);
    reads(&rt, &stack, 4, 4);
    no_word(&rt, &mut stack, 3, 3);
    no_word(&rt, &mut stack, 6, 4);
    writes(&rt, &mut stack, 2, 7)?;
    drop(stack);
    assert_eq!(rt; low, [1, 2]);
    assert_eq!(rt; high, [7, 4]);
    Ok(())
}

#[test]
fn border_zero(rt: HostRuntime) -> Result<(), Fail> {
    for border in [0, 1] {
        let mut low = [1, 2];
        let mut high = [3];
        let mut stack = Stack::new(border, Board::new(&mut low), Board::new(&mut high));
        writes(&rt, &mut stack, 0, 7)?;
        no_word(&rt, &mut stack, 2, 4);
        drop(stack);
        assert_eq!(rt; low, [1, 2]);
        assert_eq!(rt; high, [7]);
    }
    Ok(())
}

#[test]
fn border_beyond_the_bus(rt: HostRuntime) -> Result<(), Fail> {
    for border in [0o760000, 0o760001, u32::MAX] {
        let mut low = [1, 2];
        let mut high = [3, 4];
        let mut stack = Stack::new(border, Board::new(&mut low), Board::new(&mut high));
        writes(&rt, &mut stack, 2, 7)?;
        no_word(&rt, &mut stack, 4, 4);
        no_word(&rt, &mut stack, 0o760000, 4);
        no_word(&rt, &mut stack, u32::MAX - 1, 4);
        drop(stack);
        assert_eq!(rt; low, [1, 7]);
        assert_eq!(rt; high, [3, 4]);
    }
    Ok(())
}

#[test]
fn upper_ends_with_the_bus(rt: HostRuntime) -> Result<(), Fail> {
    let mut high = [1, 2, 3, 4];
    let mut stack = Stack::new(0o757774, OneWord::new(9), Board::new(&mut high));
    reads(&rt, &stack, 0o757774, 1);
    writes(&rt, &mut stack, 0o757776, 7)?;
    no_word(&rt, &mut stack, 0o757772, 4);
    no_word(&rt, &mut stack, 0o760000, 4);
    no_word(&rt, &mut stack, 0o760002, 4);
    drop(stack);
    assert_eq!(rt; high, [1, 7, 3, 4]);
    Ok(())
}

#[test]
fn lower_ends_at_the_border(rt: HostRuntime) -> Result<(), Fail> {
    let mut low = [1, 2, 3, 4];
    let mut stack = Stack::new(4, Board::new(&mut low), OneWord::new(9));
    reads(&rt, &stack, 2, 2);
    reads(&rt, &stack, 4, 9);
    writes(&rt, &mut stack, 4, 8)?;
    no_word(&rt, &mut stack, 6, 4);
    let (board, word) = stack.into_parts();
    reads(&rt, &board, 4, 3);
    reads(&rt, &word, 0, 8);
    drop(board);
    assert_eq!(rt; low, [1, 2, 3, 4]);
    Ok(())
}

#[test]
fn three_parts(rt: HostRuntime) -> Result<(), Fail> {
    let mut low = [1, 9];
    let mut high = [3, 4];
    // Above the low board: 2 at 0, nothing at 2, 3 at 4 and a word at 6.
    let above = Stack::new(4, OneWord::new(2), Board::new(&mut high));
    let mut stack = Stack::new(2, Board::new(&mut low), above);
    reads(&rt, &stack, 0, 1);
    reads(&rt, &stack, 2, 2);
    no_word(&rt, &mut stack, 4, 4);
    reads(&rt, &stack, 6, 3);
    writes(&rt, &mut stack, 8, 7)?;
    no_word(&rt, &mut stack, 10, 4);
    drop(stack);
    assert_eq!(rt; low, [1, 9]);
    assert_eq!(rt; high, [3, 7]);
    Ok(())
}

#[test]
fn parts_come_apart(rt: HostRuntime) -> Result<(), Fail> {
    let mut stack = Stack::new(2, OneWord::new(1), OneWord::new(2));
    writes(&rt, &mut stack, 0, 7)?;
    writes(&rt, &mut stack, 2, 8)?;
    let (lower, upper) = stack.into_parts();
    reads(&rt, &lower, 0, 7);
    reads(&rt, &upper, 0, 8);
    Ok(())
}
