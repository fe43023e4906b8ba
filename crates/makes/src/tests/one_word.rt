// A memory of one word above and below a board.
use crate::one_word::OneWord;
use media::memory::{BusMemory, MemoryRefusal};
use memories::board::Board;
use memories::stack::Stack;

#[test]
fn word_above_board(rt: HostRuntime) {
    let mut words = [1, 2, 3, 4];
    let mut stack = Stack::new(7, Board::new(&mut words), OneWord::new(9));
    assert_eq!(rt; stack.read(4), Ok(3));
    assert_eq!(rt; stack.read(6), Ok(9));
    assert_eq!(rt; stack.read(7), Err(MemoryRefusal::OddAddress));
    assert_eq!(rt; stack.read(8), Err(MemoryRefusal::NoWord));
    assert_eq!(rt; stack.write(6, 10), Ok(()));
    assert_eq!(rt; stack.write(2, 11), Ok(()));
    assert_eq!(rt; stack.write(8, 12), Err(MemoryRefusal::NoWord));
    assert_eq!(rt; stack.write(3, 12), Err(MemoryRefusal::OddAddress));
    assert_eq!(rt; stack.read(6), Ok(10));
    assert_eq!(rt; stack.read(2), Ok(11));
    let (board, one) = stack.into_parts();
    assert_eq!(rt; board.read(2), Ok(11));
    assert_eq!(rt; board.read(6), Ok(4));
    assert_eq!(rt; one.read(0), Ok(10));
    drop(board);
    assert_eq!(rt; words, [1, 11, 3, 4]);
}

#[test]
fn word_below_board(rt: HostRuntime) {
    let mut words = [5, 6];
    let mut stack = Stack::new(0o757776, OneWord::new(1), Board::new(&mut words));
    assert_eq!(rt; stack.read(0), Ok(1));
    assert_eq!(rt; stack.read(2), Err(MemoryRefusal::NoWord));
    assert_eq!(rt; stack.read(0o757776), Ok(5));
    assert_eq!(rt; stack.read(0o760000), Err(MemoryRefusal::NoWord));
    assert_eq!(rt; stack.read(0o760001), Err(MemoryRefusal::OddAddress));
    assert_eq!(rt; stack.write(0o760000, 7), Err(MemoryRefusal::NoWord));
    assert_eq!(rt; stack.write(0, 8), Ok(()));
    assert_eq!(rt; stack.read(0), Ok(8));
}
