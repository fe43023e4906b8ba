// A controller is made and taken apart.
use crate::support::{CS, reads, refused_make, writes};
use media::memory::BusMemory;
use media::shelf::Shelf;
use memories::board::Board;
use rl11::controller::Controller;
use shelves::cards::CardShelf;

#[test]
fn a_kind_above_two_hands_both_back(rt: HostRuntime) {
    let mut words = [7, 8];
    let shelf = CardShelf::new([1, 2, 0, 0, 0, 0, 0, 0], &mut []);
    let (shelf, memory) = refused_make(&rt, [1, 2, 0, 3], shelf, Board::new(&mut words));
    assert_eq!(rt; shelf.count(), 2);
    assert!(rt; memory.read(2) == Ok(8));
}

#[test]
fn taken_apart_it_gives_both_back(rt: HostRuntime) {
    let mut words = [7, 8];
    let shelf = CardShelf::new([1, 2, 0, 0, 0, 0, 0, 0], &mut []);
    let mut controller = Controller::fresh([None, None, None, None], shelf, Board::new(&mut words));
    reads(&rt, &mut controller, CS, 0o200);
    writes(&rt, &mut controller, 2, 9);
    let (shelf, memory) = controller.into_parts();
    assert_eq!(rt; shelf.count(), 2);
    assert!(rt; memory.read(0) == Ok(7));
    assert!(rt; memory.read(2) == Ok(9));
}
