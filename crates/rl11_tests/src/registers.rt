// Registers and interrupts.
use crate::support::{CS, answers, declines, reads, writes};
use exchanges::calls::{Call, Reply};
use memories::board::Board;
use rl11::controller::Controller;
use shelves::cards::CardShelf;

#[test]
fn words_written_are_read_again(rt: HostRuntime) {
    let shelf = CardShelf::new([0; 8], &mut []);
    let mut controller = Controller::fresh([None; 4], shelf, Board::new(&mut []));
    writes(&rt, &mut controller, CS + 2, 0o177777);
    reads(&rt, &mut controller, CS + 2, 0o177776);
    writes(&rt, &mut controller, CS + 4, 0o123457);
    reads(&rt, &mut controller, CS + 4, 0o123457);
    writes(&rt, &mut controller, CS, 0o176277);
    reads(&rt, &mut controller, CS, 0o276);
    reads(&rt, &mut controller, CS + 2, 0o177776);
    writes(&rt, &mut controller, CS + 6, 0o70707);
    reads(&rt, &mut controller, CS + 6, 0);
}

#[test]
fn an_interrupt_waits_until_it_is_granted_or_withdrawn(rt: HostRuntime) {
    let shelf = CardShelf::new([0; 8], &mut []);
    let mut controller = Controller::fresh([None; 4], shelf, Board::new(&mut []));
    declines(&rt, &mut controller, Call::Grant, 6);
    writes(&rt, &mut controller, CS, 0o300);
    writes(&rt, &mut controller, CS, 0o300);
    answers(&rt, &mut controller, Call::Grant, Reply::Vector(0o160));
    declines(&rt, &mut controller, Call::Grant, 6);
    writes(&rt, &mut controller, CS, 0o300);
    declines(&rt, &mut controller, Call::Grant, 6);
    writes(&rt, &mut controller, CS, 0o200);
    writes(&rt, &mut controller, CS, 0o300);
    writes(&rt, &mut controller, CS, 0o100);
    answers(&rt, &mut controller, Call::Grant, Reply::Vector(0o160));
    answers(&rt, &mut controller, Call::Init, Reply::Done);
    writes(&rt, &mut controller, CS, 0o300);
    writes(&rt, &mut controller, CS, 0o200);
    declines(&rt, &mut controller, Call::Grant, 6);
}

#[test]
fn addresses_are_refused_in_order(rt: HostRuntime) {
    let shelf = CardShelf::new([0; 8], &mut []);
    let mut words = [1];
    let mut controller = Controller::fresh([None; 4], shelf, Board::new(&mut words));
    declines(&rt, &mut controller, Call::Read { address: 0o1000001 }, 2);
    declines(&rt, &mut controller, Call::Read { address: 0o777777 }, 3);
    declines(&rt, &mut controller, Call::Read { address: 2 }, 4);
    declines(&rt, &mut controller, Call::Read { address: CS + 8 }, 4);
    declines(
        &rt,
        &mut controller,
        Call::Write {
            address: 0o1000000,
            word: 0,
        },
        2,
    );
    declines(
        &rt,
        &mut controller,
        Call::Write {
            address: CS + 1,
            word: 0,
        },
        3,
    );
    declines(
        &rt,
        &mut controller,
        Call::Write {
            address: CS - 2,
            word: 0,
        },
        4,
    );
    writes(&rt, &mut controller, CS, 0);
    declines(
        &rt,
        &mut controller,
        Call::Write {
            address: CS + 1,
            word: 0,
        },
        3,
    );
    declines(
        &rt,
        &mut controller,
        Call::Write {
            address: CS + 6,
            word: 0,
        },
        5,
    );
    reads(&rt, &mut controller, 0, 1);
}
