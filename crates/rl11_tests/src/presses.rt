// Presses act where they stand among the calls on the bus.
use crate::support::{CS, answers, declines, reads, writes};
use exchanges::calls::{Call, Reply};
use media::kinds::Kind;
use memories::board::Board;
use rl11::controller::Controller;
use shelves::cards::CardShelf;

#[test]
fn each_refusal_of_a_press_leaves_all(rt: HostRuntime) {
    let shelf = CardShelf::new([1, 2, 1, 0, 0, 0, 0, 0], &mut []);
    let mut controller = Controller::fresh(
        [Some(Kind::Rl01), Some(Kind::Rl01), Some(Kind::Rl02), None],
        shelf,
        Board::new(&mut []),
    );
    declines(&rt, &mut controller, Call::Load { unit: 4, pack: 9 }, 7);
    declines(&rt, &mut controller, Call::Load { unit: 3, pack: 9 }, 7);
    declines(&rt, &mut controller, Call::Load { unit: 0, pack: 3 }, 9);
    declines(&rt, &mut controller, Call::Load { unit: 0, pack: 1 }, 10);
    declines(&rt, &mut controller, Call::Unload { unit: 0 }, 12);
    answers(
        &rt,
        &mut controller,
        Call::Load { unit: 0, pack: 0 },
        Reply::Done,
    );
    declines(&rt, &mut controller, Call::Load { unit: 0, pack: 9 }, 8);
    declines(&rt, &mut controller, Call::Load { unit: 1, pack: 0 }, 11);
    answers(&rt, &mut controller, Call::Unload { unit: 0 }, Reply::Done);
    declines(&rt, &mut controller, Call::Unload { unit: 0 }, 12);
    declines(&rt, &mut controller, Call::Load { unit: 1, pack: 0 }, 11);
    answers(
        &rt,
        &mut controller,
        Call::Load { unit: 1, pack: 2 },
        Reply::Done,
    );
    declines(&rt, &mut controller, Call::Protect { unit: 3 }, 7);
    answers(&rt, &mut controller, Call::Protect { unit: 2 }, Reply::Done);
}

#[test]
fn presses_go_through_while_a_function_works(rt: HostRuntime) {
    let shelf = CardShelf::new([1, 0, 0, 0, 0, 0, 0, 0], &mut []);
    let mut words = [0];
    let mut controller = Controller::fresh(
        [Some(Kind::Rl01), None, None, None],
        shelf,
        Board::new(&mut words),
    );
    writes(&rt, &mut controller, CS, 0o12);
    answers(
        &rt,
        &mut controller,
        Call::Load { unit: 0, pack: 0 },
        Reply::Done,
    );
    declines(
        &rt,
        &mut controller,
        Call::Write {
            address: CS,
            word: 0,
        },
        5,
    );
    answers(&rt, &mut controller, Call::Unload { unit: 0 }, Reply::Done);
    writes(&rt, &mut controller, 0, 5);
    reads(&rt, &mut controller, 0, 5);
    reads(&rt, &mut controller, CS, 0o12);
    answers(&rt, &mut controller, Call::Init, Reply::Done);
    reads(&rt, &mut controller, CS, 0o200);
    declines(&rt, &mut controller, Call::Unload { unit: 0 }, 12);
}
