// What the tests share.
use exchanges::calls::{Call, Reply};
use media::memory::BusMemory;
use media::shelf::Shelf;
use rl11::controller::Controller;
use std::process::Abort;

/// The control and status register.
pub(super) const CS: u32 = 0o774400;

/// Sends a call that is accepted and answers so.
pub(super) fn answers<S: Shelf, M: BusMemory>(
    rt: &impl Abort,
    controller: &mut Controller<S, M>,
    call: Call,
    reply: Reply,
) {
    assert_eq!(rt; controller.send(call), Ok(reply));
}

/// A bus read that answers a word.
pub(super) fn reads<S: Shelf, M: BusMemory>(
    rt: &impl Abort,
    controller: &mut Controller<S, M>,
    address: u32,
    word: u16,
) {
    answers(rt, controller, Call::Read { address }, Reply::Word(word));
}

/// An accepted bus write.
pub(super) fn writes<S: Shelf, M: BusMemory>(
    rt: &impl Abort,
    controller: &mut Controller<S, M>,
    address: u32,
    word: u16,
) {
    answers(rt, controller, Call::Write { address, word }, Reply::Done);
}

/// A call that is refused with a number, which tries the refusals' numbers too.
pub(super) fn declines<S: Shelf, M: BusMemory>(
    rt: &impl Abort,
    controller: &mut Controller<S, M>,
    call: Call,
    number: u8,
) {
    assert_eq!(rt; controller.send(call).map_err(u8::from), Err(number));
}

/// A make with numbers of which one is no kind's, refused with 1, and what it hands back.
pub(super) fn refused_make<S: Shelf + Drop, M: BusMemory + Drop>(
    rt: &impl Abort,
    kinds: [u8; 4],
    shelf: S,
    memory: M,
) -> (S, M) {
    match Controller::new(kinds, shelf, memory) {
        Ok(_) => panic!(rt; "a controller is made"),
        Err(unmade) => {
            assert_eq!(rt; u8::from(unmade.refusal), 1);
            (unmade.shelf, unmade.memory)
        }
    }
}
