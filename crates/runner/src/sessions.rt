// A controller and the text of what it has told.
use rl11::controller::Controller;

/// A controller, and the text of what it has told so far.
#[derive(Drop)]
pub(crate) struct Session<S, M> {
    pub(crate) controller: Controller<S, M>,
    pub(crate) text: String,
}
