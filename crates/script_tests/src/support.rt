// What tests of several subjects share.
use script::faults::{Fault, LineFault};
use script::scripts::{Script, ScriptError, read_script};
use script::steps::Step;
use std::alloc::Global;
use std::process::Abort;
use std::test::Fail;

/// A text is refused with this fault, on this line.
pub(super) fn refused(
    rt: &impl Abort,
    heap: Global,
    text: &[u8],
    line: usize,
    fault: Fault,
) -> Result<(), Fail> {
    match read_script(heap, text) {
        Ok(_) => Err(Fail::new("read")),
        Err(error) => {
            assert_eq!(rt; error, ScriptError::Line(LineFault { line, fault }));
            Ok(())
        },
    }
}

/// The step in this place is this one, on this line, with this echo.
pub(super) fn has_step(
    rt: &impl Abort,
    script: &Script,
    place: usize,
    line: usize,
    step: Step,
    echo: &str,
) {
    let steps = script.steps.as_slice();
    assert!(rt; place < steps.len());
    assert_eq!(rt; steps[place].line, line);
    assert_eq!(rt; steps[place].step, step);
    assert_eq!(rt; steps[place].echo.as_str(), echo);
}
