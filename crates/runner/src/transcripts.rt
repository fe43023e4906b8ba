// What is told of a script.
ghost use Rattle.std.specs.Prelude.{◌≡◌, IfOk, string_bytes};
ghost use Rattle.script.specs.Scripts.{script_of};
ghost use Rattle.runner.specs.Transcripts.{script_text};

use crate::benches::Runner;
use script::scripts::{ScriptError, read_script};
use std::alloc::{AllocError, Global};

/// Runs the script of a text, and tells what a run of the bench prints: a line for each call and look with its answer, or the one line of what is wrong.
pub fn transcript(heap: Global, text: &[u8]) -> Result<String, AllocError>
    ensures { IfOk result (λ told. string_bytes told ≡ script_text (script_of text.now)) }
{
    match read_script(heap, text) {
        Ok(script) => Runner { heap, script }.told(),
        Err(ScriptError::Line(fault)) => format!(in heap; "{fault}\n"),
        // No `?` gives this error: of a script's two errors only this one is an `AllocError`.
        Err(ScriptError::NoMemory) => Err(AllocError),
    }
}
