// Runs the script on standard input, and prints the calls and looks with their answers.
#![tactic(auto)]

use runner::transcripts::transcript;
use std::io::Read;

fn main(rt: HostRuntime) -> anyhow::Result<()> {
    bench(&rt)
}

fn bench(rt: &(impl Input + Print + AllocGlobal)) -> anyhow::Result<()> {
    let heap = rt.alloc();
    let mut script = Vec::new(heap);
    rt.reader().read_to_end(&mut script)?;
    rt.print(transcript(heap, script.as_slice())?)?;
    Ok(())
}
