// Steps run one after the other.
ghost use Rattle.std.specs.Prelude.{◌≡◌, ◌++◌, map, string_bytes, OnOk};
ghost use Rattle.rl11.specs.Machine.{machine_of};
ghost use Rattle.script.specs.Scripts.{told_by};
ghost use Rattle.runner.specs.Sessions.{Tells};
ghost use Rattle.runner.specs.Steps.{step_text, after_step, line_text, run_text};

use crate::answers::AnswerText;
use crate::sessions::Session;
use media::memory::BusMemory;
use media::shelf::Shelf;
use script::scripts::StepLine;
use script::steps::Step;
use std::alloc::AllocError;

impl<S: Shelf, M: BusMemory> Session<S, M> {
    // Runs a step, and tells its answer or what it shows.
    fn step(&mut self, step: Step) -> Result<(), AllocError>
        ensures told { OnOk result (Tells S.Shelf.packs M.BusMemory.contents self.old self.new (step_text step) (after_step step)) }
        ensures after { machine_of S.Shelf.packs M.BusMemory.contents self.new.controller ≡ after_step step (machine_of S.Shelf.packs M.BusMemory.contents self.old.controller) }
    {
        match step {
            Step::Call(call) => write!(self.text, "{}", AnswerText(self.controller.send(call))),
            Step::Look(look) => self.look(look),
        }
    }

    // Runs a step, and tells its line.
    fn line(&mut self, line: &StepLine) -> Result<(), AllocError>
        ensures { OnOk result (Tells S.Shelf.packs M.BusMemory.contents self.old self.new (line_text (told_by line.now)) (after_step line.now.step)) }
    {
        write!(self.text, "{} -> ", line.echo)?;
        self.step(line.step)?;
        self.text.push('\n')
    }

    /// Runs steps, and tells their lines.
    pub(crate) fn run(&mut self, steps: &[StepLine]) -> Result<(), AllocError>
        ensures { OnOk result (string_bytes self.new.text ≡ string_bytes self.old.text ++ run_text (map told_by steps.now) (machine_of S.Shelf.packs M.BusMemory.contents self.old.controller)) }
    {
        for step in steps {
            self.line(step)?;
        }
        Ok(())
    }
}
