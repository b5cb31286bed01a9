// Which calls a stage takes, and what it holds for them.
ghost use Rattle.std.specs.Prelude.{◌≡◌, true, Ok};
ghost use Rattle.task.specs.View.{task_contents};
ghost use Rattle.run.specs.Open.{run_of};
ghost use Rattle.examine.specs.Findings.{shown};
ghost use Rattle.calls.specs.Answers.{admitted};
ghost use Rattle.calls.specs.View.{unused, stage_of, has_task, has_findings, has_walk, task_of, found_of, walk_of};
ghost use Rattle.bench.specs.View.{view};

use super::Bench;
use crate::stage::*;
use calls::call::Call;
use calls::fault::BenchFault;
use calls::refusal::*;
use run::OpenWalk;
use std::mem;
use task::Task;

impl Bench {
    // The task, which every stage but the first has.
    pub(super) fn task(&self) -> &Task
        requires { has_task (stage_of (view self.now)) ≡ true }
        ensures { task_contents result.now ≡ task_of (view self.now) }
    {
        match &self.stage {
            Stage::Unused => unreachable(),
            Stage::Loaded(task) => task,
            Stage::Examined(examined) => &examined.task,
            Stage::Walking(walked) => &walked.examined.task,
        }
    }

    // The examined task, which the last two stages have.
    pub(super) fn examined(&self) -> &ExaminedTask
        requires { has_findings (stage_of (view self.now)) ≡ true }
        ensures task { task_contents result.now.task ≡ task_of (view self.now) }
        ensures found { shown (task_contents result.now.task) result.now.found ≡ found_of (view self.now) }
    {
        match &self.stage {
            Stage::Unused | Stage::Loaded(_) => unreachable(),
            Stage::Examined(examined) => examined,
            Stage::Walking(walked) => &walked.examined,
        }
    }

    // The open walk, which the last stage has.
    pub(super) fn walk(&self) -> &OpenWalk
        requires { has_walk (stage_of (view self.now)) ≡ true }
        ensures { run_of result.now ≡ walk_of (view self.now) }
    {
        match &self.stage {
            Stage::Unused | Stage::Loaded(_) | Stage::Examined(_) => unreachable(),
            Stage::Walking(walked) => &walked.walk,
        }
    }

    // The task, taken out of its stage: the bench is unused until it holds something again.
    pub(super) fn take_task(&mut self) -> Task
        requires { has_task (stage_of (view self.old)) ≡ true }
        ensures task { task_contents result ≡ task_of (view self.old) }
        ensures left { view self.new ≡ unused }
    {
        match mem::replace(&mut self.stage, Stage::Unused) {
            Stage::Unused => unreachable(),
            Stage::Loaded(task) => task,
            Stage::Examined(examined) => examined.task,
            Stage::Walking(walked) => walked.examined.task,
        }
    }

    // The examined task, taken out of its stage in the same way; an open walk ends.
    pub(super) fn take_examined(&mut self) -> ExaminedTask
        requires { has_findings (stage_of (view self.old)) ≡ true }
        ensures task { task_contents result.task ≡ task_of (view self.old) }
        ensures found { shown (task_contents result.task) result.found ≡ found_of (view self.old) }
        ensures left { view self.new ≡ unused }
    {
        match mem::replace(&mut self.stage, Stage::Unused) {
            Stage::Unused | Stage::Loaded(_) => unreachable(),
            Stage::Examined(examined) => examined,
            Stage::Walking(walked) => walked.examined,
        }
    }

    // A call that is not of the bench's stage is refused.
    pub(super) fn admit(&self, call: Call) -> Result<(), Refusal>
        ensures { result ≡ admitted call (view self.now) (Ok tt) }
    {
        // Stage and call are matched together: each stage stands with the calls that it takes.
        match (&self.stage, call) {
            (Stage::Unused, Call::Load) => Ok(()),
            (Stage::Loaded(_), Call::Load | Call::Examine | Call::Write) => Ok(()),
            (
                Stage::Examined(_),
                Call::Load
                | Call::Examine
                | Call::Start
                | Call::Write
                | Call::Figure
                | Call::Ask
                | Call::List,
            ) => Ok(()),
            (
                Stage::Walking(_),
                Call::Step
                | Call::Close
                | Call::Write
                | Call::Figure
                | Call::Ask
                | Call::List
                | Call::Stand,
            ) => Ok(()),
            (stage, _) => Err(Refusal::Bench(BenchFault::WrongStage(stage.name().number()))),
        }
    }
}
