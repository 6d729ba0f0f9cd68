// The delivered calls: one step and a run of steps on a table in lent words. Making a table is `tables::making::make`. None asks
// anything of its caller. Table, steps and answers are lent as slices of words, as 01 has them. What each answers and writes is
// defined in crates/rules/specs/Calls.antt.
#![tactic(auto)]

ghost use Rattle.std.specs.Prelude.{◌+◌, ◌*◌, ◌≤◌, length};
ghost use Rattle.rules.specs.Calls.{StepPromise, RunPromise};
ghost use Rattle.tables.specs.Refused.{code_in};
ghost use Rattle.kinds.specs.Obeys.{answer_of};
ghost use Rattle.applying.specs.Asked.{step_of, step_in};
ghost use Rattle.steps.specs.Taken.{Taken};

use applying::StepWords;
use kinds::Answer;
use tables::Table;
use tables::refusal::Refusal;
use views::Store;

// A step on any table. A table that is not sound is refused as `Unsound`, and keeps every word.
fn obey(t: &mut [u32], x: StepWords) -> Result<Answer, Refusal>
    ensures { StepPromise t.old (step_of x) (answer_of result) t.new }
{
    if !soundness::sound(t) {
        return Err(Refusal::Unsound);
    }
    let sizes = Table::new(t[0], t[1], t[2]);
    let mut store = Store { words: t, sizes };
    applying::apply(&mut store, x)
}

// One step on any table. Answers its server, origin, clock and value; or why it is refused, and then every word of the table is as it
// was. Five numbers, as 01 has a single step.
pub fn step(t: &mut [u32], kind: u32, a: u32, b: u32, c: u32, d: u32) -> Result<Answer, Refusal>
    ensures { StepPromise t.old (record { kind = kind; a = a; b = b; c = c; d = d }) (answer_of result) t.new }
{
    obey(t, StepWords { kind, a, b, c, d })
}

// Takes a step, and puts the five words of its answer at place i of the buffer.
fn take_step(t: &mut [u32], step: StepWords, i: usize, answers: &mut [u32])
    requires { i * 5 + 5 ≤ length answers.old }
    ensures { Taken t.old (step_of step) (i * 5) answers.old t.new answers.new }
{
    let answer = kinds::words(obey(t, step));
    words::put(answers, i, &answer);
}

// A list of steps, one after another, five words each, and as many words of answers. Done also where steps are refused; refused as
// `Length` if a length does not fit, and then nothing is written.
pub fn run(t: &mut [u32], steps: &[u32], answers: &mut [u32]) -> Result<(), Refusal>
    ensures { RunPromise t.old steps.now answers.old (code_in result) t.new answers.new }
{
    if steps.len() != answers.len() || steps.len() % 5 != 0 {
        return Err(Refusal::Length);
    }
    // The answers are put by their places: of what is written through `as_chunks_mut`, a proof learns nothing.
    for (i, words) in steps.as_chunks::<5>().0.iter().enumerate() {
        take_step(t, StepWords::from(*words), i, answers);
    }
    Ok(())
}
