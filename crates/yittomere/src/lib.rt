// The calls as C has them: making a table, one step and a run on lent words. include/yittomere.h declares them and says what a C
// programmer must know. None asks anything of the numbers and words that it is given. Crate `yittomere_c`
// says them once more for the library for C, which is made from a crate that no other sees.
#![tactic(auto)]

ghost use Rattle.tables.specs.Make.{MakePromise};
ghost use Rattle.rules.specs.Calls.{RunPromise};
ghost use Rattle.yittomere.specs.StepInto.{StepIntoPromise};

use tables::refusal::{self, Refusal};

// Makes a fresh table in the lent words. Answers 0; or 2 if a number is out of its limits, or 8 if there are not exactly as many
// words as the table has, and then every word is kept.
#[unsafe(no_mangle)]
pub extern "C" fn yittomere_make(table: &mut [u32], servers: u32, places: u32, slots: u32) -> u32
    ensures { MakePromise (record { n = servers; l = places; p = slots }) table.old result table.new }
{
    refusal::code(tables::making::make(servers, places, slots, table))
}

// One step on any table, its answer put into a buffer of five words. Answers the code, which is also the first of them; or 8 if
// the buffer has another length, and then no step is taken and every word is kept. Five numbers, as include/yittomere.h has a step.
#[unsafe(no_mangle)]
pub extern "C" fn yittomere_step(
    table: &mut [u32],
    kind: u32,
    a: u32,
    b: u32,
    c: u32,
    d: u32,
    answer: &mut [u32],
) -> u32
    ensures { StepIntoPromise table.old (record { kind = kind; a = a; b = b; c = c; d = d }) answer.old result table.new answer.new }
{
    if answer.len() != 5 {
        return u32::from(Refusal::Length);
    }
    let words = kinds::words(steps::step(table, kind, a, b, c, d));
    answer.copy_from_slice(&words);
    words[0]
}

// A list of steps, one after another, five words each, and as many words of answers. Answers 0, also where steps were refused; or
// 8 if a length does not fit, and then every word is kept.
#[unsafe(no_mangle)]
pub extern "C" fn yittomere_run(table: &mut [u32], steps: &[u32], answers: &mut [u32]) -> u32
    ensures { RunPromise table.old steps.now answers.old result table.new answers.new }
{
    refusal::code(steps::run(table, steps, answers))
}
