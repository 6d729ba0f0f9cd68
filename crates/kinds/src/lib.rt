// The kinds of step that choose no server: open, close and exchange, each on a sound table and with arguments in range. What each
// answers and leaves in the table is defined in crates/rules/specs/Rules.antt; the promise of each is `Obeys` in specs/Obeys.antt.
#![tactic(auto)]

ghost use Rattle.std.specs.Prelude.{◌≡◌, [], ◌∷◌};
ghost use Rattle.rules.specs.Step.{answer_words};
ghost use Rattle.kinds.specs.Obeys.{answer_of};

use tables::refusal::Refusal;

pub mod exchanging;
pub mod sessions;

// 01, "Steps": what a step that is done answers beside the code 0.
#[derive(Clone, Copy, PartialEq, Eq, Debug, Default)]
pub struct Answer {
    pub server: u32,
    pub origin: u32,
    pub clock: u32,
    pub value: u32,
}

// An answer's five words: its code, and behind 0 what was answered. A refusal has four zeros. No `From`: neither `Result` nor an array is this
// crate's.
#[tactic(auto, unfolding(rules::specs::Step::answer_words, rules::specs::Step::refused))]
pub fn words(outcome: Result<Answer, Refusal>) -> [u32; 5]
    ensures { result ≡ answer_words (answer_of outcome ∷ []) }
{
    match outcome {
        Ok(answer) => [0, answer.server, answer.origin, answer.clock, answer.value],
        Err(refusal) => [u32::from(refusal), 0, 0, 0, 0],
    }
}
