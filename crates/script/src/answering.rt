// The answers of a list of steps on a fresh table.
ghost use Rattle.std.specs.Prelude.{◌≡◌, true, ◌*◌, ◌≤◌, ◌%◌, length, take};
ghost use Rattle.tables.specs.SizeLaws.{Within};
ghost use Rattle.tables.specs.Layout.{size};
ghost use Rattle.tables.specs.Shape.{shape};
ghost use Rattle.rules.specs.Step.{answer_words};
ghost use Rattle.script.specs.Reply.{admissible};
ghost use Rattle.script.specs.Promised.{answers_of};

use crate::collecting::Listed;
use tables::Table;

// Are these sizes that a script may ask for?
#[tactic(auto, unfolding(crate::specs::Reply::admissible))]
pub fn is_admissible(z: Table) -> bool
    ensures { result ≡ admissible (shape z) }
{
    z.is_within() && z.l <= crate::MOST_PLACES
}

// Makes a fresh table of these sizes and runs a list of steps on it. The lengths fit, so neither call is refused.
// `Table::new` answers any sizes, so the limits are asked for here. The buffers are parts, lent as `steps::run` takes them.
fn run_fresh(z: Table, table: &mut [u32], steps: &[u32], answers: &mut [u32])
    requires within { Within (shape z) × (length table.old ≡ size (shape z)) }
    requires lengths { (length steps.now ≡ length answers.old) × (length steps.now % 5 ≡ 0) }
    ensures { answers.new ≡ answer_words (answers_of (shape z) steps.now) }
{
    let _ = tables::making::make(z.n as u32, z.l as u32, z.p as u32, table);
    let _ = steps::run(table, steps, answers);
}

// Room to work in for any script: for its table, for its steps as words, and for their answers.
#[derive(Drop)]
pub struct Workspace<'a> {
    pub table: &'a mut [u32],
    pub steps: &'a mut [u32],
    pub answers: &'a mut [u32],
    ghost for_table: { 9012 ≤ length table.now },
    ghost for_steps: { 2560 ≤ length steps.now },
    ghost for_answers: { 2560 ≤ length answers.now },
}

impl Workspace<'_> {
    // The words of the answers of the steps that were listed, on a fresh table.
    pub fn answer(&mut self, listed: Listed) -> &[u32]
        requires { (admissible (shape listed.sizes) ≡ true) × (listed.count ≤ 512) }
        ensures answers { result.now ≡ answer_words (answers_of (shape listed.sizes) (take (listed.count * 5) self.old.steps.now)) }
        ensures length { length result.now ≡ listed.count * 5 }
    {
        let Listed { sizes, count } = listed;
        let words = count * 5;
        run_fresh(
            sizes,
            &mut self.table[..sizes.words()],
            &self.steps[..words],
            &mut self.answers[..words],
        );
        &self.answers[..words]
    }
}
