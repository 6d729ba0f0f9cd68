// Open and close: a slot's session begins and ends.
ghost use Rattle.std.specs.Prelude.{◌<◌};
ghost use Rattle.tables.specs.Size.{sums};
ghost use Rattle.rules.specs.Step.{opens, closes};
ghost use Rattle.kinds.specs.Obeys.{answer_of, Sound, Obeys};

use crate::Answer;
use tables::refusal::Refusal;
use views::Store;

// Opens slot k with the chosen guarantees. Refused as `SlotState` if the slot is open.
pub fn open_slot(store: &mut Store<'_>, k: usize, guarantees: u32) -> Result<Answer, Refusal>
    requires { Sound store.old × (k < store.old.sizes.p) × (guarantees < sums) }
    ensures { Obeys store.old (opens k guarantees) (answer_of result) store.new }
{
    if store.view().guarantees(k) != 0 {
        return Err(Refusal::SlotState);
    }
    store.words[store.sizes.slot_at(k)] = guarantees + 1;
    Ok(Answer::default())
}

// Closes slot k. Refused as `SlotState` if the slot is closed.
pub fn close_slot(store: &mut Store<'_>, k: usize) -> Result<Answer, Refusal>
    requires { Sound store.old × (k < store.old.sizes.p) }
    ensures { Obeys store.old (closes k) (answer_of result) store.new }
{
    if store.view().guarantees(k) == 0 {
        return Err(Refusal::SlotState);
    }
    let at = store.sizes.slot_at(k);
    words::clear(&mut store.words[at..at + (2 * store.sizes.n + 2)]);
    Ok(Answer::default())
}
