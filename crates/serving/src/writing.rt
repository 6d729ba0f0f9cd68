// A write: the server is chosen, the write is added at the end of its log, and the vectors of server and session follow.
ghost use Rattle.std.specs.Prelude.{[], ◌∷◌, ◌++◌, ◌<◌, length, Ok};
ghost use Rattle.std.proofs.Math.Option.{some};
ghost use Rattle.logs.specs.Stored.{write_of};
ghost use Rattle.tables.specs.State.{with_log};
ghost use Rattle.rules.specs.Step.{writes};
ghost use Rattle.rules.specs.Rules.{write_to};
ghost use Rattle.kinds.specs.Obeys.{answer_of, size_in, state_in, Sound, Becomes, Comes, Obeys};
ghost use Rattle.serving.specs.Asked.{Asks, session_at};

use crate::asking;
use kinds::Answer;
use logs::Entry;
use tables::refusal::Refusal;
use views::Store;

// Adds a write at the end of server i's log, which has a free place, and raises its count. No `insert` of one: it asks for no order of
// the log.
fn add(store: &mut Store<'_>, i: usize, w: Entry)
    requires { Sound store.old × (i < store.old.sizes.n) × (length ((state_in store.old).log i) < store.old.sizes.l) }
    ensures { Becomes store.old (with_log (state_in store.old) i ((state_in store.old).log i ++ (write_of w ∷ []))) store.new }
{
    let count = store.view().count(i);
    let at = store.sizes.log_at(i);
    filing::adding::append(&mut store.words[at..at + store.sizes.l * 4], count, w);
    store.words[store.sizes.count_at(i)] = count as u32 + 1;
}

// Writes the item at server i for slot k. The server has a free place.
fn write_at(store: &mut Store<'_>, k: usize, item: u32, value: u32, i: usize) -> Answer
    requires { Asks store.old k × (i < store.old.sizes.n) × (length ((state_in store.old).log i) < store.old.sizes.l) }
    ensures { Comes store.old (write_to (size_in store.old) (state_in store.old) k item value (session_at store.old k) (some i) (some i)) (answer_of (Ok result)) store.new }
{
    let clock = vectors::greatest(store.view().vector(i)) + 1;
    let origin = i as u32;
    let w = Entry {
        origin,
        clock,
        item,
        value,
    };
    add(store, i, w);
    store.words[store.sizes.vector_at(i) + i] = clock;
    store.words[store.sizes.write_at(k) + i] = clock;
    store.words[store.sizes.slot_at(k) + 1] = origin + 1;
    Answer {
        server: origin,
        origin,
        clock,
        value,
    }
}

// A write of the item by slot k's session, where the servers in reach can be reached. Refused as `SlotState` if the slot is closed, as
// `NoReach` if no server is in reach, as `Behind` if none of those is up to date, as `Full` if each that is has a full log.
pub fn write(
    store: &mut Store<'_>,
    k: usize,
    item: u32,
    value: u32,
    reach: u32,
) -> Result<Answer, Refusal>
    requires { Sound store.old × (k < store.old.sizes.p) }
    ensures { Obeys store.old (writes k item value reach) (answer_of result) store.new }
{
    match asking(store, k, reach)?.search_to_write() {
        Ok(i) => Ok(write_at(store, k, item, value, i)),
        // An arm of its own, and no `?`: so an edit can answer another refusal here, and is refused for that alone.
        Err(refusal) => Err(refusal),
    }
}
