// A read: the server is chosen, the last write on the item is answered, and the session's read-vector is raised.
ghost use Rattle.std.specs.Prelude.{◌≡◌, ◌+◌, ◌<◌, ◌≤◌, length, Ok};
ghost use Rattle.std.proofs.Math.Option.{some};
ghost use Rattle.words.specs.Lists.{row, part, splice};
ghost use Rattle.vectors.specs.Vector.{vector_of, join};
ghost use Rattle.filing.specs.Found.{last_of};
ghost use Rattle.tables.specs.Layout.{read_at};
ghost use Rattle.tables.specs.Size.{most_servers};
ghost use Rattle.rules.specs.Step.{reads};
ghost use Rattle.rules.specs.Rules.{read_answer, read_from};
ghost use Rattle.kinds.specs.Obeys.{answer_of, size_in, state_in, Sound, Kept, Comes, Obeys};
ghost use Rattle.serving.specs.Asked.{Asks, session_at};

use crate::asking;
use kinds::Answer;
use logs::Entry;
use tables::refusal::Refusal;
use views::Store;

// The answer of server i where a search in its log found this.
fn shown(i: usize, last: Option<Entry>) -> Answer
    requires { i < most_servers }
    ensures { answer_of (Ok result) ≡ read_answer i (last_of last) }
{
    let w = last.unwrap_or_default();
    Answer {
        server: i as u32,
        origin: w.origin,
        clock: w.clock,
        value: w.value,
    }
}

// Raises the n words from `at` on by the n from `from` on, which lie before them.
// By itself: where `split_at_mut` lends a `Store`'s words, the proof learns nothing of what is written.
fn raise_part(words: &mut [u32], n: usize, at: usize, from: usize)
    requires { (from + n ≤ at) × (at + n ≤ length words.old) }
    ensures { words.new ≡ splice at n words.old (row n (join (vector_of (part words.old at n)) (vector_of (part words.old from n)))) }
{
    let (front, back) = words.split_at_mut(at);
    vectors::raise(&mut back[..n], &front[from..from + n]);
}

// Raises slot k's read-vector by server i's vector.
// `Asks` is in no type: between the writes of a step the table isn't sound.
fn raise_read_vector(store: &mut Store<'_>, k: usize, i: usize)
    requires { Asks store.old k × (i < store.old.sizes.n) }
    ensures kept { Kept store.old store.new }
    ensures raised { store.new.words.now ≡ splice (read_at (size_in store.old) k 0) store.old.sizes.n store.old.words.now (row store.old.sizes.n (join (session_at store.old k).read_vector ((state_in store.old).vector i))) }
{
    let z = store.sizes;
    raise_part(store.words, z.n, z.read_at(k), z.vector_at(i));
}

// Reads the item at server i for slot k.
fn read_at(store: &mut Store<'_>, k: usize, item: u32, i: usize) -> Answer
    requires { Asks store.old k × (i < store.old.sizes.n) }
    ensures { Comes store.old (read_from (state_in store.old) k item (session_at store.old k) (some i)) (answer_of (Ok result)) store.new }
{
    let last = filing::finding::last_on(store.view().log(i), item);
    raise_read_vector(store, k, i);
    store.words[store.sizes.slot_at(k) + 1] = i as u32 + 1;
    shown(i, last)
}

// A read of the item by slot k's session, where the servers in reach can be reached. Refused as `SlotState` if the slot is closed, as
// `NoReach` if no server is in reach, as `Behind` if none of those is up to date.
pub fn read(store: &mut Store<'_>, k: usize, item: u32, reach: u32) -> Result<Answer, Refusal>
    requires { Sound store.old × (k < store.old.sizes.p) }
    ensures { Obeys store.old (reads k item reach) (answer_of result) store.new }
{
    match asking(store, k, reach)?.search_to_read() {
        Ok(i) => Ok(read_at(store, k, item, i)),
        // An arm of its own, and no `?`: so an edit can answer another refusal here, and is refused for that alone.
        Err(refusal) => Err(refusal),
    }
}
