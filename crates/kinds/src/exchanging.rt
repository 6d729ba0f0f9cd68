// An exchange: the first writes that one server holds and another lacks go over, each to its place, and the vector follows.
ghost use Rattle.std.specs.Prelude.{◌<◌, map};
ghost use Rattle.logs.specs.Log.{insert_all};
ghost use Rattle.logs.specs.Stored.{write_of};
ghost use Rattle.tables.specs.State.{with_log};
ghost use Rattle.rules.specs.Step.{exchanges};
ghost use Rattle.rules.specs.Rules.{received};
ghost use Rattle.kinds.specs.Obeys.{answer_of, size_in, state_in, Sound, Fitting, Becomes, Obeys};

use crate::Answer;
use logs::Entry;
use tables::Table;
use tables::refusal::Refusal;
use views::Store;

// Puts the writes of a batch in their places in server i's log, which has as many free, and raises its count.
fn insert(store: &mut Store<'_>, i: usize, batch: &[Entry])
    requires { Sound store.old × (i < store.old.sizes.n) × Fitting (size_in store.old) (state_in store.old) i (map write_of batch.now) }
    ensures { Becomes store.old (with_log (state_in store.old) i (insert_all (map write_of batch.now) ((state_in store.old).log i))) store.new }
{
    let count = store.view().count(i);
    let at = store.sizes.log_at(i);
    filing::adding::insert_all(&mut store.words[at..at + store.sizes.l * 4], count, batch);
    store.words[store.sizes.count_at(i)] = (count + batch.len()) as u32;
}

// Takes the writes of a batch in at server i: its log, its count and its vector.
fn receive(store: &mut Store<'_>, i: usize, batch: &[Entry])
    requires { Sound store.old × (i < store.old.sizes.n) × Fitting (size_in store.old) (state_in store.old) i (map write_of batch.now) }
    ensures { Becomes store.old (received (state_in store.old) i (map write_of batch.now)) store.new }
{
    insert(store, i, batch);
    let at = store.sizes.vector_at(i);
    filing::sending::follow(&mut store.words[at..at + store.sizes.n], batch);
}

// An exchange from one server to another of at most so many writes. Refused as `ToItself` if the two are the same.
pub fn exchange(store: &mut Store<'_>, from: usize, to: usize, most: u32) -> Result<Answer, Refusal>
    requires { Sound store.old × (from < store.old.sizes.n) × (to < store.old.sizes.n) }
    ensures { Obeys store.old (exchanges from to most) (answer_of result) store.new }
{
    if from == to {
        return Err(Refusal::ToItself);
    }
    let view = store.view();
    let limit = (most as usize).min(view.sizes.l - view.count(to));
    let mut batch = [Entry::default(); Table::PLACES];
    let k = filing::sending::lacking(view.log(from), view.vector(to), &mut batch[..limit]);
    receive(store, to, &batch[..k]);
    Ok(Answer {
        server: to as u32,
        origin: from as u32,
        clock: 0,
        value: k as u32,
    })
}
