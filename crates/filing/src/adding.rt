// A log that grows: a write added at the end, and writes added each at its place. 01 wants it lent as a part of the table's words, so its
// count stands beside it.
ghost use Rattle.std.specs.Prelude.{◌≡◌, List, [], ◌∷◌, ◌++◌, ℕ, ◌+◌, ◌*◌, ◌<◌, ◌≤◌, length, map};
ghost use Rattle.logs.specs.Write.{Write};
ghost use Rattle.logs.specs.Ascending.{Ascending};
ghost use Rattle.logs.specs.Log.{insert_all};
ghost use Rattle.logs.specs.Places.{places};
ghost use Rattle.logs.specs.Stored.{write_of};
ghost use Rattle.filing.specs.Merge.{log_last};

use logs::{Entry, entry_at, put};

// Adds a write at the end.
pub fn append(log: &mut [u32], count: usize, w: Entry)
    requires { count * 4 + 4 ≤ length log.old }
    ensures { (l : ℕ) (g : List Write) → log.old ≡ places l g → length g ≡ count → count < l → log.new ≡ places l (g ++ (write_of w ∷ [])) }
{
    put(log, count, w);
}

// Does the last of the log's first i writes come behind w?
fn log_last(log: &[u32], i: usize, w: Entry) -> bool
    requires { i * 4 ≤ length log.now }
    ensures { result ≡ log_last i log.now (write_of w) }
{
    0 < i && w.is_before(entry_at(log, i - 1))
}

// Adds the writes of a batch, each at its place in the write order. Both stand in that order. From the last place down, so that each
// write of the log moves once.
pub fn insert_all(log: &mut [u32], count: usize, batch: &[Entry])
    requires { (count + length batch.now) * 4 ≤ length log.old }
    ensures { (l : ℕ) (g : List Write) → log.old ≡ places l g → length g ≡ count → count + length batch.now ≤ l → Ascending g → Ascending (map write_of batch.now) → log.new ≡ places l (insert_all (map write_of batch.now) g) }
{
    // Two lists at two paces: no `for` goes over either.
    let mut i = count;
    let mut left = batch;
    while let [others @ .., w] = left {
        if log_last(log, i, *w) {
            i -= 1;
            let x = entry_at(log, i);
            put(log, i + left.len(), x);
        } else {
            left = others;
            put(log, i + left.len(), *w);
        }
    }
}
