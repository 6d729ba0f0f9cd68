// What goes over in an exchange: the writes that a vector lacks, and the vector that follows them.
ghost use Rattle.std.specs.Prelude.{◌≡◌, ◌<◌, min, length, take, map};
ghost use Rattle.words.specs.Lists.{In, row};
ghost use Rattle.vectors.specs.Vector.{vector_of};
ghost use Rattle.logs.specs.Write.{Write};
ghost use Rattle.logs.specs.Log.{lacking, follow};
ghost use Rattle.logs.specs.Places.{write_in};
ghost use Rattle.logs.specs.Stored.{write_of};

use logs::Entry;

// Copies to the batch the first writes that the vector lacks, as many as it has room for, and answers how many there were.
pub fn lacking(log: &[[u32; 4]], vector: &[u32], batch: &mut [Entry]) -> usize
    requires { (w : Write) → In w (map write_in log.now) → w.origin < length vector.now }
    ensures how_many { result ≡ min (length (lacking (vector_of vector.now) (map write_in log.now))) (length batch.old) }
    ensures which { map write_of (take result batch.new) ≡ take result (lacking (vector_of vector.now) (map write_in log.now)) }
    ensures len { length batch.new ≡ length batch.old }
{
    // A place for each write that goes over, so `k` counts no places of the log.
    let mut k = 0;
    for place in log {
        if k == batch.len() {
            return k;
        }
        let w = Entry::from(*place);
        if vector[w.origin as usize] < w.clock {
            batch[k] = w;
            k += 1;
        }
    }
    k
}

// Lets a vector follow a batch: each write sets its origin's component to its clock.
pub fn follow(vector: &mut [u32], batch: &[Entry])
    requires { (w : Write) → In w (map write_of batch.now) → w.origin < length vector.old }
    ensures { vector.new ≡ row (length vector.old) (follow (map write_of batch.now) (vector_of vector.old)) }
{
    for w in batch {
        vector[w.origin as usize] = w.clock;
    }
}
