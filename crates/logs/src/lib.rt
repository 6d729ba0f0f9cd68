// One log in words: places of four words each, lent as `[u32; 4]` where it is read, and as words and a count where it is written.
// A log's words are defined in specs/Places.antt, what a log is in specs/Write.antt and specs/Log.antt.
#![tactic(auto)]

ghost use Rattle.std.specs.Prelude.{◌≡◌, [], ◌∷◌, ◌+◌, ◌*◌, ◌≤◌, length, drop, map};
ghost use Rattle.words.specs.Lists.{splice};
ghost use Rattle.logs.specs.Write.{before};
ghost use Rattle.logs.specs.Places.{spelled, entry, entries, write_in};
ghost use Rattle.logs.specs.Stored.{write_of};

// One write, as it stands in a place.
#[derive(Clone, Copy, PartialEq, Eq, Debug, Default)]
pub struct Entry {
    pub origin: u32,
    pub clock: u32,
    pub item: u32,
    pub value: u32,
}

impl From<[u32; 4]> for Entry {
    ghost from_gives = { λ words w. write_of w ≡ write_in words };

    fn from(words: [u32; 4]) -> Self {
        let [origin, clock, item, value] = words;
        Entry {
            origin,
            clock,
            item,
            value,
        }
    }
}

impl From<Entry> for [u32; 4] {
    ghost from_gives = { λ w words. words ≡ spelled (write_of w ∷ []) };

    fn from(w: Entry) -> Self {
        [w.origin, w.clock, w.item, w.value]
    }
}

impl Entry {
    // Clock and origin as one number: the write order is the order of these.
    fn rank(self) -> u64
        ensures { result ≡ self.clock * 4294967296 + self.origin }
    {
        u64::from(self.clock) * 4294967296 + u64::from(self.origin)
    }

    // Does it come before the other in the write order?
    // No `PartialOrd`: `==` compares item and value too, which the write order leaves out.
    pub fn is_before(self, other: Entry) -> bool
        ensures { result ≡ before (write_of self) (write_of other) }
    {
        // Clock and origin one by one, or as pairs, take about twice the time in the test of a full log.
        let ours = self.rank();
        let theirs = other.rank();
        ours < theirs
    }
}

// The first places of a log, as many as its count says.
pub fn places(log: &[u32], count: usize) -> &[[u32; 4]]
    requires { count * 4 ≤ length log.now }
    ensures writes { map write_in result.now ≡ entries count log.now }
    ensures many { length result.now ≡ count }
{
    log[..count * 4].as_chunks().0
}

// The write in place e.
pub fn entry_at(log: &[u32], e: usize) -> Entry
    requires { e * 4 + 4 ≤ length log.now }
    ensures { write_of result ≡ entry (drop (e * 4) log.now) }
{
    Entry::from(log.as_chunks::<4>().0[e])
}

// Puts a write into place e.
pub fn put(log: &mut [u32], e: usize, w: Entry)
    requires { e * 4 + 4 ≤ length log.old }
    ensures { log.new ≡ splice (e * 4) 4 log.old (spelled (write_of w ∷ [])) }
{
    words::put(log, e, &w.into());
}
