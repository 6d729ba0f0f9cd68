// The tests of 01, "A sound table", on one log (c, d) and on two (e).
#![tactic(auto)]

ghost use Rattle.std.specs.Prelude.{◌≡◌, [], ◌∷◌, ◌&&◌, ◌||◌, suc, eqb, map};
ghost use Rattle.logs.specs.Write.{before};
ghost use Rattle.logs.specs.LogTests.{in_range, goes_on, ordered, greatest_of, agrees};
ghost use Rattle.logs.specs.Places.{write_in};
ghost use Rattle.logs.specs.Stored.{write_of};

use logs::Entry;

// Rule c: origins below n, items in range, in write order, the first clock 1 and no gap.
pub fn ordered(log: &[[u32; 4]], n: u32, items: u32) -> bool
    ensures { result ≡ ordered n items (map write_in log.now) }
{
    let [first, others @ ..] = log else {
        return true;
    };
    let first = Entry::from(*first);
    let ranges = Ranges { origins: n, items };
    ranges.starts(first) && ranges.goes_on_from(first, others)
}

// How many origins and how many items there are.
#[derive(Clone, Copy)]
struct Ranges {
    origins: u32,
    items: u32,
}

impl Ranges {
    // Are origin and item in range?
    fn hold(self, w: Entry) -> bool
        ensures { result ≡ in_range self.origins self.items (write_of w) }
    {
        w.origin < self.origins && w.item < self.items
    }

    // May a log begin with w: is it in range, and its clock 1?
    fn starts(self, w: Entry) -> bool
        ensures { result ≡ (in_range self.origins self.items (write_of w) && eqb w.clock 1) }
    {
        self.hold(w) && w.clock == 1
    }

    // Is the next write in range and behind the last one, with the same clock or one more?
    fn goes_on(self, last: Entry, next: Entry) -> bool
        ensures { result ≡ goes_on self.origins self.items (write_of last) (write_of next ∷ []) }
    {
        self.hold(next) && follows(last, next)
    }

    // Does each of these writes go on from the one before it, the first of them from w?
    fn goes_on_from(self, w: Entry, others: &[[u32; 4]]) -> bool
        ensures { result ≡ goes_on self.origins self.items (write_of w) (map write_in others.now) }
    {
        let mut last = w;
        for place in others {
            let next = Entry::from(*place);
            if !self.goes_on(last, next) {
                return false;
            }
            last = next;
        }
        true
    }
}

// Is it behind the last one, with the same clock or one more?
// The clocks are subtracted once their order is known; one more than the last might not fit.
fn follows(last: Entry, next: Entry) -> bool
    ensures { result ≡ (before (write_of last) (write_of next) && (eqb next.clock last.clock || eqb next.clock (suc last.clock))) }
{
    last.is_before(next) && next.clock - last.clock <= 1
}

// Rule d: the greatest clock of one origin, or 0.
pub fn greatest_of(log: &[[u32; 4]], origin: u32) -> u32
    ensures { result ≡ greatest_of origin (map write_in log.now) }
{
    log.iter()
        .copied()
        .map(Entry::from)
        .filter(|w| w.origin == origin)
        .map(|w| w.clock)
        .max()
        .unwrap_or(0)
}

// Rule e: are the log's entries of one origin exactly those of its home log with a clock at most c?
pub fn agrees(origin: u32, c: u32, log: &[[u32; 4]], home: &[[u32; 4]]) -> bool
    ensures { result ≡ agrees origin c (map write_in log.now) (map write_in home.now) }
{
    let ours = log
        .iter()
        .copied()
        .map(Entry::from)
        .filter(|w| w.origin == origin);
    let theirs = home
        .iter()
        .copied()
        .map(Entry::from)
        .filter(|w| w.origin == origin && w.clock <= c);
    ours.eq(theirs)
}
