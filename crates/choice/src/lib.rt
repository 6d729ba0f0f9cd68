// The choice of a server for one read or write of a session. Who passes and in which order the servers are tried is defined in
// crates/rules/specs/Choice.antt, the outcome of the search in specs/Outcome.antt.
#![tactic(auto)]

ghost use Rattle.std.specs.Prelude.{ℕ, true, false, ◌≡◌, ◌<◌, ◌&&◌, length};
ghost use Rattle.words.specs.Tests.{implies};
ghost use Rattle.vectors.specs.Vector.{vector_of, dominates};
ghost use Rattle.tables.specs.Layout.{decode};
ghost use Rattle.tables.specs.Shape.{shape};
ghost use Rattle.rules.specs.Choice.{start_of, next, reaches};
ghost use Rattle.choice.specs.OutcomeLaws.{Finds, Walks};
ghost use Rattle.choice.specs.Outcome.{Asking as Asks, session_in, current, has_bit, read_verdict, write_verdict, value_of, found};

use tables::refusal::Refusal;
use views::View;

// The bits of a sum of guarantees: 01, "Numbers".
const READ_YOUR_WRITES: u32 = 1;

const MONOTONIC_READS: u32 = 2;

const WRITES_FOLLOW_READS: u32 = 4;

const MONOTONIC_WRITES: u32 = 8;

// Does the vector a dominate the vector b, if that is asked for?
#[tactic(auto, unfolding(words::specs::Tests::implies))]
fn meets(wanted: bool, a: &[u32], b: &[u32]) -> bool
    requires { length a.now ≡ length b.now }
    ensures { result ≡ implies wanted (dominates (length a.now) (vector_of a.now) (vector_of b.now)) }
{
    !wanted || vectors::dominates(a, b)
}

// The server after i in the search order. By a test, since `(i + 1) % n` takes eight times as long.
#[tactic(auto, unfolding(rules::specs::Choice::next))]
fn next_of(n: usize, i: usize) -> usize
    requires { i < n }
    ensures { result ≡ next n i }
{
    if i + 1 == n { 0 } else { i + 1 }
}

// The session of an open slot of a sound table, that asks for a server in reach.
#[derive(Clone, Copy)]
pub struct Asking<'a> {
    pub table: View<'a>,
    pub slot: usize,
    pub reach: u32,
    ghost asks: { ∥ Asks (shape table.sizes) table.words.now slot ∥₁ },
}

impl Asking<'_> {
    // The sum of the session's guarantees.
    fn guarantees(&self) -> u32
        ensures { result ≡ (session_in (shape self.now.table.sizes) self.now.table.words.now self.now.slot).guarantees }
    {
        self.table.guarantees(self.slot) - 1
    }

    // Where the search starts: at the last-used server, or at 0.
    fn start(&self) -> usize
        ensures { result ≡ start_of (session_in (shape self.now.table.sizes) self.now.table.words.now self.now.slot) }
    {
        self.table.last_used(self.slot).saturating_sub(1) as usize
    }

    // Does server i's vector dominate the session's read-vector and write-vector, each if it is asked for?
    fn is_current(&self, i: usize, reads: bool, writes: bool) -> bool
        requires { i < self.now.table.sizes.n }
        ensures { result ≡ current (shape self.now.table.sizes) self.now.table.words.now self.now.slot reads writes i }
    {
        let vector = self.table.vector(i);
        meets(reads, vector, self.table.read_vector(self.slot))
            && meets(writes, vector, self.table.write_vector(self.slot))
    }

    // Is server i in reach and current, with each vector asked for by a guarantee's bit?
    #[tactic(auto, using(std::proofs::lemmas::Nat::Bits::shr_and_one), unfolding(rules::specs::Choice::reaches))]
    fn passes(&self, i: usize, reads: u32, writes: u32) -> bool
        requires { i < self.now.table.sizes.n }
        ensures { let z = shape self.now.table.sizes in let t = self.now.table.words.now in let k = self.now.slot in result ≡ (reaches self.now.reach i && current z t k (has_bit z t k reads) (has_bit z t k writes) i) }
    {
        let sum = self.guarantees();
        (self.reach >> i) & 1 == 1 && self.is_current(i, sum & reads != 0, sum & writes != 0)
    }

    // May the session read from server i, or is the server out of reach or behind?
    fn may_read(&self, i: usize) -> Result<(), Refusal>
        requires { i < self.now.table.sizes.n }
        ensures { result ≡ read_verdict (shape self.now.table.sizes) self.now.table.words.now self.now.slot self.now.reach i }
    {
        if self.passes(i, MONOTONIC_READS, READ_YOUR_WRITES) {
            Ok(())
        } else {
            Err(Refusal::Behind)
        }
    }

    // May the session write to server i, or is the server out of reach or behind, or is its log full?
    fn may_write(&self, i: usize) -> Result<(), Refusal>
        requires { i < self.now.table.sizes.n }
        ensures { result ≡ write_verdict (shape self.now.table.sizes) self.now.table.words.now self.now.slot self.now.reach i }
    {
        if !self.passes(i, WRITES_FOLLOW_READS, MONOTONIC_WRITES) {
            Err(Refusal::Behind)
        } else if self.table.count(i) < self.table.sizes.l {
            Ok(())
        } else {
            Err(Refusal::Full)
        }
    }

    // The first server in the search order that serves. Refused as `Full` if some server has no more than a full log against it, else as
    // `Behind`.
    fn search<F: Fn(usize) -> Result<(), Refusal>>(&self, may_use: F) -> Result<usize, Refusal>
        requires { (i : ℕ) → i < self.now.table.sizes.n → F.pre may_use i }
        ensures finds { let z = shape self.now.table.sizes in Finds (F.post may_use) z.n (start_of (session_in z self.now.table.words.now self.now.slot)) (value_of result) }
        ensures walks { let z = shape self.now.table.sizes in Walks (F.post may_use) z.n (start_of (session_in z self.now.table.words.now self.now.slot)) result }
    {
        let mut i = self.start();
        let mut left = self.table.sizes.n;
        let mut worst = Refusal::Behind;
        // The scope paper asks for a loop round the servers that breaks with the chosen one. A `for` can't break with a value.
        loop {
            if left == 0 {
                break Err(worst);
            }
            match may_use(i) {
                Ok(()) => break Ok(i),
                Err(refusal) => worst = worst.max(refusal),
            }
            i = next_of(self.table.sizes.n, i);
            left -= 1;
        }
    }

    // The server for a read of the session: the first in the search order that is reachable and up to date, or `Behind`.
    pub fn search_to_read(&self) -> Result<usize, Refusal>
        ensures { let z = shape self.now.table.sizes in let t = self.now.table.words.now in value_of result ≡ found false z (decode z t) (session_in z t self.now.slot) self.now.reach }
    {
        self.search(|i| self.may_read(i))
    }

    // The server for a write of the session: the first in the search order that is reachable, up to date and not full. Refused as `Full`
    // if some reachable server is up to date, else as `Behind`.
    pub fn search_to_write(&self) -> Result<usize, Refusal>
        ensures { let z = shape self.now.table.sizes in let t = self.now.table.words.now in value_of result ≡ found true z (decode z t) (session_in z t self.now.slot) self.now.reach }
    {
        self.search(|i| self.may_write(i))
    }
}
