// A table in lent words: a `View` to read it, a `Store` to change it.
#![tactic(auto)]

ghost use Rattle.std.specs.Prelude.{◌≡◌, ◌+◌, ◌<◌, ◌≤◌, get_or, length, map};
ghost use Rattle.words.specs.Lists.{part};
ghost use Rattle.logs.specs.Places.{write_in};
ghost use Rattle.tables.specs.Layout.{vector_at, count_at, read_at, write_at, guarantees_at, last_used_at, log_part, slot_part, decode};
ghost use Rattle.tables.specs.Shape.{shape, Laid};

use tables::Table;

// A table's words and its sizes, within the limits. There are as many words as the sizes ask for. Each method asks that its server or slot
// is one of the table's: a number's type can't say of which.
#[derive(Clone, Copy)]
pub struct View<'a> {
    pub words: &'a [u32],
    pub sizes: Table,
    ghost laid: { Laid (shape sizes) words.now },
}

impl<'a> View<'a> {
    // So many words from a place on.
    fn part(&self, at: usize, len: usize) -> &'a [u32]
        requires { at + len ≤ length self.now.words.now }
        ensures { result.now ≡ part self.now.words.now at len }
    {
        &self.words[at..at + len]
    }

    // Server i's vector.
    pub fn vector(&self, i: usize) -> &'a [u32]
        requires { i < self.now.sizes.n }
        ensures { result.now ≡ part self.now.words.now (vector_at (shape self.now.sizes) i 0) self.now.sizes.n }
    {
        self.part(self.sizes.vector_at(i), self.sizes.n)
    }

    // Component j of server i's vector.
    pub fn component(&self, i: usize, j: usize) -> u32
        requires { (i < self.now.sizes.n) × (j < self.now.sizes.n) }
        ensures { result ≡ (decode (shape self.now.sizes) self.now.words.now).vector i j }
    {
        self.vector(i)[j]
    }

    // Server i's count of writes.
    pub fn count(&self, i: usize) -> usize
        requires { i < self.now.sizes.n }
        ensures { result ≡ get_or self.now.words.now (count_at (shape self.now.sizes) i) 0 }
    {
        self.words[self.sizes.count_at(i)] as usize
    }

    // All places of server i's log.
    #[tactic(auto, unfolding(tables::specs::Layout::log_part))]
    pub fn places(&self, i: usize) -> &'a [u32]
        requires { i < self.now.sizes.n }
        ensures { result.now ≡ log_part (shape self.now.sizes) self.now.words.now i }
    {
        self.part(self.sizes.log_at(i), self.sizes.l * 4)
    }

    // Server i's log, whose count fits.
    pub fn log(&self, i: usize) -> &'a [[u32; 4]]
        requires { (i < self.now.sizes.n) × (get_or self.now.words.now (count_at (shape self.now.sizes) i) 0 ≤ self.now.sizes.l) }
        ensures { map write_in result.now ≡ (decode (shape self.now.sizes) self.now.words.now).log i }
    {
        logs::places(self.places(i), self.count(i))
    }

    // All words of slot k.
    #[tactic(auto, unfolding(tables::specs::Layout::slot_part, tables::specs::Layout::slot_width))]
    pub fn slot(&self, k: usize) -> &'a [u32]
        requires { k < self.now.sizes.p }
        ensures { result.now ≡ slot_part (shape self.now.sizes) self.now.words.now k }
    {
        self.part(self.sizes.slot_at(k), 2 * self.sizes.n + 2)
    }

    // Slot k's guarantees plus 1, or 0 where it is closed. The word itself: rule f reads it of any table.
    #[tactic(auto, unfolding(tables::specs::Layout::guarantees_at))]
    pub fn guarantees(&self, k: usize) -> u32
        requires { k < self.now.sizes.p }
        ensures { result ≡ get_or self.now.words.now (guarantees_at (shape self.now.sizes) k) 0 }
    {
        self.words[self.sizes.slot_at(k)]
    }

    // Slot k's last-used server plus 1, or 0. The word itself: rule f reads it of any table.
    #[tactic(auto, unfolding(tables::specs::Layout::last_used_at))]
    pub fn last_used(&self, k: usize) -> u32
        requires { k < self.now.sizes.p }
        ensures { result ≡ get_or self.now.words.now (last_used_at (shape self.now.sizes) k) 0 }
    {
        self.words[self.sizes.slot_at(k) + 1]
    }

    // Slot k's read-vector.
    pub fn read_vector(&self, k: usize) -> &'a [u32]
        requires { k < self.now.sizes.p }
        ensures { result.now ≡ part self.now.words.now (read_at (shape self.now.sizes) k 0) self.now.sizes.n }
    {
        self.part(self.sizes.read_at(k), self.sizes.n)
    }

    // Slot k's write-vector.
    pub fn write_vector(&self, k: usize) -> &'a [u32]
        requires { k < self.now.sizes.p }
        ensures { result.now ≡ part self.now.words.now (write_at (shape self.now.sizes) k 0) self.now.sizes.n }
    {
        self.part(self.sizes.write_at(k), self.sizes.n)
    }
}

// A table that is changed: its words are lent, and it keeps its sizes. That it is sound is asked for where it matters, and is no part of the
// type: between the writes of a step it isn't.
#[derive(Drop)]
pub struct Store<'a> {
    pub words: &'a mut [u32],
    pub sizes: Table,
    ghost laid: { Laid (shape sizes) words.now },
}

impl Store<'_> {
    // The table as it stands, for reading.
    pub fn view(&self) -> View<'_>
        ensures words { result.words.now ≡ self.now.words.now }
        ensures sizes { result.sizes ≡ self.now.sizes }
    {
        View {
            words: self.words,
            sizes: self.sizes,
        }
    }
}
