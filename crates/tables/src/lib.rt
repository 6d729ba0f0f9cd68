// The table: its type, which has the limits, and the offsets of its words. The layout is defined in specs/Layout.antt.
#![tactic(auto)]

ghost use Rattle.std.specs.Prelude.{◌≡◌, ◌+◌, ◌*◌, ◌<◌, ◌≤◌};
ghost use Rattle.tables.specs.Size.{Size, within};
ghost use Rattle.tables.specs.SizeLaws.{Within};
ghost use Rattle.tables.specs.Layout.{vector_at, count_at, log_at, slot_at, read_at, write_at, size};
ghost use Rattle.tables.specs.Shape.{shape, Offset};

pub mod making;
pub mod refusal;

// N servers, L places in each log and P session slots. The table's words are lent beside it. `new` answers a table of any sizes, and may
// not fail, so each offset asks that the limits hold; `View` and `Store` hold that they do.
#[derive(Clone, Copy)]
pub struct Table {
    pub n: usize,
    pub l: usize,
    pub p: usize,
}

impl Table {
    // 01, "Numbers": the most servers, places in a log and slots; how many items there are, and how many sums of guarantees.
    pub const SERVERS: usize = 16;

    pub const PLACES: usize = 1024;

    pub const SLOTS: usize = 16;

    pub const ITEMS: u32 = 256;

    pub const SUMS: u32 = 16;

    // A table of any sizes, as three words give them.
    pub fn new(n: u32, l: u32, p: u32) -> Self
        ensures { shape result ≡ record { n = n; l = l; p = p } }
    {
        Table {
            n: n as usize,
            l: l as usize,
            p: p as usize,
        }
    }

    // Are the sizes within the limits?
    #[tactic(auto, unfolding(crate::specs::Size::within))]
    pub fn is_within(self) -> bool
        ensures { result ≡ within (shape self) }
    {
        (1..=Table::SERVERS).contains(&self.n)
            && (1..=Table::PLACES).contains(&self.l)
            && (1..=Table::SLOTS).contains(&self.p)
    }

    // How many words there are.
    pub fn words(self) -> usize
        requires { Within (shape self) }
        ensures { (result ≡ size (shape self)) × (result ≤ 66356) }
    {
        let heads = self.n * (self.n + 1);
        let logs = self.n * (self.l * 4);
        let slots = self.p * (2 * self.n + 2);
        4 + heads + logs + slots
    }

    // Where server i's vector begins.
    pub fn vector_at(self, i: usize) -> usize
        requires { Within (shape self) × (i < self.n) }
        ensures { Offset (shape self) (vector_at (shape self) i 0) self.n result }
    {
        4 + i * (self.n + 1)
    }

    // Where server i's count of writes stands.
    pub fn count_at(self, i: usize) -> usize
        requires { Within (shape self) × (i < self.n) }
        ensures { Offset (shape self) (count_at (shape self) i) (1) result }
    {
        4 + i * (self.n + 1) + self.n
    }

    // Where server i's log begins.
    pub fn log_at(self, i: usize) -> usize
        requires { Within (shape self) × (i < self.n) }
        ensures { Offset (shape self) (log_at (shape self) i) (self.l * 4) result }
    {
        4 + self.n * (self.n + 1) + i * (self.l * 4)
    }

    // Where slot k begins: its guarantees.
    pub fn slot_at(self, k: usize) -> usize
        requires { Within (shape self) × (k < self.p) }
        ensures { Offset (shape self) (slot_at (shape self) k) (2 * self.n + 2) result }
    {
        4 + self.n * (self.n + 1) + self.n * (self.l * 4) + k * (2 * self.n + 2)
    }

    // Where slot k's read-vector begins.
    pub fn read_at(self, k: usize) -> usize
        requires { Within (shape self) × (k < self.p) }
        ensures { Offset (shape self) (read_at (shape self) k 0) self.n result }
    {
        self.slot_at(k) + 2
    }

    // Where slot k's write-vector begins.
    pub fn write_at(self, k: usize) -> usize
        requires { Within (shape self) × (k < self.p) }
        ensures { Offset (shape self) (write_at (shape self) k 0) self.n result }
    {
        self.slot_at(k) + 2 + self.n
    }
}
