// One step on a sound table: told apart by its kind, its arguments tested, and done. The ranges are defined in
// crates/rules/specs/Step.antt.
#![tactic(auto)]

ghost use Rattle.std.specs.Prelude.{◌≡◌};
ghost use Rattle.tables.specs.SizeLaws.{Within};
ghost use Rattle.tables.specs.Shape.{shape};
ghost use Rattle.rules.specs.Step.{open_in_range, close_in_range, read_in_range, write_in_range, exchange_in_range};
ghost use Rattle.kinds.specs.Obeys.{answer_of, Sound};
ghost use Rattle.applying.specs.Asked.{step_of, step_in, Applied};

use kinds::Answer;
use tables::Table;
use tables::refusal::Refusal;
use views::Store;

// 01, "Steps": a step's five words. The kind stays a number: 01 tells a step apart by its kind word, of any value.
#[derive(Clone, Copy)]
pub struct StepWords {
    pub kind: u32,
    pub a: u32,
    pub b: u32,
    pub c: u32,
    pub d: u32,
}

impl From<[u32; 5]> for StepWords {
    fn from(words: [u32; 5]) -> Self
        ensures { step_of result ≡ step_in words }
    {
        let [kind, a, b, c, d] = words;
        StepWords { kind, a, b, c, d }
    }
}

// Are the arguments in range, kind by kind? A word that the kind does not use is 0. `Table::new` answers any sizes, so where a reach is shifted by N
// the limits are asked for.
impl StepWords {
    // | open | slot, guarantees |
    #[tactic(auto, unfolding(rules::specs::Step::open_in_range))]
    fn open_in_range(self, z: Table) -> bool
        ensures { result ≡ open_in_range (shape z) (step_of self) }
    {
        (self.a as usize) < z.p && self.b < Table::SUMS && self.c == 0 && self.d == 0
    }

    // | close | slot |
    #[tactic(auto, unfolding(rules::specs::Step::close_in_range))]
    fn close_in_range(self, z: Table) -> bool
        ensures { result ≡ close_in_range (shape z) (step_of self) }
    {
        (self.a as usize) < z.p && self.b == 0 && self.c == 0 && self.d == 0
    }

    // | read | slot, item, reach |
    #[tactic(auto, unfolding(rules::specs::Step::read_in_range, rules::specs::Step::reach_in_range))]
    fn read_in_range(self, z: Table) -> bool
        requires { Within (shape z) }
        ensures { result ≡ read_in_range (shape z) (step_of self) }
    {
        (self.a as usize) < z.p && self.b < Table::ITEMS && self.c >> z.n == 0 && self.d == 0
    }

    // | write | slot, item, value, reach |
    #[tactic(auto, unfolding(rules::specs::Step::write_in_range, rules::specs::Step::reach_in_range))]
    fn write_in_range(self, z: Table) -> bool
        requires { Within (shape z) }
        ensures { result ≡ write_in_range (shape z) (step_of self) }
    {
        (self.a as usize) < z.p && self.b < Table::ITEMS && self.d >> z.n == 0
    }

    // | exchange | from, to, most |
    #[tactic(auto, unfolding(rules::specs::Step::exchange_in_range))]
    fn exchange_in_range(self, z: Table) -> bool
        ensures { result ≡ exchange_in_range (shape z) (step_of self) }
    {
        (self.a as usize) < z.n && (self.b as usize) < z.n && self.d == 0
    }
}

// One step on a table that is known to be sound, and is sound after it. Refused as `OutOfRange` if it is of no kind or an argument is
// out of range.
pub fn apply(store: &mut Store<'_>, x: StepWords) -> Result<Answer, Refusal>
    requires { Sound store.old }
    ensures { Applied store.old (step_of x) (answer_of result) store.new }
{
    let z = store.sizes;
    let StepWords { kind, a, b, c, d } = x;
    // 01 tells a step apart by its kind word, a number of any value.
    match kind {
        1 if x.open_in_range(z) => kinds::sessions::open_slot(store, a as usize, b),
        2 if x.close_in_range(z) => kinds::sessions::close_slot(store, a as usize),
        3 if x.read_in_range(z) => serving::reading::read(store, a as usize, b, c),
        4 if x.write_in_range(z) => serving::writing::write(store, a as usize, b, c, d),
        5 if x.exchange_in_range(z) => kinds::exchanging::exchange(
            store, a as usize, b as usize, c,
        ),
        // An argument is out of range; or there is no such kind.
        1..=5 => Err(Refusal::OutOfRange),
        _ => Err(Refusal::OutOfRange),
    }
}
