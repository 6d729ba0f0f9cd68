// Rule f: "a closed slot is all zero; an open one has guarantees 1 to 16, last-used 0 to N, and vector components at j no greater than
// server j's own vector at j".
ghost use Rattle.std.specs.Prelude.{◌≡◌, ◌<◌, length};
ghost use Rattle.vectors.specs.Vector.{vector_of};
ghost use Rattle.tables.specs.Layout.{decode};
ghost use Rattle.tables.specs.Shape.{shape};
ghost use Rattle.tables.specs.Sound.{rule_f};
ghost use Rattle.soundness.specs.Shares.{slot_holds, open_holds, none_above};

use tables::Table;
use views::View;

// Rule f, of every slot.
pub fn all_hold(view: &View) -> bool
    ensures { result ≡ rule_f (shape view.now.sizes) (decode (shape view.now.sizes) view.now.words.now) view.now.words.now }
{
    (0..view.sizes.p).all(|k| slot_holds(view, k))
}

// Rule f, of slot k.
fn slot_holds(view: &View, k: usize) -> bool
    requires { k < view.now.sizes.p }
    ensures { result ≡ slot_holds (shape view.now.sizes) view.now.words.now k }
{
    if view.guarantees(k) == 0 {
        words::all_zero(view.slot(k))
    } else {
        open_slot_holds(view, k)
    }
}

// Rule f, of slot k, which is open.
#[tactic(auto, unfolding(crate::specs::Shares::open_holds))]
fn open_slot_holds(view: &View, k: usize) -> bool
    requires { k < view.now.sizes.p }
    ensures { result ≡ open_holds (shape view.now.sizes) view.now.words.now k }
{
    view.guarantees(k) <= Table::SUMS
        && view.last_used(k) as usize <= view.sizes.n
        && none_above(view, view.read_vector(k))
        && none_above(view, view.write_vector(k))
}

// Is each component of a session's vector at most that server's own?
fn none_above(view: &View, vector: &[u32]) -> bool
    requires { length vector.now ≡ view.now.sizes.n }
    ensures { result ≡ none_above (shape view.now.sizes) view.now.words.now (vector_of vector.now) }
{
    (0..view.sizes.n).all(|j| vector[j] <= view.component(j, j))
}
