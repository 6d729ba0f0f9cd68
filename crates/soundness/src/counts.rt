// Rule b: "each count is at most L; places past the count are all zero".
ghost use Rattle.std.specs.Prelude.{◌≡◌, ◌<◌};
ghost use Rattle.tables.specs.Shape.{shape};
ghost use Rattle.tables.specs.Sound.{rule_b};
ghost use Rattle.soundness.specs.Shares.{counted};

use views::View;

// Rule b, of every server.
pub fn all_counted(view: &View) -> bool
    ensures { result ≡ rule_b (shape view.now.sizes) view.now.words.now }
{
    (0..view.sizes.n).all(|i| is_counted(view, i))
}

// Rule b, of server i.
#[tactic(auto, unfolding(crate::specs::Shares::counted))]
fn is_counted(view: &View, i: usize) -> bool
    requires { i < view.now.sizes.n }
    ensures { result ≡ counted (shape view.now.sizes) view.now.words.now i }
{
    let count = view.count(i);
    count <= view.sizes.l && words::all_zero(&view.places(i)[count * 4..])
}
