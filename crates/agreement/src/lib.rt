// Rules c, d and e, on logs whose counts fit: each log by itself, with its server's vector, and with the logs of its writes' origins.
#![tactic(auto)]

ghost use Rattle.std.specs.Prelude.{true, ◌≡◌, ◌<◌, map};
ghost use Rattle.words.specs.Tests.{all};
ghost use Rattle.logs.specs.Places.{write_in};
ghost use Rattle.tables.specs.Layout.{decode};
ghost use Rattle.tables.specs.Shape.{shape};
ghost use Rattle.tables.specs.Sound.{rule_b, rule_c, rule_d, rule_e};
ghost use Rattle.agreement.specs.Shares.{in_order, follows, agrees_with};

use tables::Table;
use views::View;

// A table whose counts fit: its logs can be read.
#[derive(Clone, Copy)]
pub struct Counted<'a> {
    pub view: View<'a>,
    ghost counts: { rule_b (shape view.sizes) view.words.now ≡ true },
}

impl<'a> Counted<'a> {
    // Rule c, of every log.
    pub fn all_in_order(&self) -> bool
        ensures { result ≡ rule_c (shape self.now.view.sizes) (decode (shape self.now.view.sizes) self.now.view.words.now) }
    {
        (0..self.view.sizes.n).all(|i| self.is_in_order(i))
    }

    // Rule c, of server i's log.
    #[tactic(auto, unfolding(crate::specs::Shares::in_order))]
    fn is_in_order(&self, i: usize) -> bool
        requires { i < self.now.view.sizes.n }
        ensures { result ≡ in_order (shape self.now.view.sizes) self.now.view.words.now i }
    {
        checks::ordered(self.log(i), self.view.sizes.n as u32, Table::ITEMS)
    }

    // Rule d, of every server's vector.
    pub fn all_follow(&self) -> bool
        ensures { result ≡ rule_d (shape self.now.view.sizes) (decode (shape self.now.view.sizes) self.now.view.words.now) }
    {
        (0..self.view.sizes.n).all(|i| self.vector_follows(i))
    }

    // Rule d, of server i's vector. Of a chain in another chain's closure the proof would learn nothing, here and in `log_agrees`.
    fn vector_follows(&self, i: usize) -> bool
        requires { i < self.now.view.sizes.n }
        ensures { result ≡ all self.now.view.sizes.n (follows (shape self.now.view.sizes) self.now.view.words.now i) }
    {
        (0..self.view.sizes.n).all(|j| self.follows(i, j))
    }

    // Rule d, of component j of server i's vector.
    #[tactic(auto, unfolding(crate::specs::Shares::follows))]
    fn follows(&self, i: usize, j: usize) -> bool
        requires { (i < self.now.view.sizes.n) × (j < self.now.view.sizes.n) }
        ensures { result ≡ follows (shape self.now.view.sizes) self.now.view.words.now i j }
    {
        self.view.component(i, j) == checks::greatest_of(self.log(i), j as u32)
    }

    // Rule e, of every server's log.
    pub fn all_agree(&self) -> bool
        ensures { result ≡ rule_e (shape self.now.view.sizes) (decode (shape self.now.view.sizes) self.now.view.words.now) }
    {
        (0..self.view.sizes.n).all(|i| self.log_agrees(i))
    }

    // Rule e, of server i's log.
    fn log_agrees(&self, i: usize) -> bool
        requires { i < self.now.view.sizes.n }
        ensures { result ≡ all self.now.view.sizes.n (agrees_with (shape self.now.view.sizes) self.now.view.words.now i) }
    {
        (0..self.view.sizes.n).all(|j| self.agrees_with(i, j))
    }

    // Rule e, of server i's log and the writes of origin j.
    #[tactic(auto, unfolding(crate::specs::Shares::agrees_with))]
    fn agrees_with(&self, i: usize, j: usize) -> bool
        requires { (i < self.now.view.sizes.n) × (j < self.now.view.sizes.n) }
        ensures { result ≡ agrees_with (shape self.now.view.sizes) self.now.view.words.now i j }
    {
        let known = self.view.component(i, j);
        checks::agrees(j as u32, known, self.log(i), self.log(j))
    }

    // Server i's log.
    fn log(&self, i: usize) -> &'a [[u32; 4]]
        requires { i < self.now.view.sizes.n }
        ensures { map write_in result.now ≡ (decode (shape self.now.view.sizes) self.now.view.words.now).log i }
    {
        self.view.log(i)
    }
}
