// Is a table sound? 01, "A sound table": rules a to f, in that order, on any slice of words. The rules are defined in
// crates/tables/specs/Sound.antt.
#![tactic(auto)]

ghost use Rattle.std.specs.Prelude.{◌≡◌};
ghost use Rattle.tables.specs.Shape.{shape};
ghost use Rattle.tables.specs.Sound.{sound};
ghost use Rattle.soundness.specs.Shares.{laid_out, rules_from_b, rules_from_c};

use agreement::Counted;
use tables::Table;
use views::View;

mod counts;
mod slots;

// Is the table sound: has it its length and header, and do rules b to f hold of its words?
#[tactic(auto, unfolding(tables::specs::Sound::sound, tables::specs::Sound::sound_at, tables::specs::Sound::rule_a, tables::specs::Layout::size_of, tables::specs::Layout::size, crate::specs::Shares::laid_out, crate::specs::Shares::rules_from_b, crate::specs::Shares::rules_from_c))]
pub fn sound(t: &[u32]) -> bool
    ensures { result ≡ sound t.now }
{
    let [n, l, p, 0, ..] = *t else {
        return false;
    };
    let sizes = Table::new(n, l, p);
    is_laid_out(t, sizes) && keeps_rules_from_b(&View { words: t, sizes })
}

// Rule a: are the sizes within the limits, and has the slice the length that they ask for?
#[tactic(auto, unfolding(crate::specs::Shares::laid_out))]
fn is_laid_out(t: &[u32], sizes: Table) -> bool
    ensures { result ≡ laid_out (shape sizes) t.now }
{
    sizes.is_within() && t.len() == sizes.words()
}

// Rules b to f.
#[tactic(auto, unfolding(crate::specs::Shares::rules_from_b))]
fn keeps_rules_from_b(view: &View) -> bool
    ensures { result ≡ rules_from_b (shape view.now.sizes) view.now.words.now }
{
    counts::all_counted(view) && keeps_rules_from_c(&Counted { view: *view })
}

// Rules c to f, of a table whose counts fit.
#[tactic(auto, unfolding(crate::specs::Shares::rules_from_c))]
fn keeps_rules_from_c(table: &Counted) -> bool
    ensures { result ≡ rules_from_c (shape table.now.view.sizes) table.now.view.words.now }
{
    table.all_in_order() && table.all_follow() && table.all_agree() && slots::all_hold(&table.view)
}
