//! What stands between a part and the whole, where parts stand side by side.

ghost use Rattle.behaviour_semantics.specs.WellFormed.{Every};
ghost use Rattle.lotos_base.specs.Signature.{Signature};
ghost use Rattle.shared_entries.specs.Items.{HasItemTerms};
ghost use Rattle.menu_parts.specs.Spread.{AreByWay, by_way};
ghost use Rattle.std.specs.Prelude.{IfOk};

use behaviour_tree::Meet;
use lotos_base::NoMemory;
use shared_entries::Variant;
use shared_entries::items::Item;
use shared_entries::rules::PartRule;

/// The way from a part up to the whole.
#[derive(Clone, Copy)]
pub enum Way<'a> {
    /// The part is the whole.
    Top,
    /// The part is the left side of another one.
    Left(&'a Way<'a>),
    /// The part is the right side of another one.
    Right(&'a Way<'a>),
    /// The part stands under a relabelling.
    Under(&'a Vec<(u32, u32)>, &'a Way<'a>),
}

impl Way<'_> {
    /// What the whole has of the entries of the part.
    pub fn entries(&self, items: &Vec<Item>) -> Result<Vec<Item>, NoMemory>
        ensures { IfOk result (λ made. (signature : Signature)
            → Every (HasItemTerms signature) items.now.items
            → AreByWay signature (by_way self.now) items.now.items made.items) }
    {
        match self {
            Way::Top => PartRule::Same.apply_to_all(items),
            Way::Left(above) => {
                let made = PartRule::Alone(&Meet::Nothing, Variant::Left).apply_to_all(items)?;
                above.entries(&made)
            }
            Way::Right(above) => {
                let made = PartRule::Alone(&Meet::Nothing, Variant::Right).apply_to_all(items)?;
                above.entries(&made)
            }
            Way::Under(pairs, above) => {
                let made = PartRule::Under(pairs).apply_to_all(items)?;
                above.entries(&made)
            }
        }
    }
}
