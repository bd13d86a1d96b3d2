//! The one list in order of given things.

ghost use Rattle.std.specs.Prelude.{◌≡◌};
ghost use Rattle.std.specs.declared.cmp.Ordering.TheVariants.{Equal};
ghost use Rattle.si_model.specs.Order.{in_order};

/// Puts the elements in order, each once.
pub fn put_in_order<T: Ord + Drop>(items: &mut Vec<T>)
    requires exact { (a b : T) → T.cmp a b ≡ Equal → a ≡ b }
    ensures { items.new.items ≡ in_order T.cmp items.old.items }
{
    items.sort_unstable();
    items.dedup();
}
