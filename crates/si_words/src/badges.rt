//! A seat behind a reference lies in a badge, since a join takes it by value.
ghost use Rattle.std.specs.Prelude.{◌≡◌, [], ◌∷◌};
ghost use Rattle.si_words.specs.declared.views.View.{View};

use crate::rule::TableSeat;
use crate::views::View;
use atomic_table::Badge;
use std::mem;

/// Takes the seat out of its badge.
pub(crate) fn take_seat(badge: &mut Badge<View>) -> TableSeat
    requires { (v : View) × (badge.old.views ≡ v ∷ []) }
    ensures { (result.table_id ≡ badge.old.table_id) × (badge.old.views ≡ result.me.0 ∷ []) × (result.me.1 ≡ []) }
{
    mem::replace(badge, Badge::blank()).into_seat()
}
