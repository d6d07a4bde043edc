// What follows for every kind of tray from the points that it shows.
#![tactic(auto)]

ghost use Rattle.std.specs.Prelude.{ℕ};
ghost use Rattle.kind_theorems.specs.Alone.{PutThenTake};

use kinds::kind::TrayKind;

// Left alone, a put into an empty tray and a take after it give the parcel back, and leave the tray empty.
pub fn put_then_take<K: TrayKind>()
    ensures { (k : ℕ) → PutThenTake (K.TrayKind.plan k) }
{
    K::show_points();
}
