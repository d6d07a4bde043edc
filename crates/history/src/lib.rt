// What happened on a day, the plain lists that explain it, and the promises about it.
#![tactic(auto)]

ghost use Rattle.history.specs.PlainLists.{PlainChange};
ghost use Rattle.history.specs.Promises.{OrderCarries};

// The plain lists change by the one parcel that their answer names, or not at all where the tray was empty.
pub fn plain_lists_change_by_one()
    ensures { PlainChange }
{}

// Where one order explains all answers, each change is of the parcel that its request was answered with.
pub fn answers_name_what_changed()
    ensures { OrderCarries }
{}
