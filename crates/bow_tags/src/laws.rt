// What the rule says of all seats together.
ghost use Rattle.atomic_table.specs.Table.{State};
ghost use Rattle.bow_tags.specs.declared.view.Slot.{Slot};
ghost use Rattle.bow_tags.specs.declared.view.View.{View};
ghost use Rattle.bow_tags.specs.Rule.{Rule};
ghost use Rattle.bow_tags.specs.Laws.{HeldOnce, NeverTakenAgain, GivenOnce, GotWasGiven};

use crate::view::Fits;

/// What holds of a table of tags and all its seats at each moment between two steps: a number is taken at most
/// once and answered at most once, and what a lane got was given.
pub fn rule_laws<P: Fits, Q>()
    ensures held_once { (s : State (Slot P Q) (View P Q)) → Rule P.fits s → HeldOnce s }
    ensures never_again { (s : State (Slot P Q) (View P Q)) → Rule P.fits s → NeverTakenAgain s }
    ensures given_once { (s : State (Slot P Q) (View P Q)) → Rule P.fits s → GivenOnce s }
    ensures got_was_given { (s : State (Slot P Q) (View P Q)) → Rule P.fits s → GotWasGiven s }
{}
