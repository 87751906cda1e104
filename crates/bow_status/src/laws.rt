// What the rule says of all that look at a cell together.
ghost use Rattle.std.specs.Prelude.{List};
ghost use Rattle.bow_status.specs.declared.shown.Shown.{Shown};
ghost use Rattle.bow_status.specs.declared.view.View.{View};
ghost use Rattle.bow_status.specs.Rising.{EqualVersionsAreOne, SeenWasSent, StatusRule};

/// What holds of a cell, its publisher and its watchers at each moment between two steps: two watchers that saw
/// the same version saw the same value, and what a watcher saw was published, or is the opening value.
pub fn rule_laws()
    ensures equal { (x : Shown) (views : List View) → StatusRule x views → EqualVersionsAreOne views }
    ensures sent { (x : Shown) (views : List View) → StatusRule x views → SeenWasSent views }
{}
