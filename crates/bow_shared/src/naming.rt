// What a run began with.
use std::marker::Brand;

/// What a run began with. What lies under a lock is known by its type alone, so the facts about the beginning reach it
/// as members of a type parameter, which each run picks.
pub(crate) trait Naming<D> {
    ghost use Rattle.std.specs.Prelude.{List};
    ghost use Rattle.atomic_table.specs.Seated.{TableId};
    ghost use Rattle.bow_core.specs.Views.{View};
    ghost use Rattle.bow_history.specs.Sessions.{Turned};
    ghost use Rattle.bow_script.specs.declared.scripts.Line.{Line};
    ghost use Rattle.bow_units.specs.declared.sizes.Geometry.{Geometry};

    /// The devices over which the session was loaded.
    ghost loaded: { View D → Type 0 };

    /// The devices and the turns of which it was a run.
    ghost begun: { View D → List Turned → Type 0 };

    /// The session's script.
    ghost script: { List (List (List Line)) };

    /// The sizes of its device.
    ghost sizes: { Geometry };

    /// The status cell.
    ghost cell: { TableId };
}

impl<D> Naming<D> for Brand {
    ghost use Rattle.std.specs.Prelude.{[]};

    ghost loaded = { λ first. ⊥ };

    ghost begun = { λ first turns. ⊥ };

    ghost script = { [] };

    ghost sizes = { record { block_size = 0; blocks = 0 } };

    ghost cell = { record { words = 0; slots = 0; views_name = 0; atom = 0; block = 0; offset = 0; slot_names = [] } };
}
