// What a desk began with.
use std::marker::Brand;

/// What a desk began with. What lies under a lock is known by its type alone, so the facts about the beginning reach it
/// as members of a type parameter. A program passes `Brand` to a function that opens a desk, runs its callers and
/// closes it, and there picks the members.
pub trait Naming<D> {
    ghost use Rattle.std.specs.Prelude.{ℕ};
    ghost use Rattle.atomic_table.specs.Seated.{TableId};
    ghost use Rattle.bow_core.specs.Views.{View};
    ghost use Rattle.bow_units.specs.declared.sizes.Geometry.{Geometry};

    /// The device over which it was opened.
    ghost begins: { View D → Type 0 };

    /// The sizes of that device.
    ghost sizes: { Geometry };

    /// The number of its callers.
    ghost callers: { ℕ };

    /// How many calls each may make.
    ghost allowed: { ℕ → ℕ };

    /// The section in which each call of a caller stands.
    ghost section: { ℕ → ℕ → ℕ };

    /// The table of its tags.
    ghost table: { TableId };
}

impl<D> Naming<D> for Brand {
    ghost use Rattle.std.specs.Prelude.{[]};

    ghost begins = { λ first. ⊥ };

    ghost sizes = { record { block_size = 0; blocks = 0 } };

    ghost callers = { 0 };

    ghost allowed = { λ lane. 0 };

    ghost section = { λ lane number. 0 };

    ghost table = { record { words = 0; slots = 0; views_name = 0; atom = 0; block = 0; offset = 0; slot_names = [] } };
}
