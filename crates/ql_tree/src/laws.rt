//! What holds of every kill.

ghost use Rattle.std.specs.Prelude.{◌≡◌, ℕ, List};
ghost use Rattle.ql_world.specs.declared.world.Catch.{Catch};
ghost use Rattle.ql_world.specs.declared.world.Aim.TheVariants.{Die as die};
ghost use Rattle.ql_tree.specs.Tree.{Person};
ghost use Rattle.ql_tree.specs.Kill.{after_kill, aimed_at, changed_at_each, killed_numbers};

/// A kill aims the killed processes one after another.
pub fn killed_one_by_one()
    ensures { (catches : List Catch) (c owner : ℕ) (persons : List Person)
        → after_kill catches c owner persons ≡ changed_at_each (aimed_at die) persons (killed_numbers catches c owner persons) }
{}
