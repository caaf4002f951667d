//! What is true of tables of names, as functions that do nothing.

ghost use Rattle.std.specs.Prelude.{ℕ, List};
ghost use Rattle.ql_base.specs.Names.{AreDistinct, reserved, with_names};

/// No name repeats among the reserved words and then any texts, each where it is new.
pub fn numbered_names_are_distinct()
    ensures { (texts : List (List ℕ)) → AreDistinct (with_names reserved texts) }
{}
