//! What is true of forms and the programs that they expand to, whoever expands them.

ghost use Rattle.std.specs.Prelude.{◌≡◌, ◌≤◌, ℕ, List, Some, true};
ghost use Rattle.ql_forms.specs.Form.{Forms, forms_below};
ghost use Rattle.ql_expand.specs.Core.{Program};
ghost use Rattle.ql_expand.specs.ExpandFault.{expand_fault};
ghost use Rattle.ql_expand.specs.Expands.{ExpandsTo};
ghost use Rattle.ql_expand.specs.Primitives.{program_below, program_has_primitives};

/// A program has the numbers that stand in the forms, and some of reserved words.
#[tactic(auto, using(crate::proofs::Programs::has_numbers))]
pub fn expanded_numbers()
    ensures { (n : ℕ) (forms : Forms) (p : Program) → ExpandsTo forms p → 46 ≤ n → forms_below n forms ≡ true → program_below n p ≡ true }
{}

/// Each primitive of a program is one, and has as many operands as it takes.
#[tactic(auto, using(crate::proofs::Programs::primitives_are))]
pub fn expanded_primitives()
    ensures { (forms : Forms) (p : Program) → ExpandsTo forms p → program_has_primitives p ≡ true }
{}

/// The forms of a source expand to at most one program.
#[tactic(auto, using(crate::proofs::Unique::one_program))]
pub fn expands_to_at_most_one()
    ensures { (forms : Forms) (p q : Program) → ExpandsTo forms p → ExpandsTo forms q → p ≡ q }
{}

/// What is wrong with forms has kinds of its own.
#[tactic(auto, using(crate::proofs::FaultKinds::kinds_of_forms))]
pub fn forms_have_kinds_of_their_own()
    ensures { (names : List (List ℕ)) (forms : Forms) (at kind : ℕ) → expand_fault names forms ≡ Some (at, kind) → (9 ≤ kind) × (kind ≤ 11) }
{}
