//! What is true of texts, their forms and their faults, whoever reads them.

ghost use Rattle.std.specs.Prelude.{◌≡◌, ◌≤◌, ◌<◌, ◌++◌, ℕ, List, length};
ghost use Rattle.ql_forms.specs.Spelled.{Forms};
ghost use Rattle.ql_forms.specs.Spells.{Spells};
ghost use Rattle.ql_read.specs.TextFault.{TextFault, Verdict, limit, unfinished};

/// A text spells at most one list of forms.
pub fn spells_at_most_one()
    ensures { (b : List ℕ) (f g : Forms) → Spells b f → Spells b g → f ≡ g }
{}

/// Each text has a fault, or is short and spells forms.
pub fn each_text_is_judged()
    ensures { (b : List ℕ) → Verdict b }
{}

/// No text has two faults.
pub fn a_text_has_at_most_one_fault()
    ensures { (b : List ℕ) (k l m n : ℕ) → TextFault b k m → TextFault b l n → (k ≡ l) × (m ≡ n) }
{}

/// A text that spells forms has no fault, but where it is too long.
pub fn what_has_a_fault_spells_nothing()
    ensures { (b : List ℕ) (k n : ℕ) (f : Forms) → Spells b f → length b ≤ limit → TextFault b k n → ⊥ }
{}

/// A fault that isn't an early end is the fault of each text that begins so.
pub fn a_fault_stays()
    ensures { (b rest : List ℕ) (k n : ℕ) → TextFault b k n → k < unfinished → TextFault (b ++ rest) k n }
{}
