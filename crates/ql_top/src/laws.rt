//! What is true of words, of sources, of what refuses them and of their runs, as functions that do nothing.

ghost use Rattle.std.specs.Prelude.{◌≡◌, ℕ, List, Some, true};
ghost use Rattle.ql_base.specs.declared.limits.Limits.{Limits};
ghost use Rattle.ql_forms.specs.Form.{Forms};
ghost use Rattle.ql_expand.specs.Core.{Program};
ghost use Rattle.ql_world.specs.Run.{Story};
ghost use Rattle.ql_host.specs.Host.{AreNames};
ghost use Rattle.ql_meaning.specs.Meaning.{program_told, program_planned};
ghost use Rattle.ql_top.specs.PlainWords.{IsPlain};
ghost use Rattle.ql_top.specs.Top.{IsText, Refusal, IsSource};
ghost use Rattle.ql_top.specs.Words.{asked};
ghost use Rattle.ql_top.specs.declared.words.Command.{Command};

use ql_base::laws::numbered_names_are_distinct;
use ql_expand::laws::expands_to_at_most_one;
use ql_forms::laws::{numbered_at_most_one, spelled_forms_can_be_spelled};
use ql_read::laws::{a_text_has_at_most_one_fault, spells_at_most_one};

/// Plain words ask for the command and the numbers that they write.
pub fn plain_words_ask()
    ensures { (words : List (List ℕ)) (command : Command) → IsPlain words command → asked words ≡ Some command }
{}

/// Bytes are refused for one thing alone.
pub fn refused_at_most_once()
    ensures { (bytes : List ℕ) (k n kind at : ℕ) → Refusal bytes k n → Refusal bytes kind at → (k ≡ kind) × (n ≡ at) }
{
    a_text_has_at_most_one_fault();
    spells_at_most_one();
    numbered_names_are_distinct();
    numbered_at_most_one();
    expands_to_at_most_one();
}

/// Nothing refuses the source of a program in scope with a code that isn't too long.
pub fn programs_are_accepted()
    ensures { (bytes : List ℕ) (program : Program) → IsSource bytes program → (kind at : ℕ) → Refusal bytes kind at → ⊥ }
{
    spells_at_most_one();
    numbered_names_are_distinct();
    numbered_at_most_one();
    expands_to_at_most_one();
}

/// Bytes are the source of at most one program, with one list of names.
pub fn at_most_one_program()
    ensures programs { (bytes : List ℕ) (p q : Program) → IsSource bytes p → IsSource bytes q → p ≡ q }
    ensures names { (bytes : List ℕ) (p q : Program) (s : IsSource bytes p) (t : IsSource bytes q) → s.names ≡ t.names }
{
    spells_at_most_one();
    numbered_names_are_distinct();
    numbered_at_most_one();
    expands_to_at_most_one();
}

/// The names of a text can be printed.
pub fn names_can_be_printed()
    ensures { (bytes : List ℕ) (names : List (List ℕ)) (forms : Forms) → IsText bytes names forms → AreNames names }
{
    spelled_forms_can_be_spelled();
}

/// A program has at most one whole run by one worker.
pub fn one_planned_schedule()
    ensures { (names : List (List ℕ)) (program : Program) (limits : Limits) (s t : List ℕ) (x y : Story)
        → program_told names program limits s ≡ Some x → program_told names program limits t ≡ Some y
        → program_planned names program limits s ≡ true → program_planned names program limits t ≡ true → s ≡ t }
{}
