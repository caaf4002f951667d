//! What is true of forms and their texts, as functions that do nothing.

ghost use Rattle.std.specs.Prelude.{◌≡◌, ℕ, true, List, length};
ghost use Rattle.ql_base.specs.Names.{AreDistinct};
ghost use Rattle.ql_forms.specs.Form as numbered;
ghost use Rattle.ql_forms.specs.Form.{forms_below};
ghost use Rattle.ql_forms.specs.Numbered.{Numbered, spelled_forms};
ghost use Rattle.ql_forms.specs.Spelled.{Form, Forms, none, more};
ghost use Rattle.ql_forms.specs.FormText.{form_text, forms_text, without_places, all_without_places, CanBeSpelled, AllCanBeSpelled};
ghost use Rattle.ql_forms.specs.Spells.{Spells};

/// What a text spells can be written.
pub fn spelled_forms_can_be_spelled()
    ensures { (b : List ℕ) (fs : Forms) → Spells b fs → AllCanBeSpelled 0 fs }
{}

/// The text of a form that can be spelled spells that form again, at other places.
pub fn written_form_reads_back()
    ensures { (f : Form) → CanBeSpelled 0 f → (g : Form) × (Spells (form_text f) (more g none)) × (without_places g ≡ without_places f) }
{}

/// The texts of forms that can be spelled, a line for each, spell those forms again, in order and at
/// other places.
pub fn forms_written_read_back()
    ensures { (fs : Forms) → AllCanBeSpelled 0 fs → (gs : Forms) × (Spells (forms_text fs) gs) × (all_without_places gs ≡ all_without_places fs) }
{}

/// Forms that are alike but for their places have one text.
pub fn places_are_not_written()
    ensures { (f g : Form) → without_places f ≡ without_places g → form_text f ≡ form_text g }
{}

/// In what a text spells each symbol has letters, so that its number is that of a name.
pub fn spelled_symbols_have_names()
    ensures { (b : List ℕ) (names : List (List ℕ)) (fs : numbered.Forms) → Spells b (spelled_forms names fs) → forms_below (length names) fs ≡ true }
{}

/// What is spelled is numbered in one way by a table of names without repeats.
pub fn numbered_at_most_one()
    ensures { (spelling : Forms) (names : List (List ℕ)) (fs gs : numbered.Forms)
        → AreDistinct names → Numbered spelling names fs → Numbered spelling names gs → fs ≡ gs }
{}
