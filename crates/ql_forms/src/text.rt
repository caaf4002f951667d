//! The forms of a source and the names in them.

ghost use Rattle.std.specs.Prelude.{◌≡◌, true, length};
ghost use Rattle.ql_forms.specs.Form.{forms_below};
ghost use Rattle.ql_forms.specs.View.{forms_of};

use crate::form::Form;
use ql_base::names::Names;
use sqlite_items::Items;

/// The forms of a source, in order, and the names of their symbols. It keeps that the number of each
/// symbol is that of a name.
#[derive(Drop)]
pub struct Text {
    pub forms: Items<Form>,
    pub names: Names,
    pub ghost numbered: { forms_below (length names) (forms_of forms) ≡ true },
}
