//! The forms of a source, written.

ghost use Rattle.std.specs.Prelude.{◌≡◌, IfOk};
ghost use Rattle.ql_forms.specs.FormText.{forms_text};
ghost use Rattle.ql_forms.specs.View.{spellings_of};

use ql_forms::text::Text;
use ql_forms::write::write_form;
use std::alloc::{AllocError, Global};

/// Each form in its one spelling, and a line feed after each.
pub fn lines_of(alloc: Global, text: &Text) -> Result<Vec<u8>, AllocError>
    ensures { IfOk result (λ lines. lines.items ≡ forms_text (spellings_of text.now.names text.now.forms)) }
{
    let mut lines = Vec::new(alloc);
    let forms = text.forms.as_slice();
    for form in forms {
        write_form(alloc, form, &text.names, &mut lines)?;
        lines.push(b'\n')?;
    }
    Ok(lines)
}
