//! The levels of forms.

ghost use Rattle.std.specs.Prelude.{◌≡◌, ◌≤◌, ◌^◌, ◌+◌};
ghost use Rattle.ql_expand.specs.ExpandFault.{part_count, levels_added};
ghost use Rattle.ql_expand.specs.Parts.{split_in};

use crate::operator::Reading;
use crate::parts::Parts;

/// The deepest level of a form. Levels are numbers of 128 bits, which no count of parts makes wrap.
pub const DEEPEST: u128 = 400;

/// The level of the parts that were read like this, in a list at this level.
pub fn level_below(reading: Reading, level: u128, parts: Option<Parts>) -> u128
    requires { level ≤ 400 }
    ensures { result ≡ level + 1 + levels_added reading (split_in parts.entry) }
{
    let count = part_count(parts);
    let sugar = match reading {
        Reading::SugarForms(..) | Reading::SugarBindings | Reading::Clauses => true,
        Reading::Operands(_) => count != 2,
        _ => false,
    };
    if sugar {
        level + 2 * count + 2
    } else {
        level + 1
    }
}

// How many parts a list has, where sugar counts them.
#[tactic(auto, using(crate::proofs::Counts::as_many))]
fn part_count(parts: Option<Parts>) -> u128
    ensures count { result ≡ part_count (split_in parts.entry) }
    ensures few { result ≤ 2 ^ 65 }
{
    match parts {
        Some(Parts::Forms(forms)) => forms.len() as u128,
        Some(Parts::Bindings { binds, body }) => binds.len() as u128 + body.len() as u128,
        Some(Parts::Clauses(clauses)) => clauses.len() as u128,
        _ => 0,
    }
}
