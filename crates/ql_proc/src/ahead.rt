//! Whether a tick stays within the window, before it is taken.

ghost use Rattle.std.specs.Prelude.{◌≡◌, ◌∷◌, ◌++◌, OnSome, true, false, is_some, length, map, option_map, option_to_list, [], drop as without_first};
ghost use Rattle.ql_code.specs.declared.mark.Mark.TheVariants.{Returning as returning};
ghost use Rattle.ql_code.specs.Machine.{slot, mark, word, words, push, top_mark, below_mark};
ghost use Rattle.ql_code.specs.LocalPath.{settle_in, untouched};
ghost use Rattle.ql_proc.specs.Slots.{HasWords};

use crate::inside::{lowered, stays};
use crate::process::Proc;
use ql_code::code::Code;
use ql_code::mark::Mark;
use ql_world::word::{Slot, Word};

impl Proc {
    /// Whether the silent instructions from a place on stay within the window, once the topmost so many words have given
    /// way to this slot, or to none.
    pub(crate) fn stays_with(
        &self,
        code: &Code,
        place: u32,
        top: Option<Slot>,
        count: usize,
    ) -> bool
        requires { HasWords count self.now.stack.items }
        ensures { result ≡ is_some (settle_in code.now.instructions (length code.now.instructions) place (map slot (option_to_list top) ++ without_first count self.now.stack.items)) }
    {
        stays(
            code,
            place,
            top,
            lowered(self.stack.loose(), count),
            self.stack.mark(),
        )
    }

    /// The same once the topmost so many words stand on the mark of a call.
    pub(crate) fn stays_called(&self, code: &Code, place: u32, count: usize, back: u32) -> bool
        requires { HasWords count self.now.stack.items }
        ensures { result ≡ is_some (settle_in code.now.instructions (length code.now.instructions) place (push (words count self.now.stack.items) (mark (returning back) ∷ without_first count self.now.stack.items))) }
    {
        stays(
            code,
            place,
            None,
            self.stack.uppermost(count),
            Some(Mark::Returning(back)),
        )
    }

    /// The same once all down to the topmost mark, with that mark, has given way to a word.
    pub(crate) fn stays_given(&self, code: &Code, place: u32, w: Word) -> bool
        ensures { result ≡ is_some (settle_in code.now.instructions (length code.now.instructions) place (word w ∷ below_mark self.now.stack.items)) }
    {
        stays(
            code,
            place,
            Some(Slot::Val(w)),
            self.stack.loose_below(),
            self.stack.mark_below(),
        )
    }

    /// The topmost item, where it is a word and no future.
    pub(crate) fn top_value(&self) -> Option<Word>
        ensures words { option_map (λ w. w ∷ []) result ≡ untouched 1 self.now.stack.items }
        ensures shape { OnSome result (HasWords 1 self.now.stack.items) }
    {
        let w = self.top_word()?;
        if w.is_future() { None } else { Some(w) }
    }

    /// The topmost two items, where they are words and no futures. The first stands under the second.
    pub(crate) fn top_two_values(&self) -> Option<(Word, Word)>
        ensures words { option_map (λ w. w.0 ∷ (w.1 ∷ [])) result ≡ untouched 2 self.now.stack.items }
        ensures shape { OnSome result (HasWords 2 self.now.stack.items) }
    {
        let (lower, upper) = self.top_two()?;
        if lower.is_future() || upper.is_future() {
            None
        } else {
            Some((lower, upper))
        }
    }
}
