//! What a host sees of a process.

ghost use Rattle.std.specs.Prelude.{◌≡◌, ◌==◌, ◌∷◌, [], List, ℕ, suc, true, false, ◌++◌, IfOk, OnSome, MatchOption, drop, is_some, length, option_to_list, slice_get};
ghost use Rattle.ql_world.specs.declared.word.Slot.{Slot};
ghost use Rattle.ql_world.specs.declared.world.Cleanup.{Cleanup};
ghost use Rattle.ql_world.specs.Idle.{in_cleanup};
ghost use Rattle.ql_world.specs.Word.{first_future};
ghost use Rattle.ql_code.specs.Machine.{Item, slot, mark, word, words, frame_of, slot_at, slots_at, top_mark, cleanups_on, innermost_on};
ghost use Rattle.ql_proc.specs.Slots.{HasWords};
ghost use Rattle.ql_proc.specs.Looks.{mark_on, mark_under, IsFirst};

use crate::process::Proc;
use ql_code::mark::Mark;
use ql_world::word::{Slot, Word};
use ql_world::world::Cleanup;
use sqlite_items::Items;
use std::alloc::{AllocError, Global};

impl Proc {
    /// The topmost item, where it is a word.
    pub fn top_word(&self) -> Option<Word>
        ensures words { option_to_list result ≡ words 1 self.now.stack.items }
        ensures shape { OnSome result (HasWords 1 self.now.stack.items) }
    {
        self.stack.word_under(0)
    }

    /// The topmost two items, where they are words. The first stands under the second.
    pub fn top_two(&self) -> Option<(Word, Word)>
        ensures { MatchOption result ((length (words 2 self.now.stack.items) == 2) ≡ false) (λ w. words 2 self.now.stack.items ≡ w.0 ∷ (w.1 ∷ [])) }
    {
        let upper = self.stack.word_under(0)?;
        let lower = self.stack.word_under(1)?;
        Some((lower, upper))
    }

    /// Whether the topmost so many items are words.
    pub fn has_words(&self, count: u32) -> bool
        ensures { result ≡ (length (words count self.now.stack.items) == count) }
    {
        self.stack.has_words(count as usize)
    }

    /// The word under the topmost so many.
    pub fn word_under(&self, count: u32) -> Option<Word>
        requires { HasWords count self.now.stack.items }
        ensures { option_to_list result ++ words count self.now.stack.items ≡ words (suc count) self.now.stack.items }
    {
        self.stack.word_under(count as usize)
    }

    /// The leftmost future among the topmost so many words.
    pub fn first_future(&self, count: u32) -> Option<u32>
        ensures { result ≡ first_future (words count self.now.stack.items) }
    {
        self.stack.first_future(count as usize)
    }

    /// Whether the topmost item is a future.
    pub fn top_is_future(&self) -> bool
        ensures { result ≡ is_some (first_future (words 1 self.now.stack.items)) }
    {
        self.stack.first_future(1).is_some()
    }

    /// The topmost so many words, the topmost one last.
    pub fn words(&self, alloc: Global, count: u32) -> Result<Vec<Word>, AllocError>
        requires { HasWords count self.now.stack.items }
        ensures { IfOk result (λ ws. ws.items ≡ words count self.now.stack.items) }
    {
        self.stack.words(alloc, count as usize)
    }

    /// The slot at this place of the frame.
    pub fn local(&self, at: u32) -> Option<Slot>
        ensures { result ≡ slot_at (frame_of self.now.stack.items) at }
    {
        self.stack.local(at)
    }

    /// The slots at these places of the frame, with nil where there is none.
    pub fn captured(&self, alloc: Global, places: &[u32]) -> Result<Items<Slot>, AllocError>
        ensures { IfOk result (λ slots. slots ≡ slots_at (frame_of self.now.stack.items) places.now) }
    {
        self.stack.captured(alloc, places)
    }

    /// The topmost mark.
    pub fn top_mark(&self) -> Option<Mark>
        ensures { result ≡ top_mark self.now.stack.items }
    {
        self.stack.mark()
    }

    /// The topmost item, where it is a mark.
    pub fn mark_on_top(&self) -> Option<Mark>
        ensures mark { result ≡ mark_on self.now.stack.items }
        ensures shape { MatchOption result (Unit {0}) (λ k. (rest : List Item) × (self.now.stack.items ≡ mark k ∷ rest)) }
    {
        self.stack.mark_on_top()
    }

    /// The mark under the topmost slot.
    pub fn mark_under_slot(&self) -> Option<Mark>
        ensures mark { result ≡ mark_under self.now.stack.items }
        ensures shape { MatchOption result (Unit {0}) (λ k. (s : Slot) × (rest : List Item) × (self.now.stack.items ≡ slot s ∷ (mark k ∷ rest))) }
    {
        self.stack.mark_under_slot()
    }

    /// The innermost running cleanup.
    pub fn cleanup(&self) -> Option<Cleanup>
        ensures { IsFirst result (cleanups_on self.now.stack.items) }
    {
        self.stack.cleanup()
    }

    /// The cleanup that runs round the innermost one.
    pub fn outer_cleanup(&self) -> Option<Cleanup>
        ensures { IsFirst result (drop 1 (cleanups_on self.now.stack.items)) }
    {
        self.stack.outer_cleanup()
    }

    /// Whether a cleanup runs.
    pub fn is_in_cleanup(&self) -> bool
        ensures { result ≡ in_cleanup (cleanups_on self.now.stack.items) }
    {
        self.stack.cleanup().is_some()
    }

    /// The innermost catch.
    pub fn innermost(&self) -> Option<u32>
        ensures { result ≡ innermost_on self.now.stack.items }
    {
        self.stack.innermost()
    }
}
