//! What holds of every journal and of every text.

ghost use Rattle.std.specs.Prelude.{◌≡◌, ◌≢◌, ℕ, Bool, List, reverse};
ghost use Rattle.ql_world.specs.Event.{Journal, with_tick};
ghost use Rattle.ql_world.specs.declared.event.Event.{Event};
ghost use Rattle.ql_world.specs.declared.event.Event.TheVariants.{Turn};
ghost use Rattle.ql_world.specs.Text.{journal_text};
ghost use Rattle.ql_journal.specs.Grammar.{AreEvents, IsEvent, IsJournal, Judges, Verdict, after_all, other_line, stop_line};
ghost use Rattle.ql_journal.specs.Growing.{pushed, Fits};

/// No text is judged in two ways.
pub fn one_verdict()
    ensures { (text : List ℕ) (v w : Verdict) → Judges text v → Judges text w → v ≡ w }
{}

/// No two journals have one text, also where they aren't whole.
pub fn one_text()
    ensures { (j k : Journal) → IsJournal j → IsJournal k → journal_text j ≡ journal_text k → j ≡ k }
{}

/// A tick is a turn of one: so a journal grows by ticks as the definition of a run says.
pub fn one_tick()
    ensures { (p : ℕ) (es : List Event) → pushed (Turn p 1) es ≡ with_tick p es }
{}

/// Where no stop line stands yet, a journal with one more event that can stand in it is a journal.
pub fn growing_keeps()
    ensures { (texts : Bool) (e : Event) (es fs : List Event)
        → AreEvents texts other_line es → after_all other_line es ≢ stop_line → IsEvent texts e
        → Fits e (reverse es) → reverse fs ≡ pushed e (reverse es) → AreEvents texts other_line fs }
{}
