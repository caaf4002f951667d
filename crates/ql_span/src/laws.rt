//! What holds of the spans of all journals.

ghost use Rattle.std.specs.Prelude.{◌≡◌};
ghost use Rattle.ql_world.specs.Event.{Journal};
ghost use Rattle.ql_span.specs.Chain.{IsSpanOf, Span};

/// No journal has two spans.
pub fn span_is_one()
    ensures { (j : Journal) (s t : Span) → IsSpanOf j s → IsSpanOf j t → s ≡ t }
{}

/// Each journal has one.
pub fn span_is_there()
    ensures { (j : Journal) → (s : Span) × IsSpanOf j s }
{}
