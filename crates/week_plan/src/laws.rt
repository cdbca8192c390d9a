// Laws of spans. Each is a contract of a function that does nothing.
ghost use Rattle.std.specs.Prelude.{◌≡◌, ℕ, Bool, List};
ghost use Rattle.week_plan.specs.declared.span.Span.{Span};
ghost use Rattle.week_plan.specs.Spans.{AreSpansOf};

/// A law: the set of seconds of which a test is true has only one list of spans, in order and each as long as it can
/// be.
pub fn one_list()
    ensures { (test : ℕ → Bool) (spans others : List Span) → AreSpansOf test spans → AreSpansOf test others
        → spans ≡ others }
{}
