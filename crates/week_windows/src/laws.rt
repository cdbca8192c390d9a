// A law of spans. It is the contract of a function that does nothing.
ghost use Rattle.std.specs.Prelude.{ℕ, Bool};
ghost use Rattle.week_plan.specs.Spans.{AreSpansOf};
ghost use Rattle.week_windows.specs.Windows.{spans_from};

/// The spans of a week have exactly the seconds that pass the test, and each is as long as it can be.
pub fn spans_are_longest()
    ensures { (test : ℕ → Bool) → AreSpansOf test (spans_from test 0 604800) }
{}
