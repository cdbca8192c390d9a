// What holds of traces and their texts. Each is the contract of a function that does nothing.
ghost use Rattle.std.specs.Prelude.{◌≡◌, ℕ, List};
ghost use Rattle.trace_log.specs.Stops.{StopsAt};
ghost use Rattle.trace_log.specs.Texts.{IsTrace, trace_text};
ghost use Rattle.trace_log.specs.Values.{TraceValue};

/// A text is that of one trace within the bounds, or has one first line outside the form, and not both.
pub fn texts_have_one_meaning()
    ensures one_trace { (t u : TraceValue) → IsTrace t → IsTrace u → trace_text t ≡ trace_text u → t ≡ u }
    ensures one_stop { (text : List ℕ) (i j : ℕ) → StopsAt text i → StopsAt text j → i ≡ j }
    ensures never_both { (t : TraceValue) (at : ℕ) → IsTrace t → StopsAt (trace_text t) at → ⊥ }
{}
