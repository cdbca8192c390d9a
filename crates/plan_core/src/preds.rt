// The predicates of a switch.
ghost use Rattle.std.specs.Prelude.{◌≡◌, map, length};
ghost use Rattle.time_pred.specs.View.{view_shared};

use std::marker::Model;
use time_pred::SharedPred;

/// The predicates of a switch, one for each child. Contracts see the list of them as plain trees.
#[derive(Debug, Drop)]
pub struct Preds {
    preds: Vec<SharedPred>,
}

impl Model for Preds {
    ghost use Rattle.std.specs.Prelude.{List, map};
    ghost use Rattle.std.specs.Coded.{coded_list};
    ghost use Rattle.time_pred.specs.Predicates.{Predicate};
    ghost use Rattle.time_pred.specs.Stored.{predicate_code};

    ghost Value = { List Predicate };

    ghost coded = { coded_list predicate_code };

    ghost use Rattle.time_pred.specs.View.{view_shared};

    ghost view = { λ s. map view_shared s.preds.items };
}

impl Preds {
    /// The predicates of a switch from a `Vec`, one for each child in order. It takes no memory.
    pub fn from_vec(preds: Vec<SharedPred>) -> Preds
        ensures { result ≡ map view_shared preds.items }
    {
        Preds { preds }
    }

    /// The predicates of a switch, one for each child, to be read.
    pub fn as_slice(&self) -> &[SharedPred]
        ensures { map view_shared result.now ≡ self.now }
    {
        self.preds.as_slice()
    }

    /// How many predicates a switch has.
    pub fn len(&self) -> usize
        ensures { result ≡ length self.now }
    {
        self.preds.len()
    }
}
