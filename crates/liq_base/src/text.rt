// An owned text, which contracts see as its bytes.
ghost use Rattle.std.specs.Prelude.{◌≡◌, ℕ, List, IfOk, Some, refl, bytes_eq, string_bytes};
ghost use Rattle.std.proofs.Common.{rules};
ghost use Rattle.std.specs.Ordering.{nat_cmp};
ghost use Rattle.std.specs.Hash as fed;
ghost use Rattle.std.specs.Cmp.{partial_equiv_from_equiv};
ghost use Rattle.std.specs.Cmp.Lexicographic.{slice_cmp, nat_list_eq_equiv, nat_list_cmp_total, texts_ties, texts_po};
ghost use Rattle.std.specs.Cmp.Rules.{hashing};

use crate::Memory;
use std::alloc::Global;
use std::cmp::Ordering;
use std::hash::{Hash, Hasher};
use std::marker::Model;

/// An owned text. Contracts see the list of its bytes, which are UTF-8. It may be a key of a map.
#[derive(Debug, Drop)]
pub struct Text {
    string: String,
}

impl Model for Text {
    ghost Value = { List ℕ };

    ghost view = { λ t. string_bytes t.string };
}

impl Text {
    /// Makes an owned text, a copy of these characters.
    pub fn from_str(alloc: Global, s: &str) -> Result<Text, Memory>
        ensures copied { IfOk result (λ t. t ≡ s.now) }
    {
        let string = String::from_str(alloc, s)?;
        Ok(Text { string })
    }

    /// Makes a text of an owned string, without copying it. It takes no memory.
    pub fn from_string(string: String) -> Text
        ensures held { result ≡ string_bytes string }
    {
        Text { string }
    }

    /// Borrows the characters of the text.
    pub fn as_str(&self) -> &str
        ensures same { result.now ≡ self.now }
    {
        self.string.as_str()
    }

    /// A copy of this text.
    pub fn copy(&self, alloc: Global) -> Result<Text, Memory>
        ensures copied { IfOk result (λ t. t ≡ self.now) }
    {
        Text::from_str(alloc, self.as_str())
    }
}

/// Two texts are equal where their bytes are.
impl PartialEq for Text {
    ghost eq = { bytes_eq };

    ghost laws = { partial_equiv_from_equiv nat_list_eq_equiv };

    // Whether two texts have the same bytes.
    fn eq(&self, other: &Text) -> bool {
        self.as_str() == other.as_str()
    }
}

impl Eq for Text {
    ghost laws = { nat_list_eq_equiv };
}

impl PartialOrd for Text {
    ghost partial_cmp = { λ a b. Some (slice_cmp nat_cmp a b) };

    ghost laws = { texts_po };

    // Compares two texts by their bytes; there is always an answer.
    fn partial_cmp(&self, other: &Text) -> Option<Ordering> {
        Some(self.cmp(other))
    }
}

/// The order is that of the bytes: the first that differ decide, and a text comes before its continuations.
impl Ord for Text {
    ghost cmp = { λ a b. slice_cmp nat_cmp a b };

    ghost total = { nat_list_cmp_total };

    ghost matches_partial_cmp = { λ a b. refl };

    ghost matches_eq = { texts_ties };

    // Compares two texts by their bytes: the first that differ decide, and a text comes before its continuations.
    fn cmp(&self, other: &Text) -> Ordering {
        self.as_str().cmp(other.as_str())
    }
}

/// A text is hashed as its characters are.
impl Hash for Text {
    ghost hash_input = { fed.str };

    ghost respects_eq = { Prim.search (hashing, rules) };

    // Feeds the characters of the text to a hasher.
    fn hash<H: Hasher>(&self, state: &mut H) {
        self.as_str().hash(state);
    }
}
