// Tables from tokens to the places at which they stand first in a list.
ghost use Rattle.std.specs.Prelude.{◌≡◌, ℕ, OnOk, OnErr, nat_eq};
ghost use Rattle.liq_base.specs.At.{at_token};
ghost use Rattle.eval_scope.specs.Places.{Notes};

use liq_base::{Memory, TokenTable};

/// Notes in the table the index `place` for token `at`, unless the token has one: so the first place in a list stays.
/// Where memory runs out, or the index needs more than 32 bits, nothing changes, and the error is want of memory.
pub fn note(places: &mut TokenTable<u32>, at: u32, place: usize) -> Result<(), Memory>
    ensures noted { OnOk result (Notes (nat_eq at) places.old place places.new) }
    ensures err { OnErr result ((t : ℕ) → at_token t places.new ≡ at_token t places.old) }
{
    if places.get(at).is_some() {
        return Ok(());
    }
    let Ok(number) = u32::try_from(place) else {
        return Err(Memory);
    };
    places.put(at, number)
}
