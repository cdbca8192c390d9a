// Members of an object of JSON.
ghost use Rattle.std.specs.Prelude.{◌≡◌, ◌∷◌, [], OnOk, codes, decimal};
ghost use Rattle.json.specs.Token.{begin_object, end_object, begin_array, end_array, key, string, number};
ghost use Rattle.station_facts.specs.Members.{Adds, bits_of, flag_member, kind_member, number_member, text_member};

use json::Writer;
use liq_base::{Kind, Memory};

/// Where tokens are written.
pub type Out = Writer;

/// Writes the start of a JSON object.
pub fn begin(out: &mut Out) -> Result<(), Memory>
    ensures { OnOk result (Adds out.old out.new (begin_object ∷ [])) }
{
    out.begin_object()?;
    Ok(())
}

/// Writes the end of a JSON object.
pub fn end(out: &mut Out) -> Result<(), Memory>
    ensures { OnOk result (Adds out.old out.new (end_object ∷ [])) }
{
    out.end_object()?;
    Ok(())
}

/// Writes the name of a member of a JSON object which is a list, and the start of the list.
pub fn begin_list(out: &mut Out, name: &str) -> Result<(), Memory>
    ensures { OnOk result (Adds out.old out.new (key name.now ∷ begin_array ∷ [])) }
{
    out.key(name)?;
    out.begin_array()?;
    Ok(())
}

/// Writes the end of a JSON list.
pub fn end_list(out: &mut Out) -> Result<(), Memory>
    ensures { OnOk result (Adds out.old out.new (end_array ∷ [])) }
{
    out.end_array()?;
    Ok(())
}

/// Writes a text as an item of a JSON list.
pub fn push_item(out: &mut Out, text: &str) -> Result<(), Memory>
    ensures { OnOk result (Adds out.old out.new (string text.now ∷ [])) }
{
    out.string(text)?;
    Ok(())
}

/// Writes a number as an item of a JSON list.
pub fn push_count(out: &mut Out, n: u64) -> Result<(), Memory>
    ensures { OnOk result (Adds out.old out.new (number (decimal n) ∷ [])) }
{
    out.u64(n)?;
    Ok(())
}

/// Writes a member of a JSON object that is a text: its name and the text.
pub fn push_text(out: &mut Out, name: &str, text: &str) -> Result<(), Memory>
    ensures { OnOk result (Adds out.old out.new (text_member name.now text.now)) }
{
    out.key(name)?;
    out.string(text)?;
    Ok(())
}

/// Writes a member of a JSON object that is a number: its name and the number.
pub fn push_number(out: &mut Out, name: &str, n: u64) -> Result<(), Memory>
    ensures { OnOk result (Adds out.old out.new (number_member name.now n)) }
{
    out.key(name)?;
    out.u64(n)?;
    Ok(())
}

/// Writes a member of a JSON object that is true or false: its name and the value.
pub fn push_flag(out: &mut Out, name: &str, flag: bool) -> Result<(), Memory>
    ensures { OnOk result (Adds out.old out.new (flag_member name.now flag)) }
{
    out.key(name)?;
    out.boolean(flag)?;
    Ok(())
}

/// Writes the member `sides`: how many channels a sound of this kind has.
pub fn push_kind(out: &mut Out, kind: Kind) -> Result<(), Memory>
    ensures { OnOk result (Adds out.old out.new (kind_member kind)) }
{
    push_number(out, "sides", u64::from(kind.channels()))
}

/// How many bits a sample has: 24 if it is wide, and otherwise 16.
pub fn bits_of(wide: bool) -> u64
    ensures { result ≡ bits_of wide }
{
    if wide { 24 } else { 16 }
}
