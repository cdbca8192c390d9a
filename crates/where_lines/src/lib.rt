//! Lines that are passed on, and behind a line that names a place of a script the two lines that show it.
#![tactic(auto)]

ghost use Rattle.std.specs.Prelude.{◌≡◌, None, IfErr, OnOk};
ghost use Rattle.std.specs.Option.{option_map};
ghost use Rattle.where_lines.specs.Broken.{BrokeOff};
ghost use Rattle.where_lines.specs.Passes.{AllPassed};

mod calls;
mod causes;
mod clashes;
mod clashing;
mod fronts;
mod kept;
mod passing;
mod places;
mod reading;
mod sources;
mod texts;
mod tokens;

use kept::nothing;
use liq_base::Sink;
pub use passing::Broke;
use passing::pass_lines;
use std::alloc::Global;
use std::io::{BufReader, Read};

/// Passes the lines of an input on to their end, and behind each that names a place of a script the two lines that show
/// it. `file` is the script's name, and `text` its bytes where it could be read: where it could not, the lines alone
/// are passed on. The script is read once for all lines.
pub fn pass_on<I: Read + Drop, O: Sink>(
    alloc: Global,
    input: I,
    out: &mut O,
    file: &str,
    text: Option<&[u8]>,
) -> Result<(), Broke>
    requires { (O.told out.old).room ≡ None }
    ensures room { (O.told out.new).room ≡ None }
    ensures done { OnOk result (AllPassed file.now (option_map (λ bytes. bytes.now) text.entry) (I.remaining input)
        (O.told out.old) (O.told out.new)) }
    ensures broken { IfErr result (λ broke. BrokeOff file.now (option_map (λ bytes. bytes.now) text.entry) broke
        (I.remaining input) (O.told out.old) (O.told out.new)) }
{
    let Ok(mut input) = BufReader::new(alloc, input) else {
        return Err(Broke::Memory);
    };
    let mut kept = nothing();
    pass_lines(alloc, &mut input, out, file, text, &mut kept)
}
