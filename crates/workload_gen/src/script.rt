// The list of the audio files, and the script that plays them.
ghost use Rattle.std.specs.Prelude.{◌≡◌, ◌≤◌, ◌++◌, suc, IfOk, OnOk, codes, string_bytes};
ghost use Rattle.workload_gen.specs.Files.{list_text, outputs, players, script_text, settings, source_name};
ghost use Rattle.workload_gen.specs.Files.{source_names, track_name};

use std::alloc::{AllocError, Global};

/// The name of the audio file of this number, such as `t7.wav`.
pub fn track_name(alloc: Global, number: u32) -> Result<String, AllocError>
    ensures { IfOk result (λ name. string_bytes name ≡ track_name number) }
{
    let mut name = String::new(alloc);
    push_track_name(alloc, &mut name, number)?;
    Ok(name)
}

/// The text of the list that names audio files 0 to `size - 1`, a line each.
pub fn list(alloc: Global, size: u32) -> Result<String, AllocError>
    ensures { IfOk result (λ text. string_bytes text ≡ list_text size) }
{
    let mut text = String::new(alloc);
    for number in 0..size {
        push_track_name(alloc, &mut text, number)?;
        text.push_str("\n")?;
    }
    Ok(text)
}

/// The text of the script that plays audio files 0 to `last`, which is at most 99: the settings, a source of each file,
/// the mix of these sources, and the two outputs.
pub fn script(alloc: Global, last: u32) -> Result<String, AllocError>
    requires { last ≤ 99 }
    ensures { IfOk result (λ text. string_bytes text ≡ script_text last) }
{
    let mut text = String::new(alloc);
    push_settings(&mut text)?;
    push_players(alloc, &mut text, last)?;
    text.push_str("mix = add([")?;
    push_source_names(alloc, &mut text, last)?;
    text.push_str("])\n")?;
    push_outputs(&mut text)?;
    Ok(text)
}

// Adds the statements of the script that set the rate and the length of a tick.
fn push_settings(text: &mut String) -> Result<(), AllocError>
    ensures { OnOk result (string_bytes text.new ≡ string_bytes text.old ++ settings) }
{
    text.push_str("set(\"frame.audio.samplerate\", 8000)\nset(\"frame.duration\", 0.008)\n")?;
    Ok(())
}

// Adds the statements of the script's two outputs: a crossfade of the list, and the mix in a clock of its own.
fn push_outputs(text: &mut String) -> Result<(), AllocError>
    ensures { OnOk result (string_bytes text.new ≡ string_bytes text.old ++ outputs) }
{
    text.push_str(
        "output.file(%wav, \"one.wav\", mksafe(crossfade(duration=0.05, playlist(\"all.m3u\"))))\n\
        output.file(%wav, \"two.wav\", clock(id=\"two\", mix))\n",
    )?;
    Ok(())
}

// Adds the statements that make a source of each of the audio files 0 to `last`.
fn push_players(alloc: Global, text: &mut String, last: u32) -> Result<(), AllocError>
    requires { last ≤ 99 }
    ensures { OnOk result (string_bytes text.new ≡ string_bytes text.old ++ players (suc last)) }
{
    for number in 0..last + 1 {
        push_player(alloc, text, number)?;
    }
    Ok(())
}

// Adds the statement that makes a source of the audio file of this number, at half its volume.
fn push_player(alloc: Global, text: &mut String, number: u32) -> Result<(), AllocError>
    ensures { OnOk result (string_bytes text.new ≡ string_bytes text.old ++ source_name number
        ++ codes " = amplify(0.5, single(\"" ++ track_name number ++ codes "\"))\n") }
{
    push_source_name(alloc, text, number)?;
    text.push_str(" = amplify(0.5, single(\"")?;
    push_track_name(alloc, text, number)?;
    text.push_str("\"))\n")
}

// Adds the names of sources 0 to `last`, with a comma and a blank between two: the items of the mix's list.
fn push_source_names(alloc: Global, text: &mut String, last: u32) -> Result<(), AllocError>
    requires { last ≤ 99 }
    ensures { OnOk result (string_bytes text.new ≡ string_bytes text.old ++ source_names last) }
{
    push_source_name(alloc, text, 0)?;
    for number in 0..last {
        push_next_name(alloc, text, number + 1)?;
    }
    Ok(())
}

// Adds a comma, a blank and the name of the source of this number.
fn push_next_name(alloc: Global, text: &mut String, number: u32) -> Result<(), AllocError>
    ensures { OnOk result (string_bytes text.new ≡ string_bytes text.old ++ codes ", " ++ source_name number) }
{
    text.push_str(", ")?;
    push_source_name(alloc, text, number)
}

// Adds the name of the source that plays the audio file of this number, such as `x7`.
fn push_source_name(alloc: Global, text: &mut String, number: u32) -> Result<(), AllocError>
    ensures { OnOk result (string_bytes text.new ≡ string_bytes text.old ++ source_name number) }
{
    text.push_str("x")?;
    text.push_str(&number.to_string(alloc)?)
}

// Adds the name of the audio file of this number, such as `t7.wav`.
fn push_track_name(alloc: Global, text: &mut String, number: u32) -> Result<(), AllocError>
    ensures { OnOk result (string_bytes text.new ≡ string_bytes text.old ++ track_name number) }
{
    text.push_str("t")?;
    text.push_str(&number.to_string(alloc)?)?;
    text.push_str(".wav")
}
