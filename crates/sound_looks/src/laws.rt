// A law of looks, for whatever rests on it. It is the contract of a function that does nothing.
ghost use Rattle.std.specs.Prelude.{◌≡◌, ℕ, List};
ghost use Rattle.liq_base.specs.Files.{Files, file_at};
ghost use Rattle.sound_looks.specs.Looks.{counted_as, look_of};
ghost use Rattle.track_library.specs.Walk.{audio_at, bytes_in, count_of};
ghost use Rattle.track_library.specs.declared.rules.Rules.{Rules};

/// What a look at a file finds says whether a plan would use the file where it is met alone, and for how many bytes
/// it would count. The function does nothing; its contract is the law.
pub fn looks_tell_uses()
    ensures { (rules : Rules) (files : Files) (name : List ℕ) → count_of (audio_at rules files name)
        ≡ counted_as rules (look_of rules (bytes_in rules.file (file_at files name))) }
{}
