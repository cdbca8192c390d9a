// Laws of what is printed, for whatever rests on them: contracts of functions that do nothing.
ghost use Rattle.refusal_lines.specs.declared.fault.Fault.{Fault};
ghost use Rattle.place_laws.specs.Same.{NoneIsNone, NumbersAgree, OutputsAgree, RulesAgree};
ghost use Rattle.place_laws.specs.Told.{NamesItsPlace};

/// A law of fault lines: the line of a fault names the place that the fault tells, if its number fits into 64 bits, and
/// no other; of a fault that tells none it names none. So `named_in`, which reads places out of lines, finds it there.
pub fn lines_name_their_places()
    ensures { (fault : Fault) → NamesItsPlace fault }
{}

/// A law of `about`, the command that tells about a script: what it tells agrees with what `liq` does, in the number
/// of a fault of a WAV file, the rules of files, and the output that is refused.
pub fn both_say_one_thing()
    ensures numbers { NumbersAgree }
    ensures rules { RulesAgree }
    ensures none { NoneIsNone }
    ensures outputs { OutputsAgree }
{}
