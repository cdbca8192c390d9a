// Laws of files at another rate, for whatever rests on it. Each is a contract of a function that does nothing.
ghost use Rattle.std.specs.Prelude.{◌≡◌, ◌<◌, ℕ, ℤ, List};
ghost use Rattle.liq_base.specs.Kinds.{channels_of};
ghost use Rattle.liq_base.specs.declared.memory.Kind.{Kind};
ghost use Rattle.resample.specs.Resampled.{AreRates, IsFile, LiesBetween, blocks_of, output_length, resampled};
ghost use Rattle.resample.specs.Resampled.{sample_before, sample_behind, side_at};

/// A law of resampling: each sample at another rate lies between the two that it is made from, and equal rates change
/// nothing.
pub fn changes_lie_between()
    ensures between { (from to : ℕ) (kind : Kind) (samples : List ℤ) (j side : ℕ) → AreRates from to
        → j < output_length (blocks_of kind samples) from to → side < channels_of kind
        → LiesBetween (sample_before from to kind samples j side) (sample_behind from to kind samples j side)
        (side_at kind (resampled from to kind samples) j side) }
    ensures unchanged { (rate : ℕ) (kind : Kind) (samples : List ℤ) → AreRates rate rate → IsFile kind samples
        → resampled rate rate kind samples ≡ samples }
{}
