// What a clock's task passes before each of its ticks.

/// What a clock's task passes before each of its ticks, and where it may wait.
pub trait Gate {
    /// Is called before clock `clock` begins its tick `tick`, both counted from 0. The clock's task waits in it as long
    /// as the gate wants.
    fn enter(&self, clock: u32, tick: u64);

    /// Tells the gate that a buffer carries a source from clock `_from` to clock `_to`, before the first ticks of both.
    /// A gate that needs no such news does nothing here.
    fn join(&self, _from: u32, _to: u32) {}
}

/// A gate at which no clock waits.
#[derive(Clone, Copy, Debug, Default, PartialEq, Eq, Hash)]
pub struct FreeGate;

impl Gate for FreeGate {
    // Lets the clock begin its tick at once.
    fn enter(&self, _clock: u32, _tick: u64) {}
}
