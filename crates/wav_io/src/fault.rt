// Why a file holds no sound that can be played.
use thiserror::Error;

/// Why bytes are not read as a WAV file of 16-bit or 24-bit samples. The faults are numbered as they stand.
/// `docs/formats.md` says when each comes.
#[derive(Clone, Copy, Debug, Error, PartialEq, Eq)]
pub enum WavFault {
    /// Fault 1: fewer than 12 bytes, or no `RIFF` or `WAVE` at their places.
    #[error("not a RIFF WAVE file")]
    NotRiff,

    /// Fault 2: no `fmt ` chunk, or a `data` chunk before the first one.
    #[error("no format before the data")]
    NoFormat,

    /// Fault 3: the `fmt ` chunk is cut or of another size than 16, 18 or 40, or its fields contradict each other.
    #[error("a format that is cut or contradicts itself")]
    BadFormat,

    /// Fault 4: samples of another form than whole numbers of 16 bits or 24.
    #[error("samples that are not of 16 bits or 24")]
    NotPcm,

    /// Fault 5: no `data` chunk.
    #[error("no data")]
    NoData,

    /// Fault 6: no whole block in the first `data` chunk.
    #[error("no samples")]
    Empty,
}
