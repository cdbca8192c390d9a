//! Writers and readers as the sinks and the reading of `liq_base`, proved for each writer and reader whose bytes are
//! known.
#![tactic(auto)]

mod certain;
mod fronts;
mod outputs;
mod reading;
mod streams;

pub use certain::{Certain, Lasting, make_certain};
pub use fronts::{look_at_front, look_at_whole};
pub use outputs::{FileSink, KEPT, Place};
pub use reading::{read_rest, unopened};
pub use streams::OutSink;
