// Chunks of one cell.
use frame_core::{Chunk, Frame};
use liq_base::Memory;
use std::alloc::Global;

// Makes a chunk of one cell (the sample of one instant) whose sample is `number`, so that a test can tell chunks apart.
// `None` would come of a frame without cells.
pub fn numbered(alloc: Global, number: i16) -> Result<Option<Chunk>, Memory> {
    let mut frame = Frame::new(alloc, 1)?;
    frame.lay(&[number], &[0], false, 0);
    Chunk::from_frame(alloc, &frame)
}
