ghost use Rattle.std.specs.Prelude.{◌≡◌, [], length};

use frame_core::{Cell, Chunk, Frame};
use liq_base::Memory;
use std::alloc::Global;
use std::process::Abort;
use std::test::Fail;

const LOUD: Cell = Cell {
    left: -7,
    right: 9,
    first: true,
    title: 2,
};

const SOFT: Cell = Cell {
    left: 1,
    right: 0,
    first: false,
    title: 1,
};

// Lays a cell (the sample of an instant) into a frame, takes it back, and lays two cells of two tracks.
fn fill(frame: &mut Frame)
    requires empty { frame.old.cells ≡ [] }
    requires room { frame.old.room ≡ 3 }
{
    frame.lay(&[5], &[5], false, 4);
    frame.clear();
    frame.lay(&[LOUD.left], &[LOUD.right], true, LOUD.title);
    frame.lay(&[SOFT.left], &[SOFT.right], false, SOFT.title);
}

// Checks that a chunk has the two cells that were laid, in order, and a run of each title.
fn check_chunk(rt: &impl Abort, chunk: &Chunk) {
    assert_eq!(rt; chunk.len(), 2);
    assert_eq!(rt; chunk.cell(0), LOUD);
    assert!(rt; chunk.len() > 1 && chunk.cell(1) == SOFT);
    assert_eq!(rt; chunk.runs().len(), 2);
}

// Checks that the chunk made of a frame has the two cells that were laid into it.
fn check(rt: &impl Abort, alloc: Global, frame: &Frame) -> Result<(), Memory> {
    match Chunk::from_frame(alloc, frame)? {
        Some(chunk) => check_chunk(rt, &chunk),
        None => panic!(rt; "no chunk"),
    }
    Ok(())
}

// Tests that a frame (the cells of a tick) becomes a chunk of the same cells.
#[test]
fn a_chunk_is_the_cells_in_order(rt: HostRuntime) -> Result<(), Fail> {
    let mut frame = Frame::new(rt.alloc(), 3)?;
    fill(&mut frame);
    check(&rt, rt.alloc(), &frame)?;
    Ok(())
}
