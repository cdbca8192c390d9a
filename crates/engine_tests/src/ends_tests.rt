ghost use Rattle.std.specs.Prelude.{◌≡◌, length, IfOk};

use crate::chunks::numbered;
use buffer_ends::LocalTaps;
use frame_core::{Gave, Taps};
use liq_base::Memory;
use plan_core::{BufferPlan, Items, Plan};
use std::alloc::{AllocError, Global};
use std::process::Abort;
use std::test::Fail;

// A plan with one buffer, which holds one chunk, and nothing else.
fn one_buffer(alloc: Global) -> Result<Plan, AllocError>
    ensures { IfOk result (λ plan. length plan.buffers ≡ 1) }
{
    let buffer = BufferPlan {
        pre: 0,
        capacity: 1,
    };
    Ok(Plan {
        rate: 8000,
        frame: 1,
        nodes: Items::new(alloc),
        sinks: Items::new(alloc),
        buffers: Items::from_vec(Vec::from_array(alloc, [buffer])?),
    })
}

// Gives a chunk to buffer 0, and answers true where the buffer accepted it, and false where it was full.
fn give_one(alloc: Global, taps: &mut LocalTaps) -> Result<bool, Fail>
    requires { length taps.old ≡ 1 }
    ensures { length taps.new ≡ 1 }
{
    let chunk = numbered(alloc, 7)?.ok_or("no chunk")?;
    match taps.give(0, chunk) {
        Ok(Gave::Accepted) => Ok(true),
        Ok(Gave::Full(_)) => Ok(false),
        Err((_chunk, refused)) => Err(Fail::from(refused)),
    }
}

// Takes a chunk from buffer 0, and answers whether there was one to take.
fn take_one(taps: &mut LocalTaps) -> Result<bool, Memory>
    requires { length taps.old ≡ 1 }
    ensures { length taps.new ≡ 1 }
{
    let chunk = taps.take(0)?;
    Ok(chunk.is_some())
}

// Checks, by the ends of a buffer with room for one chunk (`taps`), that it accepts one of two chunks and answers one
// of two takes, in one window, and counts all four.
fn check(rt: &impl Abort, alloc: Global, taps: &mut LocalTaps) -> Result<(), Fail>
    requires { length taps.old ≡ 1 }
    ensures { length taps.new ≡ 1 }
{
    assert!(rt; give_one(alloc, taps)?);
    assert!(rt; !give_one(alloc, taps)?);
    assert!(rt; take_one(taps)?);
    assert!(rt; !take_one(taps)?);
    let counts = taps.counts(0);
    assert_eq!(rt;
        (counts.accepted, counts.full, counts.got, counts.empty),
        (1, 1, 1, 1)
    );
    taps.end_window(alloc)?;
    Ok(())
}

// The taps, the ends of its buffers, of a plan of one buffer.
fn one_tap(alloc: Global) -> Result<LocalTaps, Fail>
    ensures { IfOk result (λ taps. length taps ≡ 1) }
{
    let plan = one_buffer(alloc)?;
    let taps = LocalTaps::new(alloc, &plan)?;
    Ok(taps)
}

// Tests a buffer that is a list with room for one chunk, and that it has a log.
#[test]
fn a_list_of_one_chunk(rt: HostRuntime) -> Result<(), Fail> {
    let mut taps = one_tap(rt.alloc())?;
    check(&rt, rt.alloc(), &mut taps)?;
    let logs = taps.into_logs();
    assert_eq!(rt; logs.len(), 1);
    Ok(())
}
