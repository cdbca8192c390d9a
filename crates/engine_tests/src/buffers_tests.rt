ghost use Rattle.std.specs.Prelude.{◌≡◌};

use crate::chunks::numbered;
use buffer_queue::{BufferQueue, PutPass, TakePass};
use frame_core::Gave;
use liq_base::Memory;
use std::alloc::Global;
use std::process::Abort;
use std::sync::Wait;
use std::test::Fail;
use std::thread;

// Puts a chunk with this number as its sample into a buffer's queue, by the pass of the one who puts. `None` says that
// it was accepted. Where the queue is full, the chunk comes back, and its sample is answered.
fn put_one<R: Wait>(
    rt: &R,
    alloc: Global,
    queue: &BufferQueue,
    pass: &mut PutPass,
    number: i16,
) -> Result<Option<i16>, Fail>
    requires { pass.old.queue ≡ queue.now }
    ensures { pass.new.queue ≡ pass.old.queue }
{
    let chunk = numbered(alloc, number)?.ok_or("no chunk")?;
    match queue.put(rt, pass, chunk) {
        Ok(Gave::Accepted) => Ok(None),
        Ok(Gave::Full(back)) => Ok(Some(back.cell(0).left)),
        Err((_chunk, refused)) => Err(Fail::from(refused)),
    }
}

// Takes a chunk from a buffer's queue, by the pass of the one who takes, and answers its sample; `None` where the queue
// is empty.
fn take_one<R: Wait>(
    rt: &R,
    queue: &BufferQueue,
    pass: &mut TakePass,
) -> Result<Option<i16>, Memory>
    requires { pass.old.queue ≡ queue.now }
    ensures { pass.new.queue ≡ pass.old.queue }
{
    match queue.take(rt, pass)? {
        Some(chunk) => Ok(Some(chunk.cell(0).left)),
        None => Ok(None),
    }
}

// Closes a window of a buffer's queue and checks its log: `puts` says of each put whether it was accepted, and `takes`
// of each take whether it got a chunk.
fn close(
    rt: &impl Abort,
    alloc: Global,
    queue: &mut BufferQueue,
    put: &mut PutPass,
    take: &mut TakePass,
    puts: &[bool],
    takes: &[bool],
) -> Result<(), Fail>
    requires put { put.old.queue ≡ queue.old }
    requires take { take.old.queue ≡ queue.old }
    ensures put { put.new.queue ≡ queue.new }
    ensures take { take.new.queue ≡ queue.new }
{
    let (put_answers, take_answers) = queue.close_window(alloc, put, take)?;
    assert_eq!(rt; put_answers.as_slice(), puts);
    assert_eq!(rt; take_answers.as_slice(), takes);
    Ok(())
}

// Checks one window of a buffer's queue with room for one chunk: it accepts one put of two, and gives one take of two.
fn check_window<R: Abort + Wait>(
    rt: &R,
    alloc: Global,
    queue: &mut BufferQueue,
    put: &mut PutPass,
    take: &mut TakePass,
) -> Result<(), Fail>
    requires put { put.old.queue ≡ queue.old }
    requires take { take.old.queue ≡ queue.old }
    ensures put { put.new.queue ≡ queue.new }
    ensures take { take.new.queue ≡ queue.new }
{
    assert_eq!(rt; put_one(rt, alloc, queue, put, 7)?, None);
    assert_eq!(rt; put_one(rt, alloc, queue, put, 8)?, Some(8));
    assert_eq!(rt; take_one(rt, queue, take)?, Some(7));
    assert_eq!(rt; take_one(rt, queue, take)?, None);
    close(rt, alloc, queue, put, take, &[true, false], &[true, false])
}

// Checks that a buffer's queue keeps what is put after one window for the takes of the next.
fn check_next_window<R: Abort + Wait>(
    rt: &R,
    alloc: Global,
    queue: &mut BufferQueue,
    put: &mut PutPass,
    take: &mut TakePass,
) -> Result<(), Fail>
    requires put { put.old.queue ≡ queue.old }
    requires take { take.old.queue ≡ queue.old }
{
    assert_eq!(rt; put_one(rt, alloc, queue, put, 9)?, None);
    close(rt, alloc, queue, put, take, &[true], &[])?;
    assert_eq!(rt; take_one(rt, queue, take)?, Some(9));
    Ok(())
}

// Tests the queue of a buffer on one thread, in two windows.
#[test]
fn one_call_after_another(rt: HostRuntime) -> Result<(), Fail> {
    let (mut queue, mut put, mut take) = BufferQueue::new(rt.alloc(), 1)?;
    check_window(&rt, rt.alloc(), &mut queue, &mut put, &mut take)?;
    check_next_window(&rt, rt.alloc(), &mut queue, &mut put, &mut take)
}

// How many chunks one thread puts and the other one takes.
const CHUNKS: i16 = 1000;

// How often each thread tries at most.
const TRIES: u32 = 20_000_000;

// One of two threads: puts the numbered chunks into the queue in order, and tries again where it is full. False says
// that not all were accepted within the tries, or that memory was refused.
fn put_all<R: Wait>(rt: &R, alloc: Global, queue: &BufferQueue, pass: &mut PutPass) -> bool
    requires { pass.old.queue ≡ queue.now }
{
    let mut next = 0;
    for _ in 0..TRIES {
        if next == CHUNKS {
            return true;
        }
        let Ok(Some(chunk)) = numbered(alloc, next) else {
            return false;
        };
        match queue.put(rt, pass, chunk) {
            Ok(Gave::Accepted) => next += 1,
            Ok(Gave::Full(_)) => thread::yield_now(),
            Err(_) => return false,
        }
    }
    false
}

// The other of two threads: takes the chunks from the queue, and tries again where it is empty. True says that all
// came, in order; false, that one was out of order, a take failed, or the tries did not do.
fn take_all<R: Wait>(rt: &R, queue: &BufferQueue, pass: &mut TakePass) -> bool
    requires { pass.old.queue ≡ queue.now }
{
    let mut next = 0;
    for _ in 0..TRIES {
        if next == CHUNKS {
            return true;
        }
        match queue.take(rt, pass) {
            Ok(Some(chunk)) if chunk.cell(0).left == next => next += 1,
            Ok(Some(_)) => return false,
            Ok(None) => thread::yield_now(),
            Err(_) => return false,
        }
    }
    false
}

// Tests the queue of a buffer with a thread that puts and a thread that takes at once: all chunks come, in order.
#[test]
fn two_threads_at_once(rt: HostRuntime) -> Result<(), Fail> {
    let alloc = rt.alloc();
    let (queue, mut put, mut take) = BufferQueue::new(alloc, 1)?;
    let shared = &queue;
    let host = &rt;
    let (put_done, take_done) = thread::join(
        &rt,
        || put_all(host, alloc, shared, &mut put),
        || take_all(host, shared, &mut take),
    );
    assert!(rt; put_done && take_done);
    Ok(())
}
