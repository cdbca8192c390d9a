// The real adapters over a writer and a reader that take or give little, are interrupted, and fail in the middle.
use liq_base::{Fetched, Looked, ShelfFault, Sink};
use real_files::{OutSink, look_at_front, look_at_whole, read_rest};
use std::alloc::Global;
use std::io;
use std::io::{ErrorKind, Read, Write};
use std::test::Fail;

/// A device that hands on three bytes a call, is interrupted at every second call, and fails for good once `left` bytes
/// went through: with an error, or by taking nothing.
#[derive(Drop)]
struct Device {
    bytes: Vec<u8>,
    left: usize,
    interrupted: bool,
    takes_nothing: bool,
}

impl Device {
    // A device with these bytes written so far, which fails once `left` bytes more went through: with an error, or
    // where `takes_nothing` by taking and giving no more.
    fn new(bytes: Vec<u8>, left: usize, takes_nothing: bool) -> Device {
        Device {
            bytes,
            left,
            interrupted: false,
            takes_nothing,
        }
    }

    // One call of the device, for `length` bytes: how many of them go through, at most three and no more than are left.
    // Every second call, from the first on, is interrupted. With none left it fails, or where it `takes_nothing` lets 0
    // bytes through.
    fn turn(&mut self, length: usize) -> io::Result<usize> {
        self.interrupted = !self.interrupted;
        if self.interrupted {
            return Err(io::Error::from(ErrorKind::Interrupted));
        }
        let count = length.min(3).min(self.left);
        if count == 0 && length > 0 && !self.takes_nothing {
            return Err(io::Error::from(ErrorKind::Other));
        }
        self.left -= count;
        Ok(count)
    }
}

impl Write for Device {
    // Takes the bytes that go through at this call, behind those written before.
    fn write(&mut self, buf: &[u8]) -> io::Result<usize> {
        let count = self.turn(buf.len())?.min(buf.len());
        match self.bytes.extend_from_slice(&buf[..count]) {
            Ok(()) => Ok(count),
            Err(_) => Err(io::Error::from(ErrorKind::OutOfMemory)),
        }
    }

    // Does nothing: all bytes are there already.
    fn flush(&mut self) -> io::Result<()> {
        Ok(())
    }
}

impl Read for Device {
    // Gives as many bytes as go through at this call, each of them 7.
    fn read(&mut self, buf: &mut [u8]) -> io::Result<usize> {
        let count = self.turn(buf.len())?.min(buf.len());
        for slot in &mut buf[..count] {
            *slot = 7;
        }
        Ok(count)
    }
}

// A sink hands each piece on whole to a device that takes little at a time and is interrupted.
#[test]
fn a_piece_is_handed_on_whatever_a_write_takes(rt: HostRuntime) -> Result<(), Fail> {
    let alloc = rt.alloc();
    let mut sink = OutSink::new(Device::new(Vec::new(alloc), 1000, false));
    assert!(rt; sink.append(b"a piece of some length").is_ok());
    assert!(rt; sink.append(b"").is_ok());
    assert!(rt; sink.append(b", and one more").is_ok());
    assert_eq!(rt; sink.faults(), 0);
    assert_eq!(rt;
        sink.into_writer().bytes.as_slice(),
        b"a piece of some length, and one more".as_slice()
    );
    Ok(())
}

// A sink whose device fails in the middle of a piece has written the bytes before, and counts one fault.
#[test]
fn a_failed_write_leaves_the_front_of_the_piece(rt: HostRuntime) -> Result<(), Fail> {
    let alloc = rt.alloc();
    for takes_nothing in [false, true] {
        let mut sink = OutSink::new(Device::new(Vec::new(alloc), 10, takes_nothing));
        assert!(rt; sink.append(b"12345").is_ok());
        assert!(rt; sink.append(b"67890abc").is_err());
        assert_eq!(rt; sink.faults(), 1);
        assert_eq!(rt;
            sink.into_writer().bytes.as_slice(),
            b"1234567890".as_slice()
        );
    }
    Ok(())
}

// A read that fails in the middle of a file is told as a fault, and not taken for the file's end; so is a file that
// is too large.
#[test]
fn a_read_that_fails_in_the_middle_is_no_end(rt: HostRuntime) -> Result<(), Fail> {
    let alloc = rt.alloc();
    // Each row: whether the eleven bytes end, or the device fails after them; the bytes that are allowed, the answer,
    // and how many were read.
    let rows = [
        (true, 100, Ok(Fetched::Found), 11),
        (true, 11, Ok(Fetched::Found), 11),
        (true, 10, Ok(Fetched::TooLarge), 9),
        (false, 100, Err(ShelfFault::Failed), 11),
    ];
    for (ends, most, answer, length) in rows {
        let mut device = Device::new(Vec::new(alloc), 11, ends);
        let mut bytes: Vec<u8> = Vec::new(alloc);
        assert!(rt; read_rest(&mut device, &mut bytes, most) == answer);
        assert_eq!(rt; bytes.len(), length);
    }
    Ok(())
}

// A look at the first bytes of a file whose size is known reads no byte more, and checks the size first.
#[test]
fn a_look_at_a_front_reads_no_more(rt: HostRuntime) -> Result<(), Fail> {
    let alloc = rt.alloc();
    // How many bytes are there, whether they end there, the front, the size that was told, the bytes that are allowed,
    // the answer, and how many were read.
    let rows = [
        (11, true, 4, 11, 11, Ok(Looked::Found(11)), 4),
        (11, true, 4, 11, 10, Ok(Looked::TooLarge), 0),
        (3, true, 4, 11, 11, Err(ShelfFault::Failed), 3),
        (3, false, 4, 11, 11, Err(ShelfFault::Failed), 3),
    ];
    for (left, ends, front, size, most, answer, length) in rows {
        let mut device = Device::new(Vec::new(alloc), left, ends);
        let mut bytes: Vec<u8> = Vec::new(alloc);
        assert!(rt; look_at_front(&mut device, &mut bytes, front, size, most) == answer);
        assert_eq!(rt; bytes.len(), length);
    }
    Ok(())
}

// A look at a file whose size is not known reads all of it, and tells its size.
#[test]
fn a_look_at_a_whole_file_tells_its_size(rt: HostRuntime) -> Result<(), Fail> {
    let alloc = rt.alloc();
    // Each row: whether the eleven bytes end, or the device fails after them; the bytes that are allowed, the answer,
    // and how many were read.
    let rows = [
        (true, 11, Ok(Looked::Found(11)), 11),
        (true, 10, Ok(Looked::TooLarge), 9),
        (false, 100, Err(ShelfFault::Failed), 11),
    ];
    for (ends, most, answer, length) in rows {
        let mut device = Device::new(Vec::new(alloc), 11, ends);
        let mut bytes: Vec<u8> = Vec::new(alloc);
        assert!(rt; look_at_whole(&mut device, &mut bytes, 4, most) == answer);
        assert_eq!(rt; bytes.len(), length);
    }
    Ok(())
}
