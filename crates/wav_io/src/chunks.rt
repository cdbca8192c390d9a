// The chunks of a RIFF file.
ghost use Rattle.std.specs.Option.{SomeIff};
ghost use Rattle.std.specs.Prelude.{◌≡◌, ◌≤◌, ◌<◌, ◌+◌, ◌^◌, length, codes, IfSome};
ghost use Rattle.wav_io.specs.Chunks.{chunk_at, chunks_of, first_named, place_behind};
ghost use Rattle.wav_io.specs.Reading.{format_chunk, body_of};

use byteorder::{ByteOrder, LittleEndian};

/// How many bytes a chunk's name and size have.
const CHUNK_HEAD: usize = 8;

/// The place of the first chunk in a file.
const FIRST_CHUNK: usize = 12;

/// A chunk: its name, the bytes of its body as its size field states them, and the place of its first byte in the file.
#[derive(Clone, Copy, Debug)]
pub struct Chunk {
    pub name: [u8; 4],
    pub size: u32,
    pub place: usize,
}

/// The first `fmt ` chunk of a file, which says the form of the samples. `None` if there is none, or if a `data` chunk
/// stands before it.
pub fn find_format(bytes: &[u8]) -> Option<Chunk>
    ensures first { result ≡ format_chunk (chunks_of bytes.now) }
    ensures there { IfSome result (λ chunk. chunk.place + 8 ≤ length bytes.now) }
{
    let mut place = FIRST_CHUNK;
    while let Some(chunk) = read_chunk(bytes, place) {
        if chunk.name == *b"data" {
            return None;
        }
        if chunk.name == *b"fmt " {
            return Some(chunk);
        }
        place = next_place(&chunk);
    }
    None
}

/// The first `data` chunk of a file, which holds its samples; `None` if there is none.
pub fn find_data(bytes: &[u8]) -> Option<Chunk>
    ensures first { result ≡ first_named (codes "data") (chunks_of bytes.now) }
    ensures there { IfSome result (λ chunk. chunk.place + 8 ≤ length bytes.now) }
{
    let mut place = FIRST_CHUNK;
    while let Some(chunk) = read_chunk(bytes, place) {
        if chunk.name == *b"data" {
            return Some(chunk);
        }
        place = next_place(&chunk);
    }
    None
}

/// The bytes of a chunk's body that stand in the file: fewer than its size field states where the file is cut.
pub fn chunk_body<'a>(bytes: &'a [u8], chunk: &Chunk) -> &'a [u8]
    requires { chunk.now.place + 8 ≤ length bytes.now }
    ensures { result.now ≡ body_of bytes.now chunk.now }
{
    let rest = &bytes[chunk.place + CHUNK_HEAD..];
    let size = rest.len().min(chunk.size as usize);
    &rest[..size]
}

/// The chunk whose first byte is at `place` of the file; `None` if the file ends before its name and its size do. Its
/// body may be cut.
fn read_chunk(bytes: &[u8], place: usize) -> Option<Chunk>
    requires { place + 8 < 2 ^ 64 }
    ensures { SomeIff result (place + 8 ≤ length bytes.now) (chunk_at bytes.now place) }
{
    if bytes.len() < place + CHUNK_HEAD {
        return None;
    }
    let name = [
        bytes[place],
        bytes[place + 1],
        bytes[place + 2],
        bytes[place + 3],
    ];
    let size = LittleEndian::read_u32(&bytes[place + 4..]);
    Some(Chunk { name, size, place })
}

/// The place of the first byte after a chunk, its body and the pad byte of an odd size.
fn next_place(chunk: &Chunk) -> usize
    requires { chunk.now.place < 2 ^ 63 }
    ensures behind { result ≡ place_behind chunk.now }
    ensures near { result < chunk.now.place + 2 ^ 33 }
{
    let size = chunk.size as usize;
    chunk.place + CHUNK_HEAD + size + size % 2
}
