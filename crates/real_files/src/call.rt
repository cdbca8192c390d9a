// The words of a call.
use std::alloc::Global;
use std::env;
use std::io::ErrorKind;
use std::rt::Env;

/// The words of a call of the program after its name; `None` if memory is refused. Where an argument is not UTF-8, the
/// list is empty, and the program takes it as a call of no known form.
pub fn words<R: Env + Alloc<A = Global>>(rt: &R) -> Option<Vec<String>> {
    match env::args(rt) {
        Ok(args) => args.skip(1).collect(rt.alloc()).ok(),
        Err(error) if error.kind() == ErrorKind::OutOfMemory => None,
        Err(_) => Some(Vec::new(rt.alloc())),
    }
}
