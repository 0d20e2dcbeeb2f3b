//! Reading a log from a stream.

ghost use Rattle.std.specs.Prelude.{◌≤◌, IfOk, vec_len};

use crate::list::LONGEST;
use std::alloc::Global;
use std::io;
use std::io::Read;

/// Reads a log to its end, or one byte more than the longest log has, so that a longer one is told from it. Nothing says that
/// a stream ends, so no more than that is read; a stream that gives more than it is asked for is cut.
pub fn read_log<R: Read + Drop>(heap: Global, input: R) -> io::Result<Vec<u8>>
    ensures { IfOk result (λ log. vec_len log ≤ 8191) }
{
    let mut log = Vec::new(heap);
    input.take(LONGEST as u64 + 1).read_to_end(&mut log)?;
    log.truncate(LONGEST + 1);
    Ok(log)
}
