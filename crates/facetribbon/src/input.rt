// The program's input.
ghost use Rattle.std.specs.Prelude.{◌≤◌, IfOk, vec_len};

use std::alloc::Global;
use std::io;
use std::io::Read;

/// A sheet is read up to this many bytes. No accepted sheet is as long, and every fault lies before.
const LIMIT: u64 = 4096;

/// The first bytes of standard input, up to the limit.
pub(crate) fn sheet_bytes(rt: &HostRuntime, heap: Global) -> io::Result<Vec<u8>>
    ensures { IfOk result (λ v. vec_len v ≤ 4096) }
{
    // Room for all of it, so that one read asks for the whole of a packet; what a short read leaves of one is lost.
    let mut bytes = Vec::with_capacity(heap, LIMIT as usize)?;
    rt.stdin().take(LIMIT).read_to_end(&mut bytes)?;
    // No more than the limit was taken; `read_to_end` does not say so of a reader whose bytes are unknown.
    bytes.truncate(LIMIT as usize);
    Ok(bytes)
}
