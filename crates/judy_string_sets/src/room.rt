//! Room for the bytes of a key.

ghost use Rattle.std.specs.Prelude.{◌≡◌, ◌≤◌, IfOk, length, take};

use std::alloc::{AllocError, Global};

// So many bytes of memory, whatever they hold. The error is want of it.
pub fn room(alloc: Global, len: usize) -> Result<Vec<u8>, AllocError>
    ensures { IfOk result (λ bytes. length bytes.items ≡ len) }
{
    let mut bytes = Vec::with_capacity(alloc, len)?;
    bytes.resize(len, 0)?;
    Ok(bytes)
}

// Writes some bytes to the front of a buffer that they fit.
pub fn write_front(buffer: &mut [u8], bytes: &[u8])
    requires { length bytes.now ≤ length buffer.old }
    ensures begins { take (length bytes.now) buffer.new ≡ bytes.now }
    ensures room { length buffer.new ≡ length buffer.old }
{
    buffer[..bytes.len()].copy_from_slice(bytes);
}
