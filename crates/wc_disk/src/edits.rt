//! Changes of bytes in memory.
ghost use Rattle.std.specs.Prelude.{◌≡◌, ◌≤◌, ◌+◌, length, vec_len, vec_capacity, OnOk};
ghost use Rattle.wc_disk.specs.Steps.{overwritten};

use std::alloc::AllocError;

/// Writes into a `Vec` that has the room.
pub fn overwrite(old: &mut Vec<u8>, at: usize, bytes: &[u8])
    requires room { vec_len old.old + length bytes.now ≤ vec_capacity old.old }
    requires within { at ≤ vec_len old.old }
    ensures { old.new.items ≡ overwritten at bytes.now old.old.items }
{
    if bytes.len() < old.len() - at {
        old[at..at + bytes.len()].copy_from_slice(bytes);
    } else {
        old.truncate(at);
        old.extend_from_slice(bytes).unwrap();
    }
}

/// Writes over what is there, and past the end, from wherever it lies.
pub fn write_over(old: &mut Vec<u8>, at: u64, bytes: &[u8]) -> Result<(), AllocError>
    ensures { OnOk result (old.new.items ≡ overwritten at bytes.now old.old.items) }
{
    old.reserve(bytes.len())?;
    let start = at.min(old.len() as u64) as usize;
    overwrite(old, start, bytes);
    Ok(())
}
