//! What a crash leaves, from the calls that a disk was given.
ghost use Rattle.std.specs.Prelude.{◌≡◌, ◌≤◌, length, take, drop, OnOk, IfOk};
ghost use Rattle.wc_disk.specs.Steps.{overwritten};
ghost use Rattle.wc_disk.specs.Volume.{settled, after_calls, bytes_after};
ghost use Rattle.wc_disk.specs.Noise.{noised, scattered, is_sync, HasNoSync, EndsInSync};

use crate::calls::Call;
use crate::edits::write_over;
use std::alloc::{AllocError, Global};
use wc_value::Generator;

fn is_sync(call: &Call) -> bool
    ensures { result ≡ is_sync call.now }
{
    matches!(call, Call::Sync)
}

/// How many calls there are up to the last sync.
pub fn last_sync(calls: &[Call]) -> usize
    ensures within { result ≤ length calls.now }
    ensures ends { EndsInSync (take result calls.now) }
    ensures none { HasNoSync (drop result calls.now) }
{
    let mut upto = calls.len();
    while upto > 0 {
        if is_sync(&calls[upto - 1]) {
            return upto;
        }
        upto -= 1;
    }
    upto
}

/// Does to the bytes what the call did to the disk.
fn repeat(bytes: &mut Vec<u8>, call: &Call) -> Result<(), AllocError>
    ensures { OnOk result (bytes.new.items ≡ bytes_after call.now bytes.old.items) }
{
    match call {
        Call::Write(at, content) => write_over(bytes, *at, content.bytes()),
        Call::Cut(len) => {
            bytes.truncate((*len).min(bytes.len() as u64) as usize);
            Ok(())
        }
        Call::Sync => Ok(()),
    }
}

/// What the disk read as after these calls.
pub fn replayed(alloc: Global, begun: &[u8], calls: &[Call]) -> Result<Vec<u8>, AllocError>
    ensures { IfOk result (λ bytes. bytes.items ≡ (after_calls calls.now (settled begun.now)).seen) }
{
    let mut bytes = begun.to_vec(alloc)?;
    for call in calls {
        repeat(&mut bytes, call)?;
    }
    Ok(bytes)
}

/// Puts noise over what the disk holds of a written range.
fn scatter(
    alloc: Global,
    bytes: &mut Vec<u8>,
    generator: &mut Generator,
    at: u64,
    count: usize,
) -> Result<(), AllocError>
    ensures { OnOk result ((generator.new.x, bytes.new.items) ≡ scattered at count (generator.old.x, bytes.old.items)) }
{
    let held = (bytes.len() as u64).saturating_sub(at).min(count as u64);
    let noise = generator.bytes(alloc, held as usize)?;
    write_over(bytes, at, &noise)
}

/// Puts noise over each written range, the first one first.
pub fn put_noise(
    alloc: Global,
    bytes: &mut Vec<u8>,
    seed: u32,
    calls: &[Call],
) -> Result<(), AllocError>
    ensures { OnOk result (bytes.new.items ≡ (noised calls.now (seed, bytes.old.items)).1) }
{
    let mut generator = Generator::new(seed);
    for call in calls {
        if let Call::Write(at, content) = call {
            scatter(alloc, bytes, &mut generator, *at, content.len())?;
        }
    }
    Ok(())
}
