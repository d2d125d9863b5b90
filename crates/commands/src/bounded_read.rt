//! Whole texts from a feed.

ghost use Rattle.std.specs.Prelude.{◌≡◌, ◌<◌, ◌^◌, false};
ghost use Rattle.commands.specs.WholeTexts.{ReadsUpTo};

use source_text::{DeviceFault, Fault, Feed};
use std::alloc::Global;

/// The most bytes that one `get` is asked for.
pub const ROOM: usize = 16384;

/// Reads to the end, or to one byte past the limit, in bytes.
///
/// # Errors
///
/// `ReadFailed` where the reader fails, which is not asked again, and `OutOfMemory`.
pub fn read_up_to<R: Feed>(alloc: Global, reader: &mut R, limit: usize) -> Result<Vec<u8>, Fault>
    requires ready { R.failed reader.old ≡ false }
    requires small { limit < 2 ^ 62 }
    ensures { ReadsUpTo limit (R.left reader.old) result (R.failed reader.new) }
{
    let mut bytes = Vec::new(alloc);
    let mut room = [0u8; ROOM];
    while bytes.len() <= limit {
        let wanted = (limit + 1 - bytes.len()).min(room.len());
        let count = match reader.get(&mut room[..wanted]) {
            Ok(count) => count,
            Err(DeviceFault) => return Err(Fault::ReadFailed),
        };
        if count == 0 {
            return Ok(bytes);
        }
        if bytes.extend_from_slice(&room[..count]).is_err() {
            return Err(Fault::OutOfMemory);
        }
    }
    Ok(bytes)
}
