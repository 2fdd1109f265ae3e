// Room behind a text: bytes that are made ready, and stored over.
ghost use Rattle.std.specs.Prelude.{◌≡◌, ◌≤◌, ◌+◌, ◌++◌, length, take, OnOk};

use csv_source::NoMemory;

/// So many bytes more are made ready where a text finds no room, so that most of its pieces find some.
const AHEAD: usize = 4096;

/// Makes room for some bytes behind a place, and for more.
#[cold]
#[inline(never)]
pub(crate) fn grow(bytes: &mut Vec<u8>, end: usize, count: usize) -> Result<(), NoMemory>
    requires within { end ≤ length bytes.old.items }
    ensures ok { OnOk result (end + count ≤ length bytes.new.items) }
    ensures same { take end bytes.new.items ≡ take end bytes.old.items }
    ensures within { end ≤ length bytes.new.items }
{
    let Some(least) = end.checked_add(count) else {
        return Err(NoMemory);
    };
    let to = least.saturating_add(AHEAD).max(bytes.len());
    bytes.resize(to, 0)?;
    Ok(())
}

/// Stores bytes at a place.
#[inline(always)]
pub(crate) fn store(bytes: &mut Vec<u8>, end: usize, text: &[u8])
    requires room { end + length text.now ≤ length bytes.old.items }
    ensures text { take (end + length text.now) bytes.new.items ≡ take end bytes.old.items ++ text.now }
    ensures same { length bytes.new.items ≡ length bytes.old.items }
{
    bytes[end..end + text.len()].copy_from_slice(text);
}
