//! Large inputs from small ones.
use csv_source::NoMemory;
use std::alloc::Global;

/// Puts the bytes so many times behind others.
pub fn extend(into: &mut Vec<u8>, bytes: &[u8], times: usize) -> Result<(), NoMemory> {
    for _ in 0..times {
        into.extend_from_slice(bytes)?;
    }
    Ok(())
}

/// The bytes so many times, one behind another.
pub fn repeated(alloc: Global, bytes: &[u8], times: usize) -> Result<Vec<u8>, NoMemory> {
    let mut all = Vec::new(alloc);
    extend(&mut all, bytes, times)?;
    Ok(all)
}
