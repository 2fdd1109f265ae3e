// Chunks one behind another.
ghost use Rattle.std.specs.Prelude.{◌≡◌, ◌≤◌, ◌<◌, ◌+◌, ◌-◌, ◌++◌, ◌∷◌, [], ◌^◌, ℕ, length, map, slice_index, All, OnErr, OnOk};
ghost use Rattle.column_store.specs.Ends.{begin_of};
ghost use Rattle.column_store.specs.Stacked.{rows_in, HasAppended, HasAppendedSome};

use crate::chunk::Chunk;
use csv_source::NoMemory;

/// How many rows stand before the chunk of this number.
pub(crate) fn rows_before(ends: &[usize], number: usize) -> usize
    requires { number ≤ length ends.now }
    ensures { result ≡ begin_of ends.now number }
{
    if number == 0 { 0 } else { ends[number - 1] }
}

/// The number of the chunk that holds a row, or that of the last one.
pub(crate) fn chunk_of(ends: &[usize], row: usize) -> usize
    ensures within { result ≤ length ends.now }
    ensures behind { begin_of ends.now result ≤ row }
    ensures before { result < length ends.now → row < slice_index ends.now result }
{
    let mut low = 0;
    let mut high = ends.len();
    while low < high {
        let middle = low + (high - low) / 2;
        if ends[middle] <= row {
            low = middle + 1;
        } else {
            high = middle;
        }
    }
    low
}

/// Appends copies of the rows of these chunks, or of the first ones alone.
pub(crate) fn append_each(into: &mut Chunk, earlier: &[Chunk], last: &Chunk) -> Result<(), NoMemory>
    requires types { All (λ chunk. into.old.types ≡ chunk.types) earlier.now }
    requires last_types { into.old.types ≡ last.now.types }
    requires whole { All (λ chunk. chunk.unfinished ≡ []) earlier.now }
    requires last_whole { last.now.unfinished ≡ [] }
    requires into_whole { into.old.unfinished ≡ [] }
    requires room { length (rows_in earlier.now ++ last.now.rows) ≤ into.old.spare }
    ensures ok { OnOk result (HasAppended into.old into.new (rows_in earlier.now ++ last.now.rows)) }
    ensures err { OnErr result (HasAppendedSome (length (rows_in earlier.now ++ last.now.rows)) into.old into.new) }
{
    for chunk in earlier {
        into.append(chunk)?;
    }
    into.append(last)
}

/// Appends the end of one more chunk, and the ends of others behind it.
pub(crate) fn append_ends(
    ends: &mut Vec<usize>,
    end: usize,
    others: &[usize],
) -> Result<(), NoMemory>
    requires { (number : ℕ) → number < length others.now → end + slice_index others.now number < 2 ^ 64 }
    ensures ok { OnOk result (ends.new.items ≡ ends.old.items ++ end ∷ map (λ other. end + other) others.now) }
    ensures err { OnErr result (ends.new.items ≡ ends.old.items) }
{
    ends.reserve(others.len() + 1)?;
    ends.push_reserved(end);
    for other in others {
        ends.push_reserved(end + *other);
    }
    Ok(())
}
