//! Sums of counts and of lines, where nothing bounds them beforehand.
ghost use Rattle.std.specs.Prelude.{◌≡◌, ◌+◌, ◌<◌, ◌^◌, All, IfOk, IsTrue, OnOk};
ghost use Rattle.reject_book.specs.declared.reject.Reject.{Reject};
ghost use Rattle.reject_book.specs.Kept.{joined};

use csv_source::NoMemory;
use reject_book::Book;

/// Lines and numbers of rejects stay below this, so that no sum wraps; no input within the limits comes near it.
const LIMIT: u64 = 1 << 63;

/// Whether a sum stays below the limit.
fn fits(a: u64, b: u64) -> bool
    ensures { IsTrue result → a + b < 2 ^ 63 }
{
    a < LIMIT && b < LIMIT - a
}

/// Whether the lines of the rejects stay below the limit behind some lines.
fn lines_fit(book: &Book, lines: u64) -> bool
    ensures { IsTrue result → All (λ (r : Reject). lines + r.line < 2 ^ 63) book.now.stored }
{
    for index in 0..book.len() {
        if !fits(lines, book.get(index).line) {
            return false;
        }
    }
    true
}

/// Appends a book behind some lines. What can't be counted counts as want of memory.
pub fn append_book(book: &mut Book, other: Book, lines: u64) -> Result<(), NoMemory>
    requires same { book.old.keep ≡ other.keep }
    ensures ok { OnOk result (book.new ≡ joined lines book.old other) }
{
    if !fits(book.all(), other.all()) || !lines_fit(&other, lines) {
        return Err(NoMemory);
    }
    book.append(other, lines)
}

/// A sum. What can't be counted counts as want of memory.
pub fn sum_of(a: u64, b: u64) -> Result<u64, NoMemory>
    ensures ok { IfOk result (λ sum. sum ≡ a + b) }
{
    a.checked_add(b).ok_or(NoMemory)
}
