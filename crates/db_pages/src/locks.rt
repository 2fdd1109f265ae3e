// The page that holds byte 2^30 of a file: SQLite locks it there, and nothing else stands on it.
ghost use Rattle.std.specs.Prelude.{◌≡◌, ◌≤◌, ◌^◌, ◌++◌, ℕ, List, flat_map, length, replicate, IfOk, OnOk};
ghost use Rattle.db_pages.specs.Image.{with_lock_page};

use crate::number::PAGE;
use csv_source::NoMemory;
use db_records::push_zeros;
use std::alloc::Global;
use text_pieces::Pieces;

/// Where the page of the locks stands, in bytes.
const LOCK_BYTE: usize = 1 << 30;

/// A page of zeros.
fn lock_page(alloc: Global) -> Result<Vec<u8>, NoMemory>
    ensures { IfOk result (λ page. page.items ≡ replicate 4096 0) }
{
    let mut page = Vec::new(alloc);
    push_zeros(&mut page, PAGE)?;
    Ok(page)
}

/// Appends a piece to a text of so many bytes, the page of the locks not among them.
fn push_piece(alloc: Global, text: &mut Pieces, len: usize, piece: Vec<u8>) -> Result<(), NoMemory>
    ensures ok { OnOk result ((so_far : List ℕ) → text.old ≡ with_lock_page so_far → length so_far ≡ len → text.new ≡ with_lock_page (so_far ++ piece.items)) }
{
    if len > LOCK_BYTE || piece.len() <= LOCK_BYTE - len {
        text.push(piece)?;
        return Ok(());
    }
    let (front, back) = piece.split_at(LOCK_BYTE - len);
    text.push(front.to_vec(alloc)?)?;
    text.push(lock_page(alloc)?)?;
    text.push(back.to_vec(alloc)?)?;
    Ok(())
}

/// The text of a first page and the pieces behind it, with the page of the locks.
pub(crate) fn join_pages(
    alloc: Global,
    first: Vec<u8>,
    pieces: Vec<Vec<u8>>,
) -> Result<Pieces, NoMemory>
    requires short { length first.items ≤ 2 ^ 30 }
    ensures { IfOk result (λ text. text ≡ with_lock_page (first.items ++ flat_map (λ piece. piece.items) pieces.items)) }
{
    let mut len = first.len();
    let mut text = Pieces::of(alloc, first);
    for piece in pieces {
        let next = len.checked_add(piece.len()).ok_or(NoMemory)?;
        push_piece(alloc, &mut text, len, piece)?;
        len = next;
    }
    Ok(text)
}
