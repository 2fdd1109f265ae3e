// The first page of a file: its header, and a root whose one child is the root of the list of tables.
ghost use Rattle.std.specs.Prelude.{◌≡◌, length, IfOk};
ghost use Rattle.db_pages.specs.Image.{first_page};

use crate::number::four_bytes;
use csv_source::NoMemory;
use db_records::{append, push_zeros};
use std::alloc::Global;

/// The first page of a file of so many pages, by the number of the root of its list of tables.
pub(crate) fn first_page(alloc: Global, pages: u32, root: u32) -> Result<Vec<u8>, NoMemory>
    ensures value { IfOk result (λ page. page.items ≡ first_page pages root) }
    ensures size { IfOk result (λ page. length page.items ≡ 4096) }
{
    let mut page = Vec::new(alloc);
    append(&mut page, b"SQLite format 3\0")?;
    // Pages of 4,096 bytes, no log, none reserved, the fractions of a payload that the format fixes, and the change counter.
    append(&mut page, &[16, 0, 1, 1, 0, 64, 32, 32, 0, 0, 0, 1])?;
    append(&mut page, &four_bytes(pages))?;
    // No free page, schema version 1 in format 4.
    append(&mut page, &[0, 0, 0, 0, 0, 0, 0, 0, 0, 0, 0, 1, 0, 0, 0, 4])?;
    push_zeros(&mut page, 8)?;
    // Texts are UTF-8.
    append(&mut page, &[0, 0, 0, 1])?;
    push_zeros(&mut page, 32)?;
    // The size is valid for change counter 1, and SQLite's version is 3.40.0.
    append(&mut page, &[0, 0, 0, 1])?;
    append(&mut page, &four_bytes(3_040_000))?;
    // A page above others with no cell.
    append(&mut page, &[5, 0, 0, 0, 0, 16, 0, 0])?;
    append(&mut page, &four_bytes(root))?;
    push_zeros(&mut page, 3984)?;
    Ok(page)
}
