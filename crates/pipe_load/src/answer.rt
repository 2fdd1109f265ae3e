//! What a load answers.
ghost use Rattle.std.specs.Prelude.{◌≡◌, ℕ, List, true, IfOk};
ghost use Rattle.reject_book.specs.declared.book.Keep.TheVariants.{First as first_of};
ghost use Rattle.range_scan.specs.declared.context.Context.{Context};
ghost use Rattle.window_load.specs.DataRead.{IsDataRead, IsWindowRead};

use csv_source::NoMemory;
use std::alloc::Global;
use window_load::{DataRead, WindowRead, first_reject};

/// All data, or their first reject where the load stops at it.
pub fn up_to_reject(alloc: Global, read: DataRead, stop: bool) -> Result<WindowRead, NoMemory>
    ensures { (context : Context) (text : List ℕ) (start size : ℕ) → (stop ≡ true → context.keep ≡ first_of 1)
        → IsDataRead context text start size read → IfOk result (λ answer. IsWindowRead context text start size stop answer) }
{
    if stop && read.joined.book.len() > 0 {
        let reject = first_reject(alloc, &read.joined.book, 0)?;
        return Ok(WindowRead::Stopped(reject));
    }
    Ok(WindowRead::All(read))
}
