// A tap is shown rows, and writes lines on what it has seen.
ghost use Rattle.std.specs.Prelude.{◌≡◌, ◌<◌, ◌++◌, ◌^◌, length, All, OnOk, OnErr};
ghost use Rattle.value_types.specs.Views.{view_rows, HasRows};
ghost use Rattle.column_taps.specs.Seen.{Seen, kind_of, HasRoom};
ghost use Rattle.column_taps.specs.SeenLines.{seen_lines};
ghost use Rattle.column_taps.specs.Taken.{TakenAs};
ghost use Rattle.column_taps.specs.Shown.{ShownAs, HasRoomForRows};

use crate::{TapKind, Tapped};
use csv_source::NoMemory;
use value_types::{Cells, ColumnView};

/// An observer of rows.
pub trait RowTap: Drop {
    /// What the tap has seen, which tells its kind too.
    ghost seen: { Self → Seen };

    /// The tap's kind, which no row changes.
    fn kind(&self) -> TapKind
        ensures { result ≡ kind_of (seen self.now) };

    /// Is shown a row. It has taken the row where it goes, and is as it was before the call where it is over, and
    /// after `NoMemory`.
    fn take(&mut self, row: &Cells) -> Result<Tapped, NoMemory>
        requires within { length row.now < 2 ^ 62 }
        requires room { HasRoom (seen self.old) }
        ensures { TakenAs (seen self.old) row.now result (seen self.new) };

    /// Is shown the first rows of columns at once: as if by `take` one after another, up to the first at which it is over.
    /// It answers how many it has taken, or `None` where they are to be shown to it one after another. After `NoMemory`
    /// it has taken some first rows.
    fn take_columns(
        &mut self,
        rows: usize,
        columns: &[ColumnView<'_>],
    ) -> Result<Option<usize>, NoMemory>
        requires long { All (HasRows rows) columns.now }
        requires wide { length columns.now < 2 ^ 62 }
        requires room { HasRoomForRows rows (length columns.now) (seen self.old) }
        ensures { ShownAs (seen self.old) (view_rows columns.now rows) result (seen self.new) }
    {
        Ok(None)
    }

    /// Appends the lines on what it has seen, all or none.
    fn write_lines(&self, into: &mut Vec<u8>) -> Result<(), NoMemory>
        ensures ok { OnOk result (into.new.items ≡ into.old.items ++ seen_lines (seen self.now)) }
        ensures err { OnErr result (into.new.items ≡ into.old.items) };
}
