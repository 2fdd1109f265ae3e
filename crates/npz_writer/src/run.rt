// A run of rows of one column.
ghost use Rattle.std.specs.Prelude.{◌≡◌, ◌≤◌, ◌<◌, ◌+◌, ◌^◌, ◌++◌, ◌∷◌, ◌⊎◌, [], true, false, length, map, slice_get, take, Some};
ghost use Rattle.value_types.specs.Views.{view_cells};
ghost use Rattle.column_store.specs.TableView.{column_of};
ghost use Rattle.column_store.specs.ViewTypes.{type_of_view};
ghost use Rattle.npz_writer.specs.declared.part.Part.TheVariants as parts;
ghost use Rattle.npz_writer.specs.Arrays.{cell_bytes, number_bytes, truth_byte};
ghost use Rattle.npz_writer.specs.Blocks.{unmarked, written_numbers};
ghost use Rattle.npz_writer.specs.Walks.{Fills, HasMore, IsRun, run_cells, takes_texts};

use crate::ends::put_ends;
use crate::numbers::{NumberColumn, Numbers};
use crate::part::Part;
use crate::texts::{put_front, text_of, wants_text};
use crate::truths::{put_marks, put_truths};
use column_store::Chunk;
use value_types::{ColumnView, Texts};

/// NumPy's number for no date and no time.
const NOT_A_TIME: i64 = i64::MIN;

/// The rows from `row` to before `rows` of a column, whose bytes are to come behind those that are pending; their texts begin at
/// `begin` among all.
#[derive(Drop)]
pub(crate) struct Run<'a> {
    pub(crate) view: ColumnView<'a>,
    pub(crate) rows: usize,
    pub(crate) row: usize,
    pub(crate) pending: &'a [u8],
    pub(crate) begin: u64,
}

impl<'a> Run<'a> {
    /// All rows of a chunk, whose texts begin at a place.
    pub(crate) fn of(chunk: &'a Chunk, column: usize, begin: u64) -> Run<'a>
        requires { column < length chunk.now.types }
        ensures is { (part : _) → IsRun part result }
        ensures cells { run_cells result ≡ column_of chunk.now.rows column }
        ensures ty { slice_get chunk.now.types column ≡ Some (type_of_view result.view) }
        ensures pending { result.pending.now ≡ [] }
        ensures begin { result.begin ≡ begin }
    {
        Run {
            view: chunk.view(column),
            rows: chunk.rows(),
            row: 0,
            pending: &[],
            begin,
        }
    }

    /// No row of a chunk, before the first text of all.
    pub(crate) fn none(chunk: &'a Chunk, column: usize) -> Run<'a>
        requires { column < length chunk.now.types }
        ensures is { (part : _) → IsRun part result }
        ensures cells { run_cells result ≡ [] }
        ensures ty { slice_get chunk.now.types column ≡ Some (type_of_view result.view) }
        ensures pending { result.pending.now ≡ [] }
        ensures begin { result.begin ≡ 0 }
    {
        Run {
            view: chunk.view(column),
            rows: 0,
            row: 0,
            pending: &[],
            begin: 0,
        }
    }

    /// Whether some rows or some bytes are to come.
    pub(crate) fn has_more(&self) -> bool
        ensures yes { result ≡ true → HasMore self.now }
        ensures no { result ≡ false → (self.now.rows ≤ self.now.row) × (length self.now.pending.now ≡ 0) }
    {
        self.row < self.rows || !self.pending.is_empty()
    }

    /// How far the rows go of which so many fit.
    fn reach(&self, fit: usize) -> usize
        requires more { self.now.row < self.now.rows }
        requires some { 0 < fit }
        ensures more { self.now.row < result }
        ensures within { result ≤ self.now.rows }
        ensures fit { result ≤ self.now.row + fit }
    {
        self.row + fit.min(self.rows - self.row)
    }

    /// Fills a block with numbers.
    fn fill_numbers(&mut self, column: &NumberColumn<'_>, block: &mut [u8]) -> usize
        requires run { IsRun parts.Values self.old }
        requires pending { self.old.pending.now ≡ [] }
        requires more { self.old.row < self.old.rows }
        requires room { 8 ≤ length block.old }
        requires column { map (cell_bytes (type_of_view self.old.view)) (view_cells self.old.view) ≡ map number_bytes (written_numbers column.now) }
        ensures { Fills parts.Values self.old self.new result block.new }
    {
        let from = self.row;
        let to = self.reach(block.len() / 8);
        column.put(from, to, block);
        self.row = to;
        8 * (to - from)
    }

    /// Fills a block with truths.
    fn fill_truths(&mut self, nulls: &[bool], truths: &[bool], block: &mut [u8]) -> usize
        requires run { IsRun parts.Values self.old }
        requires pending { self.old.pending.now ≡ [] }
        requires more { self.old.row < self.old.rows }
        requires room { 8 ≤ length block.old }
        requires column { map (cell_bytes (type_of_view self.old.view)) (view_cells self.old.view) ≡ map (λ truth. truth_byte truth ∷ []) (unmarked false nulls.now truths.now) }
        ensures { Fills parts.Values self.old self.new result block.new }
    {
        let from = self.row;
        let to = self.reach(block.len());
        put_truths(nulls, truths, from, to, block);
        self.row = to;
        to - from
    }

    /// Fills a block with places where texts end.
    fn fill_ends(&mut self, block: &mut [u8]) -> usize
        requires run { IsRun parts.Ends self.old }
        requires more { self.old.row < self.old.rows }
        requires room { 8 ≤ length block.old }
        ensures { Fills parts.Ends self.old self.new result block.new }
    {
        let from = self.row;
        let to = self.reach(block.len() / 8);
        self.begin = put_ends(&self.view, self.begin, from, to, block);
        self.row = to;
        8 * (to - from)
    }

    /// Fills a block with null marks.
    fn fill_marks(&mut self, block: &mut [u8]) -> usize
        requires run { IsRun parts.Nulls self.old }
        requires more { self.old.row < self.old.rows }
        requires room { 8 ≤ length block.old }
        ensures { Fills parts.Nulls self.old self.new result block.new }
    {
        let from = self.row;
        let to = self.reach(block.len());
        put_marks(self.view.nulls(), from, to, block);
        self.row = to;
        to - from
    }

    /// Fills a block with the bytes of texts.
    fn fill_texts(&mut self, nulls: &[bool], texts: &'a Texts, block: &mut [u8]) -> usize
        requires run { IsRun parts.Values self.old }
        requires more { HasMore self.old }
        requires room { 8 ≤ length block.old }
        requires texts { takes_texts parts.Values (type_of_view self.old.view) ≡ true }
        requires column { map (cell_bytes (type_of_view self.old.view)) (view_cells self.old.view) ≡ map (λ text. text) (unmarked [] nulls.now texts.now) }
        ensures { Fills parts.Values self.old self.new result block.new }
    {
        let mut at = put_front(self.pending, block, 0);
        let mut pending = &self.pending[at..];
        let mut row = self.row;
        let rows = self.rows;
        while wants_text(pending, row, rows) {
            let text = text_of(nulls, texts, row);
            let count = put_front(text, block, at);
            pending = &text[count..];
            at += count;
            row += 1;
        }
        self.pending = pending;
        self.row = row;
        at
    }

    /// Fills a block with values.
    fn fill_values(&mut self, block: &mut [u8]) -> usize
        requires run { IsRun parts.Values self.old }
        requires more { HasMore self.old }
        requires room { 8 ≤ length block.old }
        ensures { Fills parts.Values self.old self.new result block.new }
    {
        match self.view {
            ColumnView::Boolean(nulls, truths) => self.fill_truths(nulls, truths, block),
            ColumnView::Bigint(column) => {
                let numbers = NumberColumn::new(column.nulls(), Numbers::of(column.values()), 0);
                self.fill_numbers(&numbers, block)
            }
            ColumnView::Date(nulls, days) => {
                let numbers = NumberColumn::new(nulls, Numbers::Days(days), NOT_A_TIME);
                self.fill_numbers(&numbers, block)
            }
            ColumnView::Time(nulls, micros) => {
                let numbers = NumberColumn::new(nulls, Numbers::Wide(micros), NOT_A_TIME);
                self.fill_numbers(&numbers, block)
            }
            ColumnView::Timestamp(nulls, micros) => {
                let numbers = NumberColumn::new(nulls, Numbers::Wide(micros), NOT_A_TIME);
                self.fill_numbers(&numbers, block)
            }
            ColumnView::Varchar(nulls, texts) => self.fill_texts(nulls, texts, block),
        }
    }

    /// Fills a block with bytes of an array.
    pub(crate) fn fill(&mut self, part: Part, block: &mut [u8]) -> usize
        requires run { IsRun part self.old }
        requires more { HasMore self.old }
        requires room { 8 ≤ length block.old }
        ensures { Fills part self.old self.new result block.new }
    {
        match part {
            Part::Values => self.fill_values(block),
            Part::Ends => self.fill_ends(block),
            Part::Nulls => self.fill_marks(block),
        }
    }
}
