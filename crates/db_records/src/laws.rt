//! Laws over the definitions: what is written reads back.
ghost use Rattle.db_records.specs.Laws.{CellReadsBack, RecordReadsBack, VarintReadsBack};

/// A number below 2^56 that is written reads back as itself, and no byte behind it is read.
pub fn varint_reads_back()
    ensures { VarintReadsBack }
{}

/// A row that is written as a record reads back as the same values.
pub fn record_reads_back()
    ensures { RecordReadsBack }
{}

/// A cell that is written reads back: its length, its rowid and its record.
pub fn cell_reads_back()
    ensures { CellReadsBack }
{}
