//! Laws over the definitions: what is written reads back.
ghost use Rattle.db_reading.specs.Database.{DatabaseHoldsTable, DatabaseIsWhole};
ghost use Rattle.db_reading.specs.Laws.{ChainReadsBack, DividerReadsBack, ImageIsWhole, ImageReadsBack, PageReadsBack, TreeReadsBack};

/// A cell of a page above others names one of them and the last rowid under it.
pub fn divider_reads_back()
    ensures { DividerReadsBack }
{}

/// A page above others is whole, and names each of them.
pub fn page_reads_back()
    ensures { PageReadsBack }
{}

/// A record that goes on in other pages is read from its cell and these.
pub fn chain_reads_back()
    ensures { ChainReadsBack }
{}

/// Under the root of a tree a reader finds its rows, in the order of their rowids.
pub fn tree_reads_back()
    ensures { TreeReadsBack }
{}

/// A reader that begins at the first page finds the list of tables, and under each root that it names the rows of that table.
pub fn image_reads_back()
    ensures { ImageReadsBack }
{}

/// Where no record is longer than SQLite allows, each tree is what the kit's `IsTable` says: its leaves have one height, its
/// rowids rise, and each page of the file but the first and that of the locks is in one of them, once.
pub fn image_is_whole()
    ensures { ImageIsWhole }
{}

/// Of the database that `write_database` writes, a reader finds the rows of the table under the first root, the scans under the
/// second and the rejects under the third, each with its rowid from 1 on.
pub fn database_holds_table()
    ensures { DatabaseHoldsTable }
{}

/// And the database is whole.
pub fn database_is_whole()
    ensures { DatabaseIsWhole }
{}
