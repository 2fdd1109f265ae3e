//! Laws over the definitions: what is joined is what one writer would have written, and a leaf reads back.
ghost use Rattle.db_pages.specs.Laws.{GroupsJoin, LeafReadsBack, TablesFollow};

/// Groups of rows that are written apart and joined are the pages of all rows, where all but the last are whole blocks and each
/// holds where it stands.
pub fn groups_join()
    ensures { GroupsJoin }
{}

/// A table whose tree is written behind those of others is one more of them.
pub fn tables_follow()
    ensures { TablesFollow }
{}

/// A leaf that is written has its size, and its cells are found in it, by the definitions of the kit's own reader.
pub fn leaf_reads_back()
    ensures { LeafReadsBack }
{}
