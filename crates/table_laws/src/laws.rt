//! Laws over the definitions.
ghost use Rattle.table_laws.specs.Laws.{WrittenTableIsWritten, WrittenTableReadsBack};
ghost use Rattle.table_laws.specs.PartLaws.{CutsAreReadAlone, FirstFaultsAreOfParts, InputsAreReadByParts, PartRowsAreCounted, PartsAreFoundAlike, PartsAreLoadedAlone, PartsAreReadAlone};

/// A written table is a text of RFC 4180's grammar.
pub fn written_table_is_written()
    ensures { WrittenTableIsWritten }
{}

/// A written table reads back as the same names and the same table, and without a fault.
pub fn written_table_reads_back()
    ensures { WrittenTableReadsBack }
{}

/// Behind a head, data that are cut are read on both sides of the cut alone.
pub fn cuts_are_read_alone()
    ensures { CutsAreReadAlone }
{}

/// Behind a head, what is read of the data is what is read of each of their parts alone.
pub fn parts_are_read_alone()
    ensures { PartsAreReadAlone }
{}

/// An input is read part by part: its rows and faults are those that are read of each part alone, behind the head, under
/// what is found in the input.
pub fn inputs_are_read_by_parts()
    ensures { InputsAreReadByParts }
{}

/// With what was found in an input given, the same is found in each part of it behind the head, and its data begin there.
pub fn parts_are_found_alike()
    ensures { PartsAreFoundAlike }
{}

/// Each part of an input is loaded alone, behind the head, under what is found in the input: its rows and faults, end to
/// end, are those of the input.
pub fn parts_are_loaded_alone()
    ensures { PartsAreLoadedAlone }
{}

/// The first faults of an input need no more than the first ones of each part.
pub fn first_faults_are_of_parts()
    ensures { FirstFaultsAreOfParts }
{}

/// So many rows of each part that is loaded alone are good or faulty as the part says.
pub fn part_rows_are_counted()
    ensures { PartRowsAreCounted }
{}
