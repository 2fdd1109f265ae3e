//! Laws over the definitions.
ghost use Rattle.loader_reply.specs.Loading.{FoundInHead};
ghost use Rattle.loader_reply.specs.Laws.{VerdictsAreOfPart, OwnReading, OneIsReadAlone, ReadingIsOfPart, ReadingIsOfGroups, StopFindsFirstFault, JoinedFaultsAreRaised, RowsAreOfEach, FixedHasSameReply, NamedHasSameReply, OutputChangesNoReply, RejectsAreShown};

/// The verdicts of data that don't begin between a CR and its LF are those of the part of all data.
pub fn verdicts_are_of_part()
    ensures { VerdictsAreOfPart }
{}

/// Under what is found in an input the first file's reading is its reading.
pub fn own_reading()
    ensures { OwnReading }
{}

/// A batch of one file has the rows, the rejects, the first error and the stats of its reading.
pub fn one_is_read_alone()
    ensures { OneIsReadAlone }
{}

/// The reading of a file, under what was found in it or in another one, is the part of its data.
pub fn reading_is_of_part()
    ensures { ReadingIsOfPart }
{}

/// The reading of a file is what its groups are read as, one after another without a stop.
pub fn reading_is_of_groups()
    ensures { ReadingIsOfGroups }
{}

/// The first fault of a group that is read with a stop, joined to the groups before it, is the first fault of the reading.
pub fn stop_finds_first_fault()
    ensures { StopFindsFirstFault }
{}

/// The faults of joined parts after some lines are those of each part, raised by what is before it.
pub fn joined_faults_are_raised()
    ensures { JoinedFaultsAreRaised }
{}

/// What is found in an input is found in a head of it that holds the sample.
pub fn found_in_head()
    ensures { FoundInHead }
{}

/// The rows of several files are those of each, loaded with what was found in one of them given.
pub fn rows_are_of_each()
    ensures { RowsAreOfEach }
{}

/// With what was found given, files are answered with the same status and text.
pub fn fixed_has_same_reply()
    ensures { FixedHasSameReply }
{}

/// Where the type of each column is given by its name, files are answered as under these types in a list, if the first row is
/// taken alike.
pub fn named_has_same_reply()
    ensures { NamedHasSameReply }
{}

/// A request has the same reply, status, text and all, whatever file it is to be written to.
pub fn output_changes_no_reply()
    ensures { OutputChangesNoReply }
{}

/// The fields of a reject as CSV are those of its line in the report, which shows them.
pub fn rejects_are_shown()
    ensures { RejectsAreShown }
{}
