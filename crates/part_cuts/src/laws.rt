//! Laws over the definitions.
ghost use Rattle.part_cuts.specs.Laws.{AllIsCounted, NoCutIsMissed, PartsBeginAtCuts, PiecesAddUp};

/// Pieces that are read one after another are read as one, if the two bytes behind each are in sight, or what is left.
pub fn pieces_add_up()
    ensures { PiecesAddUp }
{}

/// All bytes, physical line ends and rows are counted, wherever parts begin.
pub fn all_is_counted()
    ensures { AllIsCounted }
{}

/// Each part begins where the data begin or at a cut, with all before it counted.
pub fn parts_begin_at_cuts()
    ensures { PartsBeginAtCuts }
{}

/// No cut is missed: up to each cut no multiple of the size lies behind the start of its part.
pub fn no_cut_is_missed()
    ensures { NoCutIsMissed }
{}
