//! A law over the definitions.
ghost use Rattle.csv_writer.specs.Laws.{NumbersAreBare};

/// No number stands between quotes.
pub fn numbers_are_bare()
    ensures { NumbersAreBare }
{}
