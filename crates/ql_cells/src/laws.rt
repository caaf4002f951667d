//! What is true of names, as a function that does nothing.

ghost use Rattle.ql_base.specs.Names.{reserved};
ghost use Rattle.ql_cells.specs.Names.{ArePrintedNames};

/// The reserved words, with which every table of names begins, can be printed.
pub fn reserved_words_are_printed()
    ensures { ArePrintedNames reserved }
{}
