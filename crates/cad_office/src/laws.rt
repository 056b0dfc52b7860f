//! What holds of all lines. Each contract is a law; the functions do nothing.

ghost use Rattle.cad_office.specs.Laws.{LinesAreTheCommands};

/// The lines of commands, read as the office reads lines, are the texts of these commands, in their order, and no others.
pub fn lines_are_the_commands()
    ensures { LinesAreTheCommands }
{}
