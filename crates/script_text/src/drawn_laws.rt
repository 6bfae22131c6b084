ghost use Rattle.script_text.specs.DrawnCommands.{DrawnCommandsFit, DrawnLinesAreRead};

/// A script made from a number has a level from 100 to 200, a characteristic of the table, and four sessions of forty
/// commands, whose numbers are within their limits.
pub fn drawn_commands_fit()
    ensures law { DrawnCommandsFit }
{}

/// The line of a drawn command is read as that command.
pub fn drawn_lines_are_read()
    ensures law { DrawnLinesAreRead }
{}
