// Laws of the commands that tables give.

ghost use Rattle.sect_app.specs.Fitting.{TablesFit};

/// Each command that a table gives has a text, so that the desk may be asked it.
pub fn each_command_of_a_table_has_a_text()
    ensures { TablesFit }
{}
