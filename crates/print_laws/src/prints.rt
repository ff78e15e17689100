ghost use Rattle.print_laws.specs.Printed.{RunsPrint};

/// The schema lines, the outputs of the run of its events, and `end`, of any schedule that has a text, are the text of the
/// print of its schema and of these outputs, whatever the bodies of its requests are taken to say.
pub fn replayed_is_print()
    ensures { RunsPrint }
{}
