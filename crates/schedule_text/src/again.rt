//! What was written of a schedule is read again as it.
ghost use Rattle.schedule_text.specs.Again.{WrittenIsRead};

/// What `write_definitions` wrote of a schedule that has a text, the line `events`, what `write_event` wrote of each of its
/// events, and the line `end` are its text, and `read_schedule` reads it as this schedule. It does nothing: its clause is the
/// law.
pub fn written_is_read()
    ensures { WrittenIsRead }
{}
