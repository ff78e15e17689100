//! A made schedule is written and read again.
ghost use Rattle.load_maker.specs.Again.{MadeIsRead};

/// What the calls of `schedule_text` write of a made schedule is its text, and `read_schedule` reads it as this schedule. It
/// does nothing: its clause is the law.
pub fn made_is_read()
    ensures { MadeIsRead }
{}
