//! Laws of the texts of specs/.

ghost use Rattle.schedule_text.specs.Steps.{IsReadBack};

/// A line that is written for a step is read as that step.
pub fn a_written_step_is_read_back()
    ensures { IsReadBack }
{}
