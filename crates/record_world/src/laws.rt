//! Laws of records.

ghost use Rattle.record_world.specs.Leads.{IsOrder};

/// What a recorder wrote of one list of entries and then of another, it wrote of both.
pub fn later_states()
    ensures order { IsOrder }
{}
