//! What a moment brings by itself.

ghost use Rattle.std.specs.Prelude.{◌≡◌, ◌<◌, ◌≤◌, ◌^◌, [], IsFalse, IsTrue, List};
ghost use Rattle.agent_model.specs.Sound.{IsTied};
ghost use Rattle.agent_model.specs.State.{Port, State, next_due};
ghost use Rattle.agent_model.specs.Time.{IsAhead, end_late, lose_late, taken_in, time_passes};
ghost use Rattle.agent_core.specs.Bound.{IsAtRest, IsBound};
ghost use Rattle.agent_core.specs.Parts.{IsSpared, after, begun, stepped_of};

use crate::confirmer::end_confirmation;
use crate::helper::lose_helper;
use crate::parts::Parts;
use world_ports::Moment;

impl Parts {
    /// Time passes, and what was waited for too long ends. Tells whether the second is a new one, or something was due.
    pub fn pass(&mut self, moment: Moment, due: Option<u64>) -> bool
        requires rest { IsAtRest self.old.state }
        requires due { due ≡ next_due self.old.state }

        ensures passed { stepped_of self.new ≡ after [] (time_passes moment self.old.state) }
        ensures same { IsFalse result → next_due self.new.state ≡ next_due self.old.state }
        ensures spared { IsSpared self.old.state self.new }
    {
        if self.is_still(moment, due) {
            self.begin(moment);
            return false;
        }
        self.pass_seconds(moment);
        true
    }
}

impl Parts {
    // Whether the moment is in the same second, and nothing is due at it.
    fn is_still(&self, moment: Moment, due: Option<u64>) -> bool
        ensures still { IsTrue result → (moment.mono ≤ self.now.state.moment.mono)
            × IsAhead self.now.state.moment.mono due }
        ensures clock { self.now.state.moment.mono < 2 ^ 64 }
        ensures known { self.now.state.held.table.greatest ≡ self.now.state.moment.mono }
    {
        let second = self.keys.second();
        match due {
            Some(due) => moment.mono <= second && second < due,
            None => moment.mono <= second,
        }
    }

    // An event begins in the same second.
    fn begin(&mut self, moment: Moment)
        ensures parts { stepped_of self.new ≡ begun moment.wall self.old.state }
        ensures spared { IsSpared self.old.state self.new }
    {
        self.wall = moment.wall;
        self.ports.begin();
    }

    // An event begins in another second, or at one at which something is due.
    fn pass_seconds(&mut self, moment: Moment)
        requires { IsAtRest self.old.state }

        ensures parts { stepped_of self.new ≡ after [] (time_passes moment self.old.state) }
        ensures spared { IsSpared self.old.state self.new }
    {
        self.take_in(moment);
        self.lose_late();
        self.end_late();
    }

    // The moment is taken in: identities whose lifetime has run out leave.
    fn take_in(&mut self, moment: Moment)
        requires { self.old.state.under_way.second ≡ self.old.state.moment.mono }

        ensures parts { stepped_of self.new ≡ record { state = taken_in moment self.old.state; closes = [] } }
        ensures spared { IsSpared self.old.state self.new }
    {
        let now = self.keys.second().max(moment.mono);
        self.wall = moment.wall;
        self.keys.expire(now);
        self.under_way.pass(now);
        self.ports.begin();
    }

    // A helper that hasn't answered in time is lost.
    fn lose_late(&mut self)
        requires { IsBound self.old.state.ports self.old.state.under_way }

        ensures parts { stepped_of self.new ≡ after self.old.closes (lose_late self.old.state) }
        ensures spared { (was : State) → IsSpared was self.old → IsSpared was self.new }
    {
        if self.under_way.is_helper_late() {
            lose_helper(&mut self.ports, &mut self.under_way);
        }
    }

    // What the user hasn't answered in time is over, in the order of the jobs.
    fn end_late(&mut self)
        requires { IsTied self.old.state }

        ensures parts { stepped_of self.new ≡ after self.old.closes (end_late self.old.state) }
        ensures spared { (was : State) → IsSpared was self.old → IsSpared was self.new }
    {
        'late: while let Some(job) = self.under_way.late_confirmation() {
            end_confirmation(&mut self.ports, &mut self.under_way, job);
        }
    }
}
