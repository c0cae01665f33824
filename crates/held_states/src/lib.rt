//! The log of a network doesn't depend on how the states of its units are held.
#![tactic(auto)]

ghost use Rattle.std.specs.Prelude.{◌≡◌, ℕ, List, map};
ghost use Rattle.fmi_states.specs.declared.call.Call.{Call};
ghost use Rattle.fmi_states.specs.declared.phase.Phase.{Phase};
ghost use Rattle.fmi_states.specs.declared.reply.Reply.{Reply};
ghost use Rattle.held_states.specs.Held.{IsHeldAs, world_as};
ghost use Rattle.world_specs.specs.Network.{run_lines, run_status};
ghost use Rattle.world_specs.specs.Plan.{Plan, opening_of, units_of};
ghost use Rattle.world_specs.specs.World.{World};

/// Where the states of units are held in another form, in which they answer alike, a network has the same log and
/// the same status from every state on, and opens in the same way.
pub fn how_states_are_held_changes_no_log<S, T>()
    ensures lines { (f : S → T) (answer : S → Call → Reply × S) (phase_of : S → Phase) (other : T → Call → Reply × T) (other_phase : T → Phase)
        → IsHeldAs f answer phase_of other other_phase → (p : Plan) (stop budget : ℕ) (w : World S)
        → run_lines (units_of other other_phase p) stop budget (world_as f w) ≡ run_lines (units_of answer phase_of p) stop budget w }
    ensures status { (f : S → T) (answer : S → Call → Reply × S) (phase_of : S → Phase) (other : T → Call → Reply × T) (other_phase : T → Phase)
        → IsHeldAs f answer phase_of other other_phase → (p : Plan) (stop budget : ℕ) (w : World S)
        → run_status (units_of other other_phase p) stop budget (world_as f w) ≡ run_status (units_of answer phase_of p) stop budget w }
    ensures opening { (f : S → T) (p : Plan) (states : List S) → opening_of p (map f states) ≡ world_as f (opening_of p states) }
{}
