//! What holds of a network in every state that a run comes to.

ghost use Rattle.std.specs.Prelude.{◌≡◌, ◌<◌, ◌≤◌, ◌+◌, ℕ, List, All, Some, length, true, false};
ghost use Rattle.run_specs.specs.Run.{behind};
ghost use Rattle.fmi_states.specs.declared.phase.Phase.{Phase};
ghost use Rattle.fmi_states.specs.declared.call.Call.{Call};
ghost use Rattle.fmi_states.specs.declared.reply.Reply.{Reply};
ghost use Rattle.world_specs.specs.Units.{Units};
ghost use Rattle.world_specs.specs.World.{World, Node};
ghost use Rattle.world_specs.specs.Next.{Event, Sessions, at, precedes, next_event};
ghost use Rattle.world_specs.specs.Step.{outcome_of, world_behind};
ghost use Rattle.world_specs.specs.Network.{network};
ghost use Rattle.world_specs.specs.Plan.{Plan, IsPlan, opening_of, units_of};
ghost use Rattle.world_specs.specs.Fits.{UnitsFit, is_live_node, Fits};
ghost use Rattle.world_laws.specs.Cases.{two_buses};
ghost use Rattle.world_laws.specs.Words.{AllCounted, IsCounted, AnswersBytes, IsSessions, IsLeft, NothingWaits};

/// The units of a plan set clocks behind the moment of their session and emit bytes, where each answers
/// with bytes.
pub fn units_of_a_plan_fit<S>()
    ensures fit { (answer : S → Call → Reply × S) (phase_of : S → Phase) (p : Plan) → AnswersBytes answer
        → UnitsFit (units_of answer phase_of p) }
{}

/// The network of a plan fits as it opens.
pub fn plans_open_networks_that_fit<S>()
    ensures fits { (p : Plan) (states : List S) → IsPlan p → Fits (opening_of p states) }
{}

/// Each event leaves a network that fits, where it met one, and so does each run.
pub fn what_fits_goes_on_to_fit<S>()
    ensures step { (u : Units S) (stop : ℕ) (w : World S) (e : Event) → UnitsFit u → Fits w → next_event stop w ≡ Some e
        → Fits (world_behind u w e) }
    ensures along { (u : Units S) (stop events : ℕ) (w : World S) → UnitsFit u → Fits w → Fits (behind (network u stop) events w) }
{}

/// Each event comes behind the one before it: by moment, then kind, then bus, then node.
pub fn each_event_comes_behind_the_last<S>()
    ensures behind { (u : Units S) (stop : ℕ) (w : World S) (e f : Event) → UnitsFit u → Fits w → next_event stop w ≡ Some e
        → next_event stop (world_behind u w e) ≡ Some f → precedes e f ≡ true }
{}

/// So sessions that follow sessions are later.
pub fn a_moment_has_one_sessions<S>()
    ensures later { (u : Units S) (stop t : ℕ) (w : World S) (f : Event) → UnitsFit u → Fits w → next_event stop w ≡ Some (at Sessions t)
        → next_event stop (world_behind u w (at Sessions t)) ≡ Some f → IsSessions f.what → t < f.moment }
{}

/// Behind the sessions of a moment no mail and no due notice is left for any node.
pub fn sessions_leave_nothing_waiting<S>()
    ensures nothing { (u : Units S) (w : World S) (t : ℕ) → Fits w → All (NothingWaits t) (outcome_of u w t Sessions).buses }
{}

/// A node that isn't live has no request, notice or mail on any bus.
pub fn who_is_not_live_holds_nothing<S>()
    ensures nothing { (w : World S) (node : ℕ) → Fits w → is_live_node w.nodes node ≡ false → All (IsLeft node) w.buses }
{}

/// A bus has had no more attempts than there were events, and has given out no more than 256 request numbers
/// an event and a node.
pub fn numbers_stay_small<S>()
    ensures opens { (p : Plan) (states : List S) → AllCounted (opening_of p states) }
    ensures step { (u : Units S) (w : World S) (e : Event) → Fits w → AllCounted w → AllCounted (world_behind u w e) }
    ensures within { (u : Units S) (w : World S) (e : Event) (most : ℕ) → length w.nodes ≤ most → Fits w → All (IsCounted most w.events) w.buses
        → All (IsCounted most (w.events + 1)) (world_behind u w e).buses }
    ensures along { (u : Units S) (stop events : ℕ) (w : World S) → UnitsFit u → Fits w → AllCounted w
        → AllCounted (behind (network u stop) events w) }
{}

/// There are plans, so there are networks that fit.
pub fn the_laws_have_cases()
    ensures plan { IsPlan two_buses }
{}
