//! Which event comes next, and when.

ghost use Rattle.std.specs.Prelude.{◌≡◌, ◌≤◌, ◌<◌, ℕ, false, All, List, Some, None, Contains};
ghost use Rattle.bus_specs.specs.Bus.{Bus};
ghost use Rattle.run_specs.specs.Order.{IsForemost};
ghost use Rattle.run_specs.specs.Run.{behind};
ghost use Rattle.world_specs.specs.Units.{Units};
ghost use Rattle.world_specs.specs.World.{World, Node, opening};
ghost use Rattle.world_specs.specs.Next.{Event, precedes, enabled, next_event};
ghost use Rattle.world_specs.specs.Step.{world_behind, event_lines};
ghost use Rattle.world_specs.specs.Network.{network, run_lines, run_status};
ghost use Rattle.world_specs.specs.Fits.{UnitsFit};
ghost use Rattle.world_laws.specs.Words.{EndsWith, NothingIsLate, IsAt, LinesRise};

/// Nothing that is enabled comes before the next event, which isn't after the stop.
pub fn the_next_event_is_foremost<S>()
    ensures foremost { (stop : ℕ) (w : World S) (e : Event) → next_event stop w ≡ Some e → IsForemost precedes (enabled w) e }
    ensures within { (stop : ℕ) (w : World S) (e : Event) → next_event stop w ≡ Some e → e.moment ≤ stop }

    // One that is enabled up to the stop, and that nothing enabled comes before, is the next.
    ensures only { (stop : ℕ) (w : World S) (e : Event) → Contains (enabled w) e → All (λ f. precedes f e ≡ false) (enabled w)
        → e.moment ≤ stop → next_event stop w ≡ Some e }

    // There is none only where all that is enabled is after the stop.
    ensures none { (stop : ℕ) (w : World S) → next_event stop w ≡ None → All (λ e. stop < e.moment) (enabled w) }
{}

/// No event is before the last one, and what is enabled behind an event isn't either.
pub fn moments_never_fall<S>()
    ensures forward { (stop : ℕ) (w : World S) (e : Event) → NothingIsLate w → next_event stop w ≡ Some e → w.now ≤ e.moment }
    ensures behind { (u : Units S) (stop : ℕ) (w : World S) (e : Event) → UnitsFit u → next_event stop w ≡ Some e
        → NothingIsLate (world_behind u w e) }
{}

/// Along each run from a network in which nothing is late, as one that opens is, nothing is ever late.
pub fn nothing_is_ever_late<S>()
    ensures opening { (buses : List Bus) (nodes : List (Node S)) → NothingIsLate (opening buses nodes) }
    ensures along { (u : Units S) (stop events : ℕ) (w : World S) → UnitsFit u → NothingIsLate w
        → NothingIsLate (behind (network u stop) events w) }
{}

/// Each line of an event is of its moment, and so no line of a log is earlier than the one before it.
pub fn no_line_is_earlier_than_the_one_before_it<S>()
    ensures at { (u : Units S) (w : World S) (e : Event) → All (IsAt e.moment) (event_lines u w e) }
    ensures rise { (u : Units S) (stop budget : ℕ) (w : World S) → UnitsFit u → NothingIsLate w
        → LinesRise w.now (run_lines u stop budget w) }
{}

/// A log ends with its status and the number of events. Its budget is spent where the status is 8, and an
/// event is left then up to the stop.
pub fn each_log_ends_with_its_status<S>()
    ensures ends { (u : Units S) (stop budget : ℕ) (w : World S)
        → EndsWith (run_status u stop budget w) w.events budget (run_lines u stop budget w) }
{}
