//! The events of whole runs, and their logs.

ghost use Rattle.std.specs.Prelude.{◌≡◌, ◌≤◌, ◌+◌, ◌++◌, ◌∷◌, [], ℕ, List, All, Some, None, true, Contains, length};
ghost use Rattle.log_specs.specs.Line.{Line, End};
ghost use Rattle.bus_specs.specs.Bus.{Bus, Request, Member, Running, Received, Confirm};
ghost use Rattle.world_specs.specs.Units.{Units};
ghost use Rattle.world_specs.specs.World.{World, Node};
ghost use Rattle.world_specs.specs.Next.{Finish, Start, at, next_event};
ghost use Rattle.world_specs.specs.Step.{world_behind};
ghost use Rattle.world_specs.specs.Network.{run_lines, run_status};
ghost use Rattle.world_specs.specs.Fits.{UnitsFit, Fits};
ghost use Rattle.world_laws.specs.Words.{IsDownOrOver};
ghost use Rattle.world_laws.specs.Runs.{events_of, InOrder, IsUpTo};
ghost use Rattle.world_laws.specs.Hearing.{Hears};
ghost use Rattle.world_laws.specs.Starts.{IsForemostStart};
ghost use Rattle.world_laws.specs.Silence.{IsSilentOf};

/// Of the events of a run each comes before all those behind it, by moment, then kind, then bus, then node.
pub fn the_events_of_a_run_come_in_order<S>()
    ensures order { (u : Units S) (stop budget : ℕ) (w : World S) → UnitsFit u → Fits w → InOrder (events_of u stop budget w) }
{}

/// No event of a run is after the stop, and so no line of its log.
pub fn nothing_happens_after_the_stop<S>()
    ensures events { (u : Units S) (stop budget : ℕ) (w : World S) → All (λ e. e.moment ≤ stop) (events_of u stop budget w) }
    ensures lines { (u : Units S) (stop budget : ℕ) (w : World S) → w.now ≤ stop → All (IsUpTo stop) (run_lines u stop budget w) }
{}

/// The last line tells how many events there were, those of the run and those before it.
pub fn each_log_tells_the_number_of_its_events<S>()
    ensures number { (u : Units S) (stop budget : ℕ) (w : World S) → (body : List Line)
        × (run_lines u stop budget w ≡ body ++ End (run_status u stop budget w) (w.events + length (events_of u stop budget w)) ∷ []) }
{}

/// A start is of what nothing beats that waits on its bus of nodes able to start.
pub fn each_start_is_of_the_foremost<S>()
    ensures foremost { (stop t : ℕ) (w : World S) (b : Bus) → Fits w → Contains w.buses b → next_event stop w ≡ Some (at (Start b.setup.number) t)
        → (q : Request) × IsForemostStart b t q }
{}

/// Of a node that is down or over a log tells only how a frame ends that was running, and its return. It receives
/// nothing.
pub fn who_is_out_is_silent<S>()
    ensures silent { (u : Units S) (stop budget : ℕ) (w : World S) (n : Node S) → UnitsFit u → Fits w → Contains w.nodes n → IsDownOrOver n.standing
        → All (IsSilentOf n.number) (run_lines u stop budget w) }
{}

/// Where a frame ends without a fault, each listener that is still live and awake is given it once, and its sender, if
/// live, one confirmation: in the sessions of that moment, unless the budget ends the run before them.
pub fn what_is_delivered_is_heard_at_once<S>()
    ensures received { (u : Units S) (stop k t : ℕ) (w : World S) (b : Bus) (r : Running) (m : Member) → UnitsFit u → Fits w
        → next_event stop w ≡ Some (at (Finish b.setup.number) t) → Contains w.buses b → b.running ≡ Some r → r.fault ≡ None → Contains b.members m
        → Contains r.listeners m.node → m.live ≡ true → m.awake ≡ true
        → Hears u stop b.setup.number m.node (Received r.frame) k (world_behind u w (at (Finish b.setup.number) t)) }
    ensures confirmed { (u : Units S) (stop k t : ℕ) (w : World S) (b : Bus) (r : Running) (m : Member) → UnitsFit u → Fits w
        → next_event stop w ≡ Some (at (Finish b.setup.number) t) → Contains w.buses b → b.running ≡ Some r → r.fault ≡ None → Contains b.members m
        → m.node ≡ r.sender → m.live ≡ true
        → Hears u stop b.setup.number m.node (Confirm r.frame.id) k (world_behind u w (at (Finish b.setup.number) t)) }
{}
