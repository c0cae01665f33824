//! Laws of what a network holds in every state of a run: each is the contract of a function with an empty body.
#![tactic(auto)]

ghost use Rattle.std.specs.Prelude.{◌≡◌, ◌≤◌, ◌<◌, ◌+◌, ◌*◌, ◌^◌, ℕ, List, All, Some, true};
ghost use Rattle.fmi_states.specs.declared.phase.Phase.{Phase};
ghost use Rattle.fmi_states.specs.declared.call.Call.{Call};
ghost use Rattle.fmi_states.specs.declared.reply.Reply.{Reply};
ghost use Rattle.frame_specs.specs.Frame.{Frame, is_well_formed};
ghost use Rattle.frame_specs.specs.Wire.{wire_bits, duration};
ghost use Rattle.run_specs.specs.Run.{behind};
ghost use Rattle.bus_specs.specs.Bus.{Bus};
ghost use Rattle.bus_specs.specs.Sound.{Sound};
ghost use Rattle.bus_specs.specs.Start.{start};
ghost use Rattle.bus_specs.specs.Finish.{finish, recover};
ghost use Rattle.bus_specs.specs.Inbox.{enter, leave, take_inbox};
ghost use Rattle.bus_specs.specs.Submit.{Submission, submit};
ghost use Rattle.world_specs.specs.Units.{Units};
ghost use Rattle.world_specs.specs.World.{World};
ghost use Rattle.world_specs.specs.Next.{Event, Sessions, at, next_event};
ghost use Rattle.world_specs.specs.Step.{world_behind};
ghost use Rattle.world_specs.specs.Network.{network};
ghost use Rattle.world_specs.specs.Plan.{Plan, IsPlan, opening_of, units_of};
ghost use Rattle.world_specs.specs.Fits.{UnitsFit, Fits};
ghost use Rattle.state_laws.specs.Words.{ClocksBy, AllBy, HeldBelow, Bounded, SetsWithin};
ghost use Rattle.state_laws.specs.Within.{IsWithin};
ghost use Rattle.state_laws.specs.Words.{HasBegun, IsNewAtFirst, IsAsPlanned, clocks_in, ChangesEach, HasClocks};

/// A frame has fewer than 2,000 bits on the wire, and lasts no longer than 2,000 of the longer of its two bits.
pub fn each_frame_is_short()
    ensures wire { (f : Frame) → is_well_formed f ≡ true → wire_bits f < 2000 }
    ensures lasts { (f : Frame) (bit nominal data_bit : ℕ) → nominal ≤ bit → data_bit ≤ bit → is_well_formed f ≡ true
        → duration f nominal data_bit ≤ 2000 * bit }
{}

/// A bus that is bounded stays so while the limit is 2,000 bits behind each event. Identifiers of frames are below 2^29.
pub fn each_event_keeps_a_bus_bounded()
    ensures start { (limit bit ids now : ℕ) (b : Bus) → now + 2000 * bit ≤ limit → 2 ^ 29 ≤ ids → Sound b → Bounded limit bit ids b
        → Bounded limit bit ids (start b now).0 }
    ensures finish { (limit bit ids now : ℕ) (b : Bus) → now + 2000 * bit ≤ limit → 2 ^ 29 ≤ ids → Sound b → Bounded limit bit ids b
        → Bounded limit bit ids (finish b now).0 }
    ensures recover { (limit bit ids now node : ℕ) (b : Bus) → Bounded limit bit ids b → Bounded limit bit ids (recover b now node).0 }

    // A node enters, takes what is due, submits, and leaves.
    ensures enter { (limit bit ids node : ℕ) (b : Bus) → Bounded limit bit ids b → Bounded limit bit ids (enter b node) }
    ensures take { (limit bit ids now node : ℕ) (b : Bus) → Bounded limit bit ids b → Bounded limit bit ids (take_inbox b now node).0 }
    ensures submit { (limit bit ids now node : ℕ) (b : Bus) (what : Submission) → now + 2000 * bit ≤ limit → Bounded limit bit ids b
        → Bounded limit bit ids (submit b now node what).0 }
    ensures leave { (limit bit ids node : ℕ) (b : Bus) → Bounded limit bit ids b → Bounded limit bit ids (leave b node) }
{}

/// The units of a plan set clocks at most 2^62 ticks behind the moment of their session.
pub fn units_of_a_plan_set_clocks_near<S>()
    ensures near { (answer : S → Call → Reply × S) (phase_of : S → Phase) (p : Plan) → SetsWithin (2 ^ 62) (units_of answer phase_of p) }
{}

/// The network of a plan opens with bounded buses. An event leaves all buses bounded where the limit is 2,000 bits behind
/// it, and has all clocks tick by a moment little behind its own, where it met them so.
pub fn what_is_bounded_goes_on_so<S>()
    ensures opens { (p : Plan) (states : List S) (limit ids : ℕ) → IsPlan p
        → All (Bounded limit (10 ^ 12) ids) (opening_of p states).buses }
    ensures buses { (u : Units S) (limit bit ids : ℕ) (w : World S) (e : Event) → e.moment + 2000 * bit ≤ limit → 2 ^ 29 ≤ ids → Fits w
        → All (Bounded limit bit ids) w.buses → All (Bounded limit bit ids) (world_behind u w e).buses }
    ensures clocks { (u : Units S) (limit span : ℕ) (w : World S) (e : Event) → SetsWithin span u → e.moment + span ≤ limit
        → All (λ n. ClocksBy limit n.standing) w.nodes → All (λ n. ClocksBy limit n.standing) (world_behind u w e).nodes }
{}

/// In every state of a run of a plan's network all that is still to happen happens by 2^63: frames end, frames may
/// start, notices are due, nodes return, clocks tick.
pub fn moments_stay_small<S>()
    ensures bounded { (u : Units S) (p : Plan) (states : List S) (k : ℕ) → UnitsFit u → IsPlan p
        → All (Bounded (p.stop + 2000 * 10 ^ 12) (10 ^ 12) (2 ^ 29)) (behind (network u p.stop) k (opening_of p states)).buses }
    ensures by { (u : Units S) (p : Plan) (states : List S) (k : ℕ) → UnitsFit u → SetsWithin (2 ^ 62) u → IsPlan p
        → AllBy (2 ^ 63) (behind (network u p.stop) k (opening_of p states)) }
{}

/// In every state of a run the identifiers in notices and in mail are below 2^29, and a running frame has a number
/// that was given out.
pub fn identifiers_stay_low<S>()
    ensures below { (u : Units S) (p : Plan) (states : List S) (k : ℕ) → UnitsFit u → IsPlan p
        → All (HeldBelow (2 ^ 29)) (behind (network u p.stop) k (opening_of p states)).buses }
{}

/// The first event of a plan's network is Sessions at 0, behind which no node is new, and none becomes new again. So in
/// every state of a run either no event has happened, and the network is as it opened, or no node is new.
pub fn nodes_are_new_at_first<S>()
    ensures first { (p : Plan) (states : List S) (stop : ℕ) (e : Event) → next_event stop (opening_of p states) ≡ Some e
        → e ≡ at Sessions 0 }
    ensures begins { (u : Units S) (p : Plan) (states : List S) (stop : ℕ) (e : Event) → next_event stop (opening_of p states) ≡ Some e
        → HasBegun (world_behind u (opening_of p states) e) }
    ensures stays { (u : Units S) (w : World S) (e : Event) → HasBegun w → HasBegun (world_behind u w e) }
    ensures along { (u : Units S) (p : Plan) (states : List S) (stop k : ℕ)
        → IsNewAtFirst p states (behind (network u stop) k (opening_of p states)) }
{}

/// In every state of a run the buses are those of the plan with its nodes on them, and the nodes have their numbers
/// and buses.
pub fn the_plan_stays<S>()
    ensures along { (u : Units S) (p : Plan) (states : List S) (stop k : ℕ)
        → IsAsPlanned p states (behind (network u stop) k (opening_of p states)) }
{}

/// In every state of a run a live node has a clock for each countdown clock of its description.
pub fn each_clock_stays<S>()
    ensures units { (answer : S → Call → Reply × S) (phase_of : S → Phase) (p : Plan)
        → ChangesEach (clocks_in p) (units_of answer phase_of p) }
    ensures along { (u : Units S) (p : Plan) (states : List S) (stop k : ℕ) → ChangesEach (clocks_in p) u
        → All (λ n. HasClocks (clocks_in p n.number) n.standing) (behind (network u stop) k (opening_of p states)).nodes }
{}

/// A network is within its bounds as its plan opens it. Each event that the budget allows leaves it so, whatever the
/// units' states are told to be behind it, and so does each run that the budget allows.
pub fn what_is_within_goes_on_so<S>()
    ensures opens { (p : Plan) (states : List S) → IsPlan p → IsWithin p states (opening_of p states) }
    ensures step { (u : Units S) (p : Plan) (states after : List S) (w : World S) (e : Event) → UnitsFit u → SetsWithin (2 ^ 62) u → IsPlan p
        → IsAsPlanned p states w → w.events < p.events → next_event p.stop w ≡ Some e → IsWithin p states w
        → IsWithin p after (world_behind u w e) }
    ensures along { (u : Units S) (p : Plan) (states : List S) (k : ℕ) → UnitsFit u → SetsWithin (2 ^ 62) u → IsPlan p → k ≤ p.events
        → IsWithin p states (behind (network u p.stop) k (opening_of p states)) }
{}
