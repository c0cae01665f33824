//! Laws of every play of a file and of its bus: each is the contract of a function with an empty body.
#![tactic(auto)]

ghost use Rattle.std.specs.Prelude.{◌≡◌, ◌≤◌, ◌⊎◌, ℕ, ◌+◌, ◌-◌, ◌*◌, true, false, List, [], ◌∷◌, Contains, Ok, Some, None, is_some, option_map};
ghost use Rattle.bus_specs.specs.Bus.{Bus, Member, Running, Fault, Hurt, off, passive};
ghost use Rattle.bus_specs.specs.Start.{start, listeners};
ghost use Rattle.bus_specs.specs.Finish.{finish};
ghost use Rattle.bus_specs.specs.Due.{Due, next_due, at, Start, Return};
ghost use Rattle.bus_specs.specs.Sound.{Sound, on};
ghost use Rattle.play_specs.specs.Scenario.{Scenario, scenario_lines, scenario_status};
ghost use Rattle.play_specs.specs.Play.{Play, IsPlay, scenario_of, setup_of, play_lines, play_status};
ghost use Rattle.play_specs.specs.PlayReading.{IsReadAs};
ghost use Rattle.log_laws.specs.Scenarios.{IsScenario};
ghost use Rattle.log_laws.specs.Moments.{ByMoment, MomentsNeverFall};
ghost use Rattle.log_laws.specs.Answers.{AnswersAll};
ghost use Rattle.log_laws.specs.Events.{EndTellsEvents};
ghost use Rattle.play_laws.specs.Ends.{TellsEvents, left_behind};
ghost use Rattle.play_laws.specs.Cases.{hurt_bus, failing_bus, returning_bus, first_frame};
ghost use Rattle.play_laws.specs.Steps.{Starts, Runs, Becomes, TakesPart, unacknowledged, span, idle_spans, Returns, OneMore, NextUpTo};

/// Every play is a scenario whose parts fit, so each law of the logs of scenarios holds of its log.
pub fn every_play_is_a_scenario_that_fits()
    ensures scenario { (p : Play) → IsPlay p → IsScenario (scenario_of p) }

    // What is asked stands by moment.
    ensures by_moment { (p : Play) → IsPlay p → ByMoment (scenario_of p) }

    // A nominal bit takes a tick at least.
    ensures tick { (p : Play) → IsPlay p → 1 ≤ (setup_of p).nominal }
{}

/// Of every file that is read as a play, with any budget of events.
pub fn every_file_of_a_play_runs_by_the_laws()
    // The moments of its log never fall.
    ensures later { (bytes : List ℕ) (p : Play) (budget : ℕ) → IsReadAs bytes (Ok p) → MomentsNeverFall (play_lines budget p) }

    // Where its run ends with status 0, its log answers each action up to the stop, in order, and nothing else.
    ensures answered { (bytes : List ℕ) (p : Play) (budget : ℕ) → IsReadAs bytes (Ok p) → play_status budget p ≡ 0
        → AnswersAll (scenario_of p) (play_lines budget p) }

    // The number in the end line is the number of the events before it.
    ensures events { (bytes : List ℕ) (p : Play) (budget : ℕ) → IsReadAs bytes (Ok p) → EndTellsEvents (play_lines budget p) }
{}

/// The status is 8 exactly where an event is left up to the stop behind the budget, else it is 0.
pub fn the_status_tells_what_is_left()
    ensures spent { (budget : ℕ) (p : Scenario) (d : Due) → left_behind budget p ≡ Some d → (scenario_status budget p ≡ 8) × (d.moment ≤ p.stop) }
    ensures done { (budget : ℕ) (p : Scenario) → left_behind budget p ≡ None → scenario_status budget p ≡ 0 }

    // With status 8 one event more happens where the budget is larger by one, with status 0 none.
    ensures one_more { (budget : ℕ) (p : Scenario) → scenario_status budget p ≡ 8 → TellsEvents (budget + 1) (scenario_lines (budget + 1) p) }
    ensures no_more { (budget : ℕ) (p : Scenario) → scenario_status budget p ≡ 0 → scenario_lines (budget + 1) p ≡ scenario_lines budget p }
{}

/// A node that is off, asleep or not live takes no part in a frame that starts.
pub fn only_able_nodes_take_part()
    ensures sender { (b : Bus) (since now : ℕ) (r : Running) (m : Member) → Starts b since now r → Contains b.members m → m.node ≡ r.sender
        → TakesPart m }
    ensures listener { (b : Bus) (since now : ℕ) (r : Running) (m : Member) → Starts b since now r → Contains b.members m
        → Contains r.listeners m.node → TakesPart m }
{}

/// A failed attempt is detected by its sender or by a listener that is not passive (ISO 11898-1, fault confinement).
pub fn each_failure_is_detected_by_its_own()
    ensures detected { (b : Bus) (since now : ℕ) (r : Running) (e : Fault) → Starts b since now r → r.fault ≡ Some e
        → (e.by ≡ r.sender) ⊎ Contains r.listeners e.by }

    // It is a node of the bus that is not off.
    ensures able { (b : Bus) (since now : ℕ) (r : Running) (e : Fault) → Starts b since now r → r.fault ≡ Some e → on b.members e.by ≡ true }

    // A passive node never makes the attempt of another fail.
    ensures passive { (b : Bus) (since now : ℕ) (r : Running) (e : Fault) (m : Member) → Starts b since now r → r.fault ≡ Some e
        → Contains b.members m → m.node ≡ e.by → passive m ≡ true → e.by ≡ r.sender }

    // An attempt that nobody hears fails.
    ensures unheard { (b : Bus) (since now : ℕ) (r : Running) → Starts b since now r → r.listeners ≡ [] → is_some r.fault ≡ true }

    // Where the only listener is hurt the sender finds no acknowledgement; where another one hears it nothing fails.
    ensures alone { (b : Bus) (since now : ℕ) (r : Running) (x : Hurt) → Starts b since now r → r.hurt ≡ Some x
        → listeners b r.sender ≡ x.node ∷ [] → r.fault ≡ Some (unacknowledged r.sender) }
    ensures heard { (b : Bus) (since now : ℕ) (r : Running) (x : Hurt) (node : ℕ) → Starts b since now r → r.hurt ≡ Some x
        → Contains (listeners b r.sender) node → (node ≡ x.node → ⊥) → r.fault ≡ None }
{}

/// A node that is off returns when it has seen 128 occurrences of 11 recessive bits: one behind each frame, and the whole spans of
/// 11 bits while the bus is idle (ISO 11898-1, bus-off recovery).
pub fn an_off_node_returns_after_128_occurrences()
    // At the end of a frame a node that was off has one more, and keeps its counters.
    ensures one_more { (b : Bus) (now : ℕ) (r : Running) (m m' : Member) → Runs b r → Becomes b (finish b now).0 m m' → off m ≡ true → OneMore m m' }

    // One that goes off has none.
    ensures goes_off { (b : Bus) (now : ℕ) (r : Running) (m m' : Member) → Runs b r → Becomes b (finish b now).0 m m'
        → off m ≡ false → off m' ≡ true → m'.occurrences ≡ Some 0 }

    // At a start the idle spans are added.
    ensures idle { (b : Bus) (since now : ℕ) (r : Running) (m m' : Member) (seen : ℕ) → Starts b since now r → Becomes b (start b now).0 m m'
        → m.occurrences ≡ Some seen → m'.occurrences ≡ Some (seen + idle_spans b now) }

    // A return that is due is one where 128 are reached, on a bus with no frame.
    ensures due { (b : Bus) (since t node : ℕ) → Sound b → next_due b since ≡ Some (at (Return node) t) → Returns b node t }

    // While no frame runs nothing that is due comes after such a return, so none is put off.
    ensures prompt { (b : Bus) (since seen : ℕ) (m : Member) → b.running ≡ None → Contains b.members m → m.occurrences ≡ Some seen
        → NextUpTo b since (b.idle + (128 - seen) * span b) }
{}

/// There are buses of which the laws of attempts and of recovery say something.
pub fn the_laws_have_cases()
    // A passive listener alone is hurt.
    ensures hurt { (Starts hurt_bus 0 0 (first_frame hurt_bus)) × (is_some (first_frame hurt_bus).hurt ≡ true) × (listeners hurt_bus 0 ≡ 1 ∷ []) }

    // An active listener makes the attempt of another fail.
    ensures fails { (Starts failing_bus 0 0 (first_frame failing_bus)) × (option_map (λ e. e.by) (first_frame failing_bus).fault ≡ Some 1) }

    // A node returns.
    ensures returns { (Sound returning_bus) × (next_due returning_bus 0 ≡ Some (at (Return 2) 11000)) }
{}
