//! Laws of whole logs: each is the contract of a function with an empty body, and holds of the log of
//! every scenario with any budget of events. What a law says of a line it says by what a reader knows
//! from the lines before it.
#![tactic(auto)]

ghost use Rattle.std.specs.Prelude.{◌≡◌, ◌≤◌, ℕ};
ghost use Rattle.play_specs.specs.Scenario.{Scenario, scenario_lines, scenario_status};
ghost use Rattle.log_laws.specs.Scenarios.{IsScenario};
ghost use Rattle.log_laws.specs.Starts.{StartsAreForemost, StartersTakePart, StartsWhereFree, StartsArePrompt};
ghost use Rattle.log_laws.specs.Deliveries.{DeliveriesReachListeners, FailuresAreOfTheFrame};
ghost use Rattle.log_laws.specs.Losers.{LosersAreTold, LossesStandBehindStarts, DiscardedFramesWait};
ghost use Rattle.log_laws.specs.Queues.{RequestsFit};
ghost use Rattle.log_laws.specs.Accounts.{NothingIsForgotten};
ghost use Rattle.log_laws.specs.Moments.{ByMoment, MomentsNeverFall, LinesAreOf, EndsWith, GoesOn, NothingIsLeft};
ghost use Rattle.log_laws.specs.Answers.{AnswersAll};
ghost use Rattle.log_laws.specs.Events.{EndTellsEvents};
ghost use Rattle.log_laws.specs.KindOrder.{KindsInOrder};
ghost use Rattle.log_laws.specs.WrongLogs as wrong;

/// A start is of the frame that wins among what waits of the nodes able to start: those that are awake
/// and not off, after the intermission, a passive last sender 8 bits later.
pub fn each_start_is_of_the_foremost()
    // None that waits beats it. Of frames that arbitrate alike it is of the lowest node, and of this
    // node's the first that was requested.
    ensures foremost { (budget : ℕ) (p : Scenario) → IsScenario p → StartsAreForemost p.setup p.nodes (scenario_lines budget p) }

    // A node that is asleep or off never starts.
    ensures takes_part { (budget : ℕ) (p : Scenario) → IsScenario p → StartersTakePart p.setup p.nodes (scenario_lines budget p) }

    // No frame runs, and the last one ended three bits ago or earlier.
    ensures free { (budget : ℕ) (p : Scenario) → IsScenario p → StartsWhereFree p.setup p.nodes (scenario_lines budget p) }

    // It is not put off: from the last line on nothing that waits could have started earlier.
    ensures prompt { (budget : ℕ) (p : Scenario) → IsScenario p → StartsArePrompt p.setup p.nodes (scenario_lines budget p) }
{}

/// A frame ends as the one on the wire: delivered to the nodes that listened at its start less the one
/// that was hurt and those asleep at the end, so to none that is asleep or off; or failed.
pub fn each_frame_reaches_its_listeners()
    ensures delivered { (budget : ℕ) (p : Scenario) → IsScenario p → DeliveriesReachListeners p.setup p.nodes (scenario_lines budget p) }
    ensures failed { (budget : ℕ) (p : Scenario) → IsScenario p → FailuresAreOfTheFrame p.setup p.nodes (scenario_lines budget p) }
{}

/// At a start every other node that is able and has something waiting loses with the foremost of it,
/// which is kept or discarded as the node configured.
pub fn each_loser_is_told()
    // Directly behind the start stand the lines of these nodes, in their order, and no other line of a loser.
    ensures losers { (budget : ℕ) (p : Scenario) → IsScenario p → LosersAreTold p.setup p.nodes (scenario_lines budget p) }

    // No line of a loser stands elsewhere.
    ensures behind { (budget : ℕ) (p : Scenario) → IsScenario p → LossesStandBehindStarts (scenario_lines budget p) }

    // What is discarded waits.
    ensures waits { (budget : ℕ) (p : Scenario) → IsScenario p → DiscardedFramesWait p.setup p.nodes (scenario_lines budget p) }
{}

/// A request is accepted where fewer than 256 frames of its node wait, full where 256 do, and dropped
/// where its node is off. So no node ever has more than 256.
pub fn each_request_finds_its_fate()
    ensures fits { (budget : ℕ) (p : Scenario) → IsScenario p → RequestsFit p.setup p.nodes (scenario_lines budget p) }
{}

/// Nothing that was accepted is forgotten: up to each line of a log, whichever frames of which nodes
/// are meant, those accepted are as many as those delivered, discarded, fallen with their node when it
/// went off, and still waiting.
pub fn nothing_accepted_is_forgotten()
    ensures balance { (budget : ℕ) (p : Scenario) → IsScenario p → NothingIsForgotten p.setup p.nodes (scenario_lines budget p) }

    // Where a run ends with status 0 nothing is left: no frame could start up to the stop, or the one on
    // the wire ends after it.
    ensures left { (budget : ℕ) (p : Scenario) → IsScenario p → NothingIsLeft p (scenario_lines budget p) }
{}

/// Where what is asked stands by moment, the moments of a log never fall. Its lines are of its bus, and
/// none is after the stop.
pub fn moments_never_fall()
    ensures later { (budget : ℕ) (p : Scenario) → IsScenario p → ByMoment p → MomentsNeverFall (scenario_lines budget p) }
    ensures own { (budget : ℕ) (p : Scenario) → IsScenario p → LinesAreOf p (scenario_lines budget p) }

    // At one moment a frame ends, nodes return, lines of nodes come, a frame starts, in this order.
    ensures kinds { (budget : ℕ) (p : Scenario) → IsScenario p → 1 ≤ p.setup.nominal → KindsInOrder (scenario_lines budget p) }
{}

/// The last line of a log, and no other, tells the status and the number of events. The status is 8
/// only where the budget is spent. A larger budget goes on where a smaller one ends, and with status 0
/// changes nothing.
pub fn each_log_ends_with_its_status()
    ensures ends { (budget : ℕ) (p : Scenario) → IsScenario p → EndsWith (scenario_status budget p) budget (scenario_lines budget p) }
    ensures goes_on { (budget more : ℕ) (p : Scenario) → GoesOn budget more p }

    // Where a bit takes a tick at least, the number is that of starts, ends, returns and moments with
    // lines of nodes.
    ensures events { (budget : ℕ) (p : Scenario) → IsScenario p → ByMoment p → 1 ≤ p.setup.nominal → EndTellsEvents (scenario_lines budget p) }
{}

/// Where a run ends with status 0, its log answers each action up to the stop, in their order, and
/// nothing else: none is lost, and none is made up.
pub fn each_action_is_answered()
    ensures answered { (budget : ℕ) (p : Scenario) → IsScenario p → ByMoment p → scenario_status budget p ≡ 0
        → AnswersAll p (scenario_lines budget p) }
{}

/// Logs that are wrong in one thing are refused, each by the law that it breaks.
pub fn wrong_logs_are_refused()
    ensures latest_of_equals { StartsAreForemost wrong.plain wrong.nodes wrong.latest_of_equals → ⊥ }
    ensures beaten_winner { StartsAreForemost wrong.plain wrong.nodes wrong.beaten_winner → ⊥ }
    ensures higher_node { StartsAreForemost wrong.plain wrong.nodes wrong.higher_node → ⊥ }
    ensures sleeping_sender { StartersTakePart wrong.plain wrong.nodes wrong.sleeping_sender → ⊥ }
    ensures early_start { StartsWhereFree wrong.plain wrong.nodes wrong.early_start → ⊥ }
    ensures sleeping_receiver { DeliveriesReachListeners wrong.plain wrong.nodes wrong.sleeping_receiver → ⊥ }
    ensures hurt_receiver { DeliveriesReachListeners wrong.plain wrong.nodes wrong.hurt_receiver → ⊥ }
    ensures missed_receiver { DeliveriesReachListeners wrong.plain wrong.nodes wrong.missed_receiver → ⊥ }
    ensures delivered_twice { DeliveriesReachListeners wrong.plain wrong.nodes wrong.delivered_twice → ⊥ }
    ensures silent_loser { LosersAreTold wrong.plain wrong.nodes wrong.silent_loser → ⊥ }
    ensures kept_for_discard { LosersAreTold wrong.plain wrong.nodes wrong.kept_for_discard → ⊥ }
    ensures loser_of_nothing { LossesStandBehindStarts wrong.loser_of_nothing → ⊥ }
    ensures accepted_off { RequestsFit wrong.plain wrong.nodes wrong.accepted_off → ⊥ }
    ensures full_too_soon { RequestsFit wrong.plain wrong.nodes wrong.full_too_soon → ⊥ }
    ensures late_end { DeliveriesReachListeners wrong.plain wrong.nodes wrong.late_end → ⊥ }
    ensures late_start { StartsArePrompt wrong.plain wrong.nodes wrong.late_start → ⊥ }
    ensures falling_moment { MomentsNeverFall wrong.falling_moment → ⊥ }
    ensures failed_other { FailuresAreOfTheFrame wrong.plain wrong.nodes wrong.failed_other → ⊥ }
    ensures second_start { StartsWhereFree wrong.plain wrong.nodes wrong.second_start → ⊥ }
    ensures discarded_nothing { DiscardedFramesWait wrong.plain wrong.nodes wrong.discarded_nothing → ⊥ }
    ensures forgotten { NothingIsForgotten wrong.plain wrong.nodes wrong.delivered_twice → ⊥ }
    ensures after_stop { LinesAreOf wrong.empty wrong.after_stop → ⊥ }
    ensures wrong_end { EndsWith 8 1 wrong.wrong_end → ⊥ }
    ensures start_first { KindsInOrder wrong.start_first → ⊥ }
    ensures no_events { EndTellsEvents wrong.wrong_end → ⊥ }
    ensures unanswered { AnswersAll wrong.one_asks wrong.unanswered → ⊥ }
    ensures left_undone { NothingIsLeft wrong.empty wrong.left_undone → ⊥ }
{}
