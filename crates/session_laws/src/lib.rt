//! Laws of the sessions of every unit: each is the contract of a function with an empty body.
#![tactic(auto)]

ghost use Rattle.std.specs.Prelude.{◌≡◌, ◌≤◌, ◌+◌, ◌*◌, ◌↔◌, ℕ, Bool, [], length, true};
ghost use Rattle.std.specs.List.{AllByRecursion};
ghost use Rattle.fmi_states.specs.declared.phase.Phase.TheVariants.{Step};
ghost use Rattle.fmi_states.specs.declared.reply.Reply.TheVariants.{Updated};
ghost use Rattle.fmi_states.specs.declared.status.FmiStatus.{FmiStatus};
ghost use Rattle.unit_specs.specs.Description.{Description};
ghost use Rattle.log_specs.specs.Line.{Cause, Loop};
ghost use Rattle.session_specs.specs.Outcome.{SessionIn, Live, Over, Down};
ghost use Rattle.session_specs.specs.Replies.{wish_of, TheEnd};
ghost use Rattle.session_specs.specs.Session.{session_of, close_of, can_begin, is_sublist, all_kept, phase_behind};
ghost use Rattle.session_specs.specs.Exchanges.{noted_at, noting, session_calls, close_calls, IsRun};
ghost use Rattle.session_laws.specs.Laws.{again_of, ends_of, EndsByFaults, IsAhead};

use fmi_states::Ecu;

/// Noting the calls changes neither what comes of a session nor the state behind it.
pub fn noting_changes_nothing<E: Ecu>()
    ensures { (d : Description) (input : SessionIn) (s : E.State) → can_begin (E.phase_of s) ≡ true
        → session_of E.answer E.phase_of d input s
        ≡ (
          (session_of (noting E.answer) (λ n. E.phase_of n.state) d input (noted_at s [])).0,
          (session_of (noting E.answer) (λ n. E.phase_of n.state) d input (noted_at s [])).1.state,
        ) }
{}

/// The calls of a session lead from the old state to the new one: each is permitted in the phase
/// that it finds, and answered as the unit answers.
pub fn each_call_is_permitted<E: Ecu>()
    ensures { (d : Description) (input : SessionIn) (s : E.State) → can_begin (E.phase_of s) ≡ true
        → IsRun E.answer E.phase_of s (session_calls E.answer E.phase_of d input s)
        (session_of E.answer E.phase_of d input s).1 }
{}

/// A session makes few calls: with at most 8 countdown clocks 37, and 34 for each terminal.
pub fn calls_are_few<E: Ecu>()
    ensures { (d : Description) (input : SessionIn) (s : E.State) → can_begin (E.phase_of s) ≡ true
        → is_sublist input.ticked d.countdown ≡ true → length d.countdown ≤ 8
        → length (session_calls E.answer E.phase_of d input s) ≤ 37 + 34 * length d.terminals }
{}

/// A unit is down for Loop exactly where 16 updates of its session each asked for another one,
/// and none of these for the end.
pub fn loop_is_behind_sixteen<E: Ecu>()
    ensures { (d : Description) (input : SessionIn) (s : E.State) → can_begin (E.phase_of s) ≡ true
        → ((session_of E.answer E.phase_of d input s).0.end ≡ Down Loop)
        ↔ (again_of (session_calls E.answer E.phase_of d input s) ≡ 16) }
{}

/// The wish to end the simulation comes before the wish for another update: a session is over only where one update
/// asked for the end, and goes on only where none did, whatever these said of another update.
pub fn the_wish_to_end_comes_first<E: Ecu>()
    ensures wish { (status : FmiStatus) (another_update : Bool) → wish_of (Updated status another_update true) ≡ TheEnd }
    ensures over { (d : Description) (input : SessionIn) (s : E.State) → can_begin (E.phase_of s) ≡ true
        → (session_of E.answer E.phase_of d input s).0.end ≡ Over → ends_of (session_calls E.answer E.phase_of d input s) ≡ 1 }
    ensures live { (d : Description) (input : SessionIn) (s : E.State) → can_begin (E.phase_of s) ≡ true
        → (session_of E.answer E.phase_of d input s).0.end ≡ Live → ends_of (session_calls E.answer E.phase_of d input s) ≡ 0 }
{}

/// Behind Discard or Error only Free follows, and nothing where that was the reply to Instantiate or Free.
/// Behind Fatal nothing follows, and nothing where the unit broke.
pub fn faults_end_the_calls<E: Ecu>()
    ensures session { (d : Description) (input : SessionIn) (s : E.State) → can_begin (E.phase_of s) ≡ true
        → EndsByFaults (session_calls E.answer E.phase_of d input s) }
    ensures close { (s : E.State) → E.phase_of s ≡ Step → EndsByFaults (close_calls E.answer s) }
{}

/// A session that takes the unit down emits nothing and changes no clock.
pub fn down_is_silent<E: Ecu>()
    ensures { (d : Description) (input : SessionIn) (s : E.State) (why : Cause)
        → (session_of E.answer E.phase_of d input s).0.end ≡ Down why
        → ((session_of E.answer E.phase_of d input s).0.emitted ≡ []) × ((session_of E.answer E.phase_of d input s).0.dues ≡ all_kept d.countdown) }
{}

/// A session has one change for each countdown clock.
/// One that is set is due behind the moment of the session, by 2^62 ticks at most.
pub fn clocks_are_set_ahead<E: Ecu>()
    ensures each { (d : Description) (input : SessionIn) (s : E.State)
        → length (session_of E.answer E.phase_of d input s).0.dues ≡ length d.countdown }
    ensures ahead { (d : Description) (input : SessionIn) (s : E.State)
        → AllByRecursion (IsAhead input.moment) (session_of E.answer E.phase_of d input s).0.dues }
{}

/// The end says in which phase a session leaves the unit: one that goes on is in Step Mode,
/// one with a fault is gone, freed where it could be.
pub fn the_end_tells_the_phase<E: Ecu>()
    ensures session { (d : Description) (input : SessionIn) (s : E.State) → can_begin (E.phase_of s) ≡ true
        → E.phase_of (session_of E.answer E.phase_of d input s).1
        ≡ phase_behind (session_of E.answer E.phase_of d input s).0.end }
    ensures close { (s : E.State) → E.phase_of s ≡ Step
        → E.phase_of (close_of E.answer s).1 ≡ phase_behind (close_of E.answer s).0 }
{}

/// A close makes at most three calls, each permitted.
pub fn a_close_is_short<E: Ecu>()
    ensures run { (s : E.State) → E.phase_of s ≡ Step → IsRun E.answer E.phase_of s (close_calls E.answer s) (close_of E.answer s).1 }
    ensures few { (s : E.State) → E.phase_of s ≡ Step → length (close_calls E.answer s) ≤ 3 }
{}
