//! Laws of every run of anything that goes on from event to event: each is the contract of a function with an
//! empty body.
#![tactic(auto)]

ghost use Rattle.std.specs.Prelude.{◌≡◌, ℕ, ◌+◌, ◌++◌};
ghost use Rattle.run_specs.specs.Run.{Machine, behind, head, log};

/// The state behind so many events, and then so many more, is that behind all of them.
pub fn a_state_behind_events<S, L>()
    ensures { (m : Machine S L) (j k : ℕ) (s : S) → behind m (j + k) s ≡ behind m k (behind m j s) }
{}

/// The lines of so many events, and then of so many more, are those of all of them.
pub fn heads_join<S, L>()
    ensures { (m : Machine S L) (j k : ℕ) (s : S) → head m (j + k) s ≡ head m j s ++ head m k (behind m j s) }
{}

/// Wherever a run is cut, its log is the lines up to there and the log of the rest.
pub fn a_log_is_a_head_and_the_rest<S, L>()
    ensures { (m : Machine S L) (j k : ℕ) (s : S) → log m (j + k) s ≡ head m j s ++ log m k (behind m j s) }
{}
