//! Each step of a bus keeps it sound: each law is the contract of a function with an empty body.
#![tactic(auto)]

ghost use Rattle.std.specs.Prelude.{◌≡◌, ◌≤◌, ◌==◌, ℕ, true, false, List, Contains, Some, IfSome, is_some, length, filter};
ghost use Rattle.operation_specs.specs.Reading.{Item, IsWhole};
ghost use Rattle.bus_specs.specs.Bus.{Setup, Bus, Member, Request, Running, Hurt, new_bus, member_is, off, offer, offers, winner};
ghost use Rattle.bus_specs.specs.Submit.{Submission, submit, submission_of};
ghost use Rattle.bus_specs.specs.Inbox.{enter, leave, inbox, take_inbox};
ghost use Rattle.bus_specs.specs.Start.{start};
ghost use Rattle.bus_specs.specs.Finish.{finish, recover};
ghost use Rattle.bus_specs.specs.Due.{Due, dues, next_due, precedes, at, Start};
ghost use Rattle.frame_specs.specs.Dominance.{beats};
ghost use Rattle.run_specs.specs.Order.{IsForemost};
ghost use Rattle.bus_specs.specs.InTime.{InTime};
ghost use Rattle.bus_sound.specs.Counts.{Rises};
ghost use Rattle.bus_specs.specs.Sound.{Sound, IsSetup, IsSubmission, Rise};

/// A bus is sound when it is opened, and each step keeps it so.
pub fn each_step_keeps_a_bus_sound()
    ensures new_bus { (s : Setup) (nodes : List ℕ) (last : ℕ) → IsSetup s → Rise 0 nodes last → Sound (new_bus s nodes) }
    ensures enter { (b : Bus) (node : ℕ) → Sound b → Sound (enter b node) }
    ensures leave { (b : Bus) (node : ℕ) → Sound b → Sound (leave b node) }
    ensures take_inbox { (b : Bus) (now node : ℕ) → Sound b → Sound (take_inbox b now node).0 }
    ensures finish { (b : Bus) (now : ℕ) → Sound b → Sound (finish b now).0 }
    ensures recover { (b : Bus) (now node : ℕ) → Sound b → Sound (recover b now node).0 }

    // A start where it is due, since the last event.
    ensures start { (b : Bus) (since now : ℕ) → Sound b → next_due b since ≡ Some (at Start now) → Sound (start b now).0 }

    // A submission that fits, of a live member.
    ensures submit { (b : Bus) (now node : ℕ) (what : Submission) → Sound b → IsSubmission b.setup what
        → member_is (λ m. m.live) b.members node ≡ true → Sound (submit b now node what).0 }

    // What an item asks fits.
    ensures submission_of { (s : Setup) (item : Item) → IsWhole item → IsSubmission s (submission_of s item) }
{}

/// Where a start is due, a frame wins.
pub fn each_due_start_has_a_winner()
    ensures wins { (b : Bus) (since now : ℕ) → next_due b since ≡ Some (at Start now) → is_some (winner b now) ≡ true }
{}

/// What a caller learns from a sound bus.
pub fn what_a_sound_bus_tells()
    // While a frame runs, its sender, its listeners and its hurt node are not off.
    ensures sender { (b : Bus) (r : Running) (m : Member) → Sound b → b.running ≡ Some r → Contains b.members m
        → m.node ≡ r.sender → off m ≡ false }
    ensures listener { (b : Bus) (r : Running) (m : Member) → Sound b → b.running ≡ Some r → Contains b.members m
        → Contains r.listeners m.node → off m ≡ false }
    ensures hurt { (b : Bus) (r : Running) (x : Hurt) (m : Member) → Sound b → b.running ≡ Some r → r.hurt ≡ Some x
        → Contains b.members m → m.node ≡ x.node → off m ≡ false }

    // No transmit error counter is over 263.
    ensures tec { (b : Bus) (m : Member) → Sound b → Contains b.members m → m.counters.tec ≤ 263 }

    // What waits is of a node that is live and not off.
    ensures waits { (b : Bus) (q : Request) (m : Member) → Sound b → Contains b.requests q → Contains b.members m
        → m.node ≡ q.node → (m.live ≡ true) × (off m ≡ false) }
{}

/// What a node takes at its turn is short: 81 bytes of mail, 12 of a lost notice, 74 of a format notice, 8 of a wake notice.
pub fn each_inbox_is_short()
    ensures short { (b : Bus) (now node : ℕ) → Sound b → length (inbox b now node) ≤ 175 }
{}

/// What a bus still has to do is never past: so moments never fall.
pub fn nothing_due_is_past()
    ensures new_bus { (s : Setup) (nodes : List ℕ) → InTime 0 (new_bus s nodes) }
    ensures enter { (now : ℕ) (b : Bus) (node : ℕ) → InTime now b → InTime now (enter b node) }
    ensures leave { (now : ℕ) (b : Bus) (node : ℕ) → InTime now b → InTime now (leave b node) }
    ensures submit { (now : ℕ) (b : Bus) (node : ℕ) (what : Submission) → InTime now b → InTime now (submit b now node what).0 }
    ensures take_inbox { (now : ℕ) (b : Bus) (node : ℕ) → InTime now b → InTime now (take_inbox b now node).0 }
    ensures start { (now : ℕ) (b : Bus) → InTime now b → InTime now (start b now).0 }
    ensures finish { (now : ℕ) (b : Bus) → InTime now b → InTime now (finish b now).0 }
    ensures recover { (now : ℕ) (b : Bus) (node : ℕ) → InTime now b → InTime now (recover b now node).0 }
    ensures next { (now : ℕ) (b : Bus) (d : Due) → InTime now b → next_due b now ≡ Some d → now ≤ d.moment }

    // Time may go on up to what the bus does next.
    ensures later { (b : Bus) (now t : ℕ) → IfSome (next_due b now) (λ d. t ≤ d.moment) → InTime t b }
{}

/// The winner is the foremost offer, each offer the foremost request of its node, and what a bus does next the foremost due.
pub fn the_foremost_goes_first()
    ensures winner { (b : Bus) (now : ℕ) (w : Request) → winner b now ≡ Some w
        → IsForemost (λ q r. beats q.frame r.frame) (offers b now) w }
    ensures offer { (rs : List Request) (node : ℕ) (q : Request) → offer rs node ≡ Some q
        → IsForemost (λ q r. beats q.frame r.frame) (filter (λ r. r.node == node) rs) q }
    ensures next { (b : Bus) (now : ℕ) (d : Due) → next_due b now ≡ Some d → IsForemost precedes (dues b now b.running) d }
{}

/// At most one request number is given out by a submission, and at most one attempt is counted by a start.
pub fn counts_rise_by_one_at_most()
    ensures submit { (b : Bus) (now node : ℕ) (what : Submission) → Rises b (submit b now node what).0 1 0 }
    ensures start { (b : Bus) (now : ℕ) → Rises b (start b now).0 0 1 }
    ensures finish { (b : Bus) (now : ℕ) → Rises b (finish b now).0 0 0 }
{}
