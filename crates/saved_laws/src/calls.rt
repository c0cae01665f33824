//! What sessions keep of a guest.

ghost use Rattle.std.specs.Prelude.{All, List};
ghost use Rattle.binding_specs.specs.Guests.{Guest};
ghost use Rattle.binding_specs.specs.Answers.{answer};
ghost use Rattle.world_specs.specs.Plan.{Plan, units_of};
ghost use Rattle.guest_laws.specs.Words.{Begins};
ghost use Rattle.saved_laws.specs.Words.{KeepsSuited};

/// Each session of a guest whose store suits its code leaves one that suits it where the guest goes on.
pub fn sessions_leave_guests_suited()
    ensures suited { (p : Plan) (guests : List Guest) → All Begins guests → KeepsSuited guests (units_of answer (λ g. g.phase) p) }
{}
