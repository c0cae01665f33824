//! What holds of a network of guests in every state of a run.

ghost use Rattle.std.specs.Prelude.{◌≡◌, ◌≤◌, ◌^◌, ℕ, All, List, length};
ghost use Rattle.run_specs.specs.Run.{behind};
ghost use Rattle.wasm_types.specs.Modules.{NestedModule};
ghost use Rattle.binding_specs.specs.Guests.{Guest};
ghost use Rattle.binding_specs.specs.Answers.{answer};
ghost use Rattle.world_specs.specs.Units.{Units};
ghost use Rattle.world_specs.specs.Network.{network};
ghost use Rattle.world_specs.specs.Plan.{Plan, IsPlan, opening_of, units_of};
ghost use Rattle.world_specs.specs.Fits.{UnitsFit};
ghost use Rattle.world_laws.specs.Cases.{two_buses};
ghost use Rattle.network_specs.specs.Networks.{Network};
ghost use Rattle.ideal_specs.specs.Ideal.{guests_from, guest_units, ideal_world};
ghost use Rattle.state_laws.specs.Words.{SetsWithin, ChangesEach, clocks_in};
ghost use Rattle.saved_specs.specs.Fit.{AreSuited, Fit};
ghost use Rattle.saved_laws.specs.Cases.{two_guests};
ghost use Rattle.guest_laws.specs.Words.{Begins};
ghost use Rattle.saved_laws.specs.Words.{IsAccepted, KeepsSuited};

/// Guests stay suited along a run, if each session leaves them so.
pub fn guests_stay_suited()
    ensures along { (u : Units Guest) (p : Plan) (guests : List Guest) (stop k : ℕ) → KeepsSuited guests u → length guests ≡ length p.nodes
        → AreSuited guests (behind (network u stop) k (opening_of p guests)).nodes }
{}

/// In every state of a run that its budget allows the network fits its plan, if each node's guest suits its code.
pub fn each_state_fits()
    ensures fits { (u : Units Guest) (p : Plan) (guests : List Guest) (k : ℕ) → UnitsFit u → SetsWithin (2 ^ 62) u
        → ChangesEach (clocks_in p) u → IsPlan p → length guests ≡ length p.nodes → k ≤ p.events
        → AreSuited guests (behind (network u p.stop) k (opening_of p guests)).nodes
        → Fit p guests (behind (network u p.stop) k (opening_of p guests)) }

    // So it is where each session leaves a guest that suits its code.
    ensures along { (u : Units Guest) (p : Plan) (guests : List Guest) (k : ℕ) → UnitsFit u → SetsWithin (2 ^ 62) u
        → ChangesEach (clocks_in p) u → KeepsSuited guests u → IsPlan p → length guests ≡ length p.nodes → k ≤ p.events
        → Fit p guests (behind (network u p.stop) k (opening_of p guests)) }
{}

/// In every state of a run of guests that its budget allows the network fits its plan.
pub fn each_state_of_guests_fits()
    ensures fits { (p : Plan) (guests : List Guest) (k : ℕ) → IsPlan p → length guests ≡ length p.nodes → All Begins guests → k ≤ p.events
        → Fit p guests (behind (network (units_of answer (λ g. g.phase) p) p.stop) k (opening_of p guests)) }
{}

/// So it is of the ideal world of a network whose modules were accepted.
pub fn each_state_of_a_network_fits()
    ensures fits { (n : Network NestedModule) (k : ℕ) → IsPlan n.plan → length n.codes ≡ length n.plan.nodes → All IsAccepted n.codes
        → k ≤ n.plan.events
        → Fit n.plan (guests_from n.plan.fuel n.codes n.plan.nodes) (behind (network (guest_units n.plan) n.plan.stop) k (ideal_world n)) }
{}

/// A network fits as it opens.
pub fn what_opens_fits()
    ensures fits { (p : Plan) (guests : List Guest) → IsPlan p → length guests ≡ length p.nodes → Fit p guests (opening_of p guests) }
{}

/// There are such networks, so there are states that fit.
pub fn the_laws_have_cases()
    ensures fits { (k : ℕ) → k ≤ two_buses.events → Fit two_buses two_guests
        (behind (network (units_of answer (λ g. g.phase) two_buses) two_buses.stop) k (opening_of two_buses two_guests)) }
{}
