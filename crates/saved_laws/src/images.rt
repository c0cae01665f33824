//! What is saved of a network tells it, and a run may be cut behind any event.

ghost use Rattle.std.specs.Prelude.{◌≡◌, ◌≤◌, ◌++◌, ℕ, List};
ghost use Rattle.wasm_types.specs.Modules.{NestedModule};
ghost use Rattle.network_images.specs.Images.{NetworkImage, network_image, network_from};
ghost use Rattle.network_specs.specs.Networks.{Network};
ghost use Rattle.world_specs.specs.World.{World};
ghost use Rattle.world_specs.specs.Plan.{Plan};
ghost use Rattle.world_specs.specs.Fits.{Fits};
ghost use Rattle.ideal_specs.specs.Ideal.{ideal_lines, ideal_status};
ghost use Rattle.state_laws.specs.Words.{IsAsPlanned};
ghost use Rattle.saved_laws.specs.Images.{AreOf, AreSaved, IsOfPlan};
ghost use Rattle.saved_laws.specs.Rests.{head_lines, rest_lines, rest_status, state_behind};

/// A network of a plan is made again from what is saved of it and the states of its units. Of a node that is down or
/// over any state does.
pub fn what_is_saved_of_a_network_is_made_again<S, U>()
    ensures again { (unit : S → U) (p : Plan) (states : List S) (w : World S) → Fits w → IsAsPlanned p states w → AreOf states w.nodes
        → network_from p states (network_image unit w) ≡ w }

    // So two networks of one plan of which the same is saved are the same, where their units are.
    ensures tells { (unit : S → U) (p : Plan) (states : List S) (w v : World S) → Fits w → Fits v → IsAsPlanned p states w
        → IsAsPlanned p states v → AreOf states w.nodes → AreOf states v.nodes → network_image unit w ≡ network_image unit v → w ≡ v }
{}

/// What a network is made from is what is saved of it, where there is an image for each bus and each node.
pub fn what_a_network_is_made_from_is_saved<S, U>()
    ensures image { (unit : S → U) (p : Plan) (states : List S) (i : NetworkImage U) → IsOfPlan p i → AreSaved unit states i.nodes
        → network_image unit (network_from p states i) ≡ i }
{}

/// Wherever the ideal run of a network is cut, up to its budget, its log is the lines up to there and those of the rest,
/// which is told by the state there. The status is that of the rest.
pub fn an_ideal_log_is_a_head_and_the_rest()
    ensures lines { (n : Network NestedModule) (k : ℕ) → k ≤ n.plan.events
        → ideal_lines n ≡ head_lines n k ++ rest_lines n (state_behind n k) }
    ensures status { (n : Network NestedModule) (k : ℕ) → k ≤ n.plan.events → ideal_status n ≡ rest_status n (state_behind n k) }
{}
