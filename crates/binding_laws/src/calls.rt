//! Laws of what calls cost, change and keep.
ghost use Rattle.std.specs.Prelude.{◌≡◌, ◌*◌, ◌≤◌, All, true, false, length, sum};
ghost use Rattle.fmi_states.specs.declared.status.FmiStatus.{FmiStatus};
ghost use Rattle.fmi_states.specs.declared.call.Call.{Call};
ghost use Rattle.fmi_states.specs.declared.call.Call.TheVariants.{Instantiate};
ghost use Rattle.fmi_states.specs.declared.reply.Reply.TheVariants.{Plain};
ghost use Rattle.binding_specs.specs.Guests.{Guest};
ghost use Rattle.binding_specs.specs.Exchanges.{is_fine};
ghost use Rattle.binding_specs.specs.Answers.{answer, used_by};
ghost use Rattle.binding_laws.specs.Words.{HasArea, is_instantiation, most_functions};

/// No function that a call runs uses more than the whole budget, whatever the others use. An instantiation runs three at
/// most, and any other call one.
pub fn each_function_has_a_budget_of_its_own()
    ensures each { (g : Guest) (c : Call) → All (λ n. n ≤ g.budget) (used_by g c) }
    ensures few { (g : Guest) (c : Call) → length (used_by g c) ≤ most_functions c }
    ensures total { (g : Guest) (c : Call) → sum (used_by g c) ≤ most_functions c * g.budget }
{}

/// A call changes nothing but the guest's phase, area, memory and globals, and no memory becomes smaller.
pub fn a_call_changes_nothing_else()
    ensures code { (g : Guest) (c : Call) → (answer g c).1.code ≡ g.code }
    ensures description { (g : Guest) (c : Call) → (answer g c).1.description ≡ g.description }
    ensures budget { (g : Guest) (c : Call) → (answer g c).1.budget ≡ g.budget }
    ensures memory { (g : Guest) (c : Call) → length g.store.bytes ≤ length (answer g c).1.store.bytes }
{}

/// A guest that is instantiated has its area in its memory, and has it there behind every call. No other call moves it.
pub fn the_area_stays_in_the_memory()
    ensures instantiated { (g : Guest) (status : FmiStatus) → is_fine status ≡ true
        → (answer g Instantiate).0 ≡ Plain status → HasArea (answer g Instantiate).1 }
    ensures left { (g : Guest) (c : Call) → is_instantiation c ≡ false → (answer g c).1.area ≡ g.area }
    ensures stays { (g : Guest) (c : Call) → HasArea g → HasArea (answer g c).1 }
{}
