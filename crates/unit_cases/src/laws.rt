//! Laws at concrete types: there is nothing to run.
use case_words::Unanswered;
use fmi_states::{ListEcu, new_parts_are_apart, other_units_stay};
use held_states::how_states_are_held_changes_no_log;
use std::alloc::Global;
use world_laws::{
    a_moment_has_one_sessions, any_order_gives_the_same_nodes, each_event_comes_behind_the_last,
    each_log_ends_with_its_status, each_log_tells_the_number_of_its_events,
    each_session_is_from_the_state_before, each_start_is_of_the_foremost, moments_never_fall,
    no_line_is_earlier_than_the_one_before_it, nothing_happens_after_the_stop,
    nothing_is_ever_late, numbers_stay_small, only_live_nodes_are_closed,
    only_who_takes_part_changes, others_have_no_session, plans_open_networks_that_fit,
    sessions_join, sessions_leave_nothing_waiting, the_events_of_a_run_come_in_order,
    the_next_event_is_foremost, two_orders_give_the_same_nodes, units_of_a_plan_fit,
    what_fits_goes_on_to_fit, what_is_delivered_is_heard_at_once, who_is_not_live_holds_nothing,
    who_is_out_is_silent, who_is_out_stays_out,
};

fn units() {
    other_units_stay::<ListEcu>();
    new_parts_are_apart::<ListEcu>();
}

fn events() {
    the_next_event_is_foremost::<u32>();
    moments_never_fall::<u32>();
    nothing_is_ever_late::<u32>();
    no_line_is_earlier_than_the_one_before_it::<u32>();
    each_log_ends_with_its_status::<u32>();
}

fn nodes() {
    others_have_no_session::<u32>();
    only_who_takes_part_changes::<u32>();
    who_is_out_stays_out::<u32>();
    only_live_nodes_are_closed::<u32>();
    sessions_join::<u32>();
}

fn orders() {
    any_order_gives_the_same_nodes::<u32>();
    two_orders_give_the_same_nodes::<u32>();
    each_session_is_from_the_state_before::<u32>();
}

fn fits() {
    units_of_a_plan_fit::<u32>();
    plans_open_networks_that_fit::<u32>();
    what_fits_goes_on_to_fit::<u32>();
    each_event_comes_behind_the_last::<u32>();
    a_moment_has_one_sessions::<u32>();
    sessions_leave_nothing_waiting::<u32>();
    who_is_not_live_holds_nothing::<u32>();
    numbers_stay_small::<u32>();
}

fn runs() {
    each_log_tells_the_number_of_its_events::<u32>();
    each_start_is_of_the_foremost::<u32>();
    nothing_happens_after_the_stop::<u32>();
    the_events_of_a_run_come_in_order::<u32>();
    who_is_out_is_silent::<u32>();
    what_is_delivered_is_heard_at_once::<u32>();
}

/// The laws of this name, called.
pub fn laws(alloc: Global, rest: &str) -> Result<String, Unanswered> {
    match rest {
        "units" => units(),
        "events" => events(),
        "nodes" => nodes(),
        "orders" => orders(),
        "fits" => fits(),
        "runs" => runs(),
        "held" => how_states_are_held_changes_no_log::<u32, u8>(),
        _ => return Err(Unanswered::Unknown),
    }
    Ok(String::from_str(alloc, "called")?)
}
