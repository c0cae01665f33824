//! Laws of networks: each is the contract of a function with an empty body.
#![tactic(auto)]

mod events;
mod fits;
mod nodes;
mod orders;
mod runs;

pub use events::{
    each_log_ends_with_its_status, moments_never_fall, no_line_is_earlier_than_the_one_before_it,
    nothing_is_ever_late, the_next_event_is_foremost,
};
pub use fits::{
    a_moment_has_one_sessions, each_event_comes_behind_the_last, numbers_stay_small,
    plans_open_networks_that_fit, sessions_leave_nothing_waiting, the_laws_have_cases,
    units_of_a_plan_fit, what_fits_goes_on_to_fit, who_is_not_live_holds_nothing,
};
pub use nodes::{
    only_live_nodes_are_closed, only_who_takes_part_changes, others_have_no_session, sessions_join,
    who_is_out_stays_out,
};
pub use orders::{
    any_order_gives_the_same_nodes, each_session_is_from_the_state_before,
    two_orders_give_the_same_nodes,
};
pub use runs::{
    each_log_tells_the_number_of_its_events, each_start_is_of_the_foremost,
    nothing_happens_after_the_stop, the_events_of_a_run_come_in_order,
    what_is_delivered_is_heard_at_once, who_is_out_is_silent,
};
