//! Laws over all runs of a master. Each function's contract is a law of the history: whatever the
//! wire gives, whatever numbers are picked and whatever the forwarder replies, it holds of the
//! right log.
#![tactic(auto)]

mod laws;

pub use laws::{
    all_is_kept, askers_are_served, bytes_are_unshared, cuts_cut_items, cuts_keep_views,
    idle_rows_leave_views, isolation, master_sends_little, permissions_are_kept,
    queues_are_bounded, rows_are_renamed, rows_follow_views, takes_are_unshared, views_are_renamed,
    views_show_rooms, windows_are_kept,
};
