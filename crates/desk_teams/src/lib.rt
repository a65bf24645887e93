//! What a desk and several searchers make of one history.
//!
//! The definitions are in `specs/`: `Trails` has what a searcher keeps of its proposals, and when that is true of a
//! history; `Teams` has what holds of a history that a desk and its searchers made together; and `Votes` what searchers
//! agree on, by their reports. The code is `Trail`, an item of such a trail, `Report`, `vote_on`, and laws, which are public
//! functions with empty bodies.
#![tactic(auto)]

mod laws;
mod report;
mod trail;
mod voting;

pub use laws::{
    a_batch_has_room, a_legal_history_has_few_proposals,
    a_proposal_is_refused_only_where_another_change_stands_between,
    a_trail_stays_true_of_longer_histories, shards_that_are_all_quiet_leave_nothing,
    what_has_stopped_stays_so_until_a_change,
};
pub use report::{End, Report, Vote};
pub use trail::Trail;
pub use voting::vote_on;
