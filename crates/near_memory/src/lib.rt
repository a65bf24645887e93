//! Rebookings that were not better at one plan, and are not at a later one.
//!
//! What a rebooking of a reservation comes to hangs on its groups, on the rows of the legs on their paths and on its
//! routes, and on how many are aboard those. Where none of that changed, but that more are aboard, it costs no less
//! than it did, or lacks seats as it did. So a search has to look again only at the reservations that a change of the
//! plan touched.
//!
//! The code here is laws: each is a public function with an empty body, whose contract is the law.
#![tactic(auto)]

mod laws;

pub use laws::{a_rebooking_of_what_is_untouched_is_not_better, the_legs_of_routes_can_be_told};
