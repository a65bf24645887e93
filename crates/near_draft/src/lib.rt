//! Moves whose rows are drafted, and not applied.
//!
//!     let base = Base::of(inst, plan, slots, legs)
//!     let draft = draft_of(alloc, &base, &m)?    // the plan that a move's first steps make
//!     breaks_rule(alloc, &draft, &m)?            // whether that breaks a rule of a leg
//!     changed_legs(alloc, &draft)?               // legs among which are all whose rows are other ones
//!     legs_of_plane(alloc, &draft, plane)?       // the legs that an aircraft flies in it
//!
//! A draft is a plan with other rows of some legs. It is read as a plan is and knows the hours of its airports, by the board
//! of the slots of the plan over which it is drafted, so that a Push asks it as it asks an evaluator; but no board follows, and no passenger is looked at. The
//! steps of a move that change rows, a Set, a Push or a Swap, are taken in a draft, and the legs of the aircraft that they
//! push are asked what C2 and C4 to C7 ask of a leg. What is broken then is broken once the passengers are tidied and
//! refilled (near_moves).
//!
//! Proved: a draft is what the steps make, and a move is not better whose draft breaks a rule. None is drafted where legs
//! that kept their aircraft changed their order, nor with a Push or a Swap of an aircraft of more than 64 legs.
#![tactic(auto)]

mod base;
mod change;
mod changed;
mod draft;
mod hours;
mod kept;
mod laws;
mod legs;
mod moves;
mod rows;
mod rules;
mod steps;
mod swap;

pub use base::Base;
pub use change::Change;
pub use changed::changed_legs;
pub use draft::Draft;
pub use laws::a_move_is_not_better_whose_draft_breaks_a_rule;
pub use legs::{legs_of_plane, precedes};
pub use moves::{breaks_rule, draft_of};
