//! Steps of a move, taken one place after another, whatever holds the plan.
//!
//! Lemmas of what a Swap, a Push and a list of steps come to, as walks over the legs that they change: which legs a Swap may
//! change (`specs/Swapped`), that to have these go over one by one is the Swap, how many legs a Push places at most, and one
//! step more of a list. Whoever takes steps rests on them: desk_eval, on an evaluator, and near_draft, in a draft. There is no
//! code here.
#![tactic(auto)]
