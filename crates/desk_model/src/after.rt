//! The view with one entry more.

ghost use Rattle.std.specs.Prelude.{◌≡◌, List, ◌∷◌, [], ◌++◌};
ghost use Rattle.desk_model.specs.declared.answer.Entry.{Entry as Recorded};
ghost use Rattle.desk_model.specs.States.{State};
ghost use Rattle.desk_model.specs.Views.{view_of, Follows};

use crate::view::View;
use crate::{Answer, Entry, Event};
use desk_data::Grains;

/// The view with one entry more.
pub fn view_after(view: View, entry: &Entry) -> View
    requires { (S : State) × (h : List Recorded) × Follows S h entry.now × (view ≡ view_of S h) }
    ensures { (S : State) (h : List Recorded) → Follows S h entry.now → view ≡ view_of S h → result ≡ view_of S (h ++ entry.now ∷ []) }
{
    let entries = view.entries + 1;
    match entry.event {
        Event::Batch(_) => match entry.answer {
            Answer::Taken { cost, .. } => View {
                entries,
                changes: view.changes + 1,
                cost,
                broken: None,
            },
            Answer::NoPlan(item) => View {
                entries,
                changes: view.changes + 1,
                cost: Grains(0),
                broken: Some(item),
            },
            _ => view,
        },
        Event::Move(_) => match entry.answer {
            Answer::Accepted { cost } => View {
                entries,
                changes: view.changes + 1,
                cost,
                broken: None,
            },
            _ => View { entries, ..view },
        },
    }
}
