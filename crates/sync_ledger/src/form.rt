// Whether states are of single streams or of all streams.
ghost use Rattle.std.specs.Prelude.{◌≡◌, drop};
ghost use Rattle.state_kinds.specs.Saved.{has_states};
ghost use Rattle.sync_ledger.specs.Noted.{is_other_form, saved_form as saved_form_of};

use state_kinds::{SavedEntry, SavedSet};

/// Whether states are of single streams or of all streams. In an attempt they are of one form, which is also that of the
/// saved states.
#[derive(Clone, Copy, Debug, PartialEq, Eq)]
pub enum StateForm {
    Stream,
    Global,
}

/// Whether states are known to be of the other form.
pub fn is_other(form: StateForm, known: Option<StateForm>) -> bool
    ensures { result ≡ is_other_form form known }
{
    match known {
        Some(StateForm::Stream) => form == StateForm::Global,
        Some(StateForm::Global) => form == StateForm::Stream,
        None => false,
    }
}

// Whether a stream has a state.
fn is_by_stream(entries: &[SavedEntry]) -> bool
    ensures { result ≡ has_states entries.now }
{
    for entry in entries {
        if entry.state.is_some() {
            return true;
        }
    }
    false
}

/// The form of the saved states, where there are any.
pub fn saved_form(set: &SavedSet) -> Option<StateForm>
    ensures { result ≡ saved_form_of set.now }
{
    if set.global().is_some() {
        return Some(StateForm::Global);
    }
    if is_by_stream(set.entries()) {
        return Some(StateForm::Stream);
    }
    None
}
