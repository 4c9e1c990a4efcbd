//! What the parser found on the command line of `publish` or `follow`, turned into a task.

ghost use Rattle.std.specs.Prelude.{◌≡◌, IfSome, option_map};
ghost use Rattle.clap.specs.Words.{found_of, rows_of};
ghost use Rattle.urb_options.specs.Tasks.{chosen_form, follow_task, form_named, publish_task};
ghost use Rattle.urb_options.specs.Tasks.{task_of_following, task_of_publishing};

use crate::door_values::read_address;
use crate::entry_form_kind::EntryForm;
use crate::stream_options::{FollowOptions, PublishOptions};
use crate::values::{number, text};
use clap::ArgMatches;

/// The messages to publish.
#[tactic(auto, unfolding(crate::specs::Tasks::publish_task))]
pub(crate) fn read_publish_options<'a>(found: &ArgMatches<'a>) -> Option<PublishOptions<'a>>
    ensures { option_map task_of_publishing result ≡ publish_task (rows_of (found_of found.now)) }
{
    let at = read_address(found)?;
    let client = number(found, "client", 1, 65_535)?;
    Some(PublishOptions {
        at,
        client: client as u16,
        text: text(found, "TEXT"),
    })
}

// The form with this name.
fn find_form(word: &str) -> Option<EntryForm>
    ensures { result ≡ form_named word.now }
{
    match word {
        "text" => Some(EntryForm::Text),
        "hex" => Some(EntryForm::Hex),
        "json" => Some(EntryForm::Json),
        _ => None,
    }
}

// The form that a word asks for, if there is one.
fn choose_form(word: Option<&str>) -> Option<EntryForm>
    ensures { result ≡ chosen_form (option_map (λ s. s.now) word.entry) }
{
    match word {
        Some(word) => find_form(word),
        None => Some(EntryForm::Text),
    }
}

/// The log to follow.
#[tactic(auto, unfolding(crate::specs::Tasks::follow_task))]
pub(crate) fn read_follow_options<'a>(found: &ArgMatches<'a>) -> Option<FollowOptions<'a>>
    ensures { option_map task_of_following result ≡ follow_task (rows_of (found_of found.now)) }
{
    let at = read_address(found)?;
    let form = choose_form(text(found, "format"))?;
    let from = number(found, "from", 1, 4_294_967_295).unwrap_or(1);
    Some(FollowOptions { at, from, form })
}
