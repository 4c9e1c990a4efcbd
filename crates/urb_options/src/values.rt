//! What the parser found on a command line, turned into a task.

ghost use Rattle.std.specs.Prelude.{◌≡◌, ◌≤◌, ◌&&◌, nat_le, IfSome, Some, None, option_map};
ghost use Rattle.std.specs.Prelude.{option_and_then, if◌then◌else◌};
ghost use Rattle.urb_names.specs.declared.limits.TheConstants.{MAX_NODES};
ghost use Rattle.urb_options.specs.declared.limits.TheConstants.{MIN_BASE_PORT, MAX_BASE_PORT};
ghost use Rattle.clap.specs.Words.{first_of, found_of, rows_of, subcommand_rows_of};
ghost use Rattle.urb_options.specs.Tasks.{asked_nodes, is_given, number_or, service_asked, service_of};
ghost use Rattle.urb_options.specs.Tasks.{Serve, number_of, serve_task, submit_task, read_task};
ghost use Rattle.urb_options.specs.Tasks.{task_named, task_of, task_of_serving, task_of_submitting};
ghost use Rattle.urb_options.specs.Tasks.{task_of_reading, task_of_asking, status_task};

use crate::door_values::{choose_address, read_address, read_doors};
use crate::limits::{
    CLIENT_PORT_OFFSET, MAX_BASE_PORT, MAX_CONNECTIONS, MAX_IDLE_MINUTES, MAX_TICK_MILLIS,
    MIN_BASE_PORT, MIN_CONNECTIONS, STANDARD_IDLE_MINUTES,
};
use crate::node_address::NodeAddress;
use crate::serve_options::ServeOptions;
use crate::service_options::ServiceOptions;
use crate::stream_values::{read_follow_options, read_publish_options};
use crate::task::{Errand, Line, ReadOptions, StatusOptions, SubmitOptions};
use clap::ArgMatches;
use urb_client::MOST_ENTRIES;
use urb_names::{MAX_CAP, MAX_NODES};

// The number, if it is within these bounds.
fn keep_in_range(number: Option<u32>, low: u32, high: u32) -> Option<u32>
    ensures value { result
        ≡ option_and_then (λ n. if nat_le low n && nat_le n high then Some n else None) number }
    ensures range { IfSome result (λ n. (low ≤ n) × (n ≤ high)) }
{
    match number {
        Some(number) if low <= number && number <= high => Some(number),
        _ => None,
    }
}

/// The value of an option: a number from `low` to `high`.
pub(crate) fn number(found: &ArgMatches<'_>, name: &str, low: u32, high: u32) -> Option<u32>
    ensures value { result ≡ number_of name.now low high (rows_of (found_of found.now)) }
    ensures range { IfSome result (λ n. (low ≤ n) × (n ≤ high)) }
{
    keep_in_range(found.get_one::<u32>(name), low, high)
}

/// The text of an option, or of a word at its place.
pub(crate) fn text<'a>(found: &ArgMatches<'a>, name: &str) -> Option<&'a str>
    ensures { option_map (λ s. s.now) result ≡ first_of name.now (rows_of (found_of found.now)) }
{
    found.get_str(name)
}

// The value of an option that may be left out: a number from `low` to `high`. If it is left out, it
// is this one.
fn number_or(standard: u32, found: &ArgMatches<'_>, name: &str, low: u32, high: u32) -> u32
    requires { (low ≤ standard) × (standard ≤ high) }
    ensures value { result ≡ number_or standard name.now low high (rows_of (found_of found.now)) }
    ensures range { (low ≤ result) × (result ≤ high) }
{
    match number(found, name, low, high) {
        Some(given) => given,
        None => standard,
    }
}

/// Whether an option without a value was given.
pub(crate) fn is_given(found: &ArgMatches<'_>, name: &str) -> bool
    ensures { result ≡ is_given name.now (rows_of (found_of found.now)) }
{
    match text(found, name) {
        Some(given) => given == "true",
        None => false,
    }
}

#[tactic(auto, unfolding(crate::specs::Tasks::service_asked))]
fn read_service_options(found: &ArgMatches<'_>) -> ServiceOptions
    ensures { service_of result ≡ service_asked (rows_of (found_of found.now)) }
{
    let (least, most) = (MIN_CONNECTIONS as u32, MAX_CONNECTIONS as u32);
    let connections = number_or(most, found, "connections", least, most);
    let standard = STANDARD_IDLE_MINUTES as u32;
    let longest = MAX_IDLE_MINUTES as u32;
    let idle_minutes = number_or(standard, found, "idle-minutes", 1, longest);
    ServiceOptions {
        connections: connections as u16,
        idle_minutes: idle_minutes as u16,
        may_crash: !is_given(found, "no-crash"),
    }
}

#[tactic(auto, unfolding(crate::specs::Tasks::serve_task))]
fn read_serve_options<'a>(found: &ArgMatches<'a>) -> Option<ServeOptions<'a>>
    ensures { option_map task_of_serving result ≡ serve_task (rows_of (found_of found.now)) }
{
    let nodes = number(found, "nodes", 1, MAX_NODES as u32)?;
    let cap = number(found, "cap", 1, MAX_CAP)?;
    let dir = text(found, "dir")?;
    let base = number(
        found,
        "base-port",
        MIN_BASE_PORT as u32,
        MAX_BASE_PORT as u32,
    )?;
    let every = number(found, "tick-ms", 1, MAX_TICK_MILLIS)?;
    let serving = ServeOptions::new(nodes as u8, cap, dir, base as u16, every)?;
    let doors = read_doors(found)?;
    Some(
        serving
            .with_service(read_service_options(found))
            .with_doors(doors),
    )
}

#[tactic(auto, unfolding(crate::specs::Tasks::submit_task))]
fn read_submit_options<'a>(found: &ArgMatches<'a>) -> Option<SubmitOptions<'a>>
    ensures { option_map task_of_submitting result ≡ submit_task (rows_of (found_of found.now)) }
{
    let at = read_address(found)?;
    let client = number(found, "client", 1, 65_535)?;
    let number = number(found, "number", 0, 4_294_967_295)?;
    let text = text(found, "TEXT")?;
    Some(SubmitOptions {
        at,
        client: client as u16,
        number,
        text,
    })
}

#[tactic(auto, unfolding(crate::specs::Tasks::read_task))]
fn read_read_options<'a>(found: &ArgMatches<'a>) -> Option<ReadOptions<'a>>
    ensures { option_map task_of_reading result ≡ read_task (rows_of (found_of found.now)) }
{
    let at = read_address(found)?;
    let from = number(found, "from", 1, 4_294_967_295)?;
    let max = number(found, "max", 1, MOST_ENTRIES as u32)?;
    Some(ReadOptions {
        at,
        from,
        max: max as u8,
    })
}

// The nodes to ask: the one at the port or the socket, or all of a group. `None` if the options
// name none of these, or several.
fn asked_nodes<'a>(
    port: Option<u32>,
    path: Option<&'a str>,
    base: Option<u32>,
    nodes: Option<u32>,
) -> Option<StatusOptions<'a>>
    requires port { IfSome port (λ n. (1 ≤ n) × (n ≤ 65535)) }
    requires base { IfSome base (λ n. (MIN_BASE_PORT ≤ n) × (n ≤ MAX_BASE_PORT)) }
    requires nodes { IfSome nodes (λ n. (1 ≤ n) × (n ≤ MAX_NODES)) }
    ensures { option_map task_of_asking result
        ≡ asked_nodes port (option_map (λ s. s.now) path.entry) base nodes }
{
    match (base, nodes) {
        (None, None) => {
            let at = choose_address(port, path)?;
            Some(StatusOptions { at, count: 1 })
        }
        (Some(base), Some(nodes)) if port.is_none() && path.is_none() => {
            let port = base as u16 + CLIENT_PORT_OFFSET + 1;
            Some(StatusOptions {
                at: NodeAddress::Port(port),
                count: nodes as u8,
            })
        }
        _ => None,
    }
}

#[tactic(auto, unfolding(crate::specs::Tasks::status_task))]
fn read_status_options<'a>(found: &ArgMatches<'a>) -> Option<StatusOptions<'a>>
    ensures { option_map task_of_asking result ≡ status_task (rows_of (found_of found.now)) }
{
    let port = number(found, "port", 1, 65_535);
    let base = number(
        found,
        "base-port",
        MIN_BASE_PORT as u32,
        MAX_BASE_PORT as u32,
    );
    let nodes = number(found, "nodes", 1, MAX_NODES as u32);
    asked_nodes(port, text(found, "socket"), base, nodes)
}

fn read_subcommand<'a>(name: &str, found: &ArgMatches<'a>) -> Option<Line<'a>>
    ensures { option_map task_of result
        ≡ task_named (Some (name.now, rows_of (found_of found.now))) }
{
    match name {
        "replay" => Some(Line::Errand(Errand::Replay)),
        "serve" => Some(Line::Serve(read_serve_options(found)?)),
        "submit" => Some(Line::Errand(Errand::Submit(read_submit_options(found)?))),
        "read" => Some(Line::Errand(Errand::Read(read_read_options(found)?))),
        "status" => Some(Line::Errand(Errand::Status(read_status_options(found)?))),
        "publish" => Some(Line::Errand(Errand::Publish(read_publish_options(found)?))),
        "follow" => Some(Line::Errand(Errand::Follow(read_follow_options(found)?))),
        _ => None,
    }
}

/// What the program should do. `None` if the options don't fit together, or if a required one is
/// missing or is no number in its range.
pub(crate) fn read_matches<'a>(matches: &ArgMatches<'a>) -> Option<Line<'a>>
    ensures { option_map task_of result ≡ task_named (subcommand_rows_of matches.now) }
{
    let (name, found) = matches.subcommand()?;
    read_subcommand(name, found)
}
