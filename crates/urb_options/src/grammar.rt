//! The definition of the command line, as the parser needs it.

ghost use Rattle.std.specs.Prelude.{◌≡◌, IfOk, false};
ghost use Rattle.clap.specs.Words.{app_of, rule_of};
ghost use Rattle.clap.specs.declared.builder.command.Command.TheViews.{out-Command};
ghost use Rattle.urb_options.specs.CommandLine.{bare_app, client_app, replay_app};
ghost use Rattle.urb_options.specs.CommandLine.{choice_rule, flag_rule, number_rule, text_rule};
ghost use Rattle.urb_options.specs.CommandLine.{place_rule};
ghost use Rattle.urb_options.specs.CommandLine.{group_app, serve_app, service_app, submit_app};
ghost use Rattle.urb_options.specs.CommandLine.{read_app, status_app, urbd_app};

use crate::limits::{
    MAX_BASE_PORT, MAX_CONNECTIONS, MAX_IDLE_MINUTES, MAX_TICK_MILLIS, MIN_BASE_PORT,
    MIN_CONNECTIONS,
};
use crate::stream_grammar::{follow_command, optional_text, publish_command};
use crate::version::VERSION;
use clap::builder::ValueParser;
use clap::{Arg, ArgAction, Command};
use std::alloc::{AllocError, Global};
use urb_client::MOST_ENTRIES;
use urb_names::{MAX_CAP, MAX_NODES};

// The texts of options that several commands have.
const PORT_HELP: &str = "The node's port for clients, 1 to 65535";

const SOCKET_HELP: &str = "The path of the node's socket, in place of a port";

const NODES_HELP: &str = "How many nodes, 1 to 7";

pub(crate) const CLIENT_HELP: &str = "The client, 1 to 65535";

/// A required option whose value is a number from `low` to `high`.
pub(crate) fn number_option<'a>(
    alloc: Global,
    name: &'a str,
    help: &'a str,
    low: i64,
    high: i64,
) -> Arg<'a>
    ensures rule { rule_of result ≡ number_rule name.entry.now low high }
    ensures own { result.global ≡ false }
{
    Arg::new(alloc, name)
        .long(name)
        .help(help)
        .required(true)
        .action(ArgAction::Set)
        .value_parser(ValueParser::signed(low, high))
}

/// An option that may be left out, whose value is a number from `low` to `high`.
pub(crate) fn optional_number<'a>(
    alloc: Global,
    name: &'a str,
    help: &'a str,
    low: i64,
    high: i64,
) -> Arg<'a>
    ensures rule { rule_of result ≡ choice_rule name.entry.now low high }
    ensures own { result.global ≡ false }
{
    number_option(alloc, name, help, low, high).required(false)
}

// An option without a value, which may be left out.
fn flag<'a>(alloc: Global, name: &'a str, help: &'a str) -> Arg<'a>
    ensures rule { rule_of result ≡ flag_rule name.entry.now }
    ensures own { result.global ≡ false }
{
    Arg::new(alloc, name)
        .long(name)
        .help(help)
        .action(ArgAction::SetTrue)
}

/// A required option whose value is any text except an empty one.
pub(crate) fn text_option<'a>(alloc: Global, name: &'a str, help: &'a str) -> Arg<'a>
    ensures rule { rule_of result ≡ text_rule name.entry.now }
    ensures own { result.global ≡ false }
{
    Arg::new(alloc, name)
        .long(name)
        .help(help)
        .required(true)
        .action(ArgAction::Set)
        .value_parser(ValueParser::NonEmptyString)
}

/// A required word at its place; it may be any text.
pub(crate) fn text_word<'a>(alloc: Global, name: &'a str, help: &'a str) -> Arg<'a>
    ensures rule { rule_of result ≡ place_rule name.entry.now }
    ensures own { result.global ≡ false }
{
    Arg::new(alloc, name)
        .help(help)
        .required(true)
        .action(ArgAction::Set)
}

// The command `serve` with the options of a group, which are required.
fn group_command<'a>(alloc: Global) -> Result<Command<'a>, AllocError>
    ensures { IfOk result
        (λ made. (app_of made ≡ group_app) × ((out-Command made).has_globals ≡ false)) }
{
    Command::new(alloc, "serve")
        .about("Runs a group of nodes until standard input ends")
        .after_help(
            "Example: urbd serve --nodes 3 --cap 1000000 --dir journals --base-port 7400 --tick-ms 20",
        )
        .arg(number_option(alloc, "nodes", NODES_HELP, 1, MAX_NODES as i64))?
        .arg(number_option(
            alloc,
            "cap",
            "How many messages each node may broadcast, 1 to 1000000",
            1,
            MAX_CAP as i64,
        ))?
        .arg(text_option(alloc, "dir", "The folder of the journals, which must exist"))?
        .arg(number_option(
            alloc,
            "base-port",
            "The nodes' ports lie above it, 1024 to 65000",
            MIN_BASE_PORT as i64,
            MAX_BASE_PORT as i64,
        ))?
        .arg(number_option(
            alloc,
            "tick-ms",
            "Milliseconds between resends, 1 to 60000",
            1,
            MAX_TICK_MILLIS as i64,
        ))
}

// The command `serve` with the options that say how nodes serve their clients.
fn service_command<'a>(alloc: Global) -> Result<Command<'a>, AllocError>
    ensures { IfOk result
        (λ made. (app_of made ≡ service_app) × ((out-Command made).has_globals ≡ false)) }
{
    group_command(alloc)?
        .arg(optional_number(
            alloc,
            "connections",
            "The most clients of a node at a time, 4 to 1000; otherwise 1000",
            MIN_CONNECTIONS as i64,
            MAX_CONNECTIONS as i64,
        ))?
        .arg(optional_number(
            alloc,
            "idle-minutes",
            "Minutes until an idle client is closed, 1 to 1440; otherwise 10",
            1,
            MAX_IDLE_MINUTES as i64,
        ))?
        .arg(flag(
            alloc,
            "no-crash",
            "Refuses the requests CRASH and RESTART of clients",
        ))
}

fn serve_command<'a>(alloc: Global) -> Result<Command<'a>, AllocError>
    ensures { IfOk result
        (λ made. (app_of made ≡ serve_app) × ((out-Command made).has_globals ≡ false)) }
{
    service_command(alloc)?
        .arg(optional_text(
            alloc,
            "socket-dir",
            "A folder for a Unix socket of each node, node-1.sock and so on",
        ))?
        .arg(optional_text(
            alloc,
            "socket-mode",
            "The mode of the sockets, octal; otherwise 660: the owner and its group",
        ))?
        .arg(flag(alloc, "no-tcp", "Takes clients at the sockets alone"))
}

/// A client's command with this name, and what it is about. It takes the node's port or its socket.
pub(crate) fn client_command<'a>(
    alloc: Global,
    name: &'a str,
    about: &'a str,
) -> Result<Command<'a>, AllocError>
    ensures { IfOk result (λ made.
        (app_of made ≡ client_app name.entry.now) × ((out-Command made).has_globals ≡ false)) }
{
    Command::new(alloc, name)
        .about(about)
        .arg(optional_number(alloc, "port", PORT_HELP, 1, 65_535))?
        .arg(optional_text(alloc, "socket", SOCKET_HELP))
}

fn submit_command<'a>(alloc: Global) -> Result<Command<'a>, AllocError>
    ensures { IfOk result
        (λ made. (app_of made ≡ submit_app) × ((out-Command made).has_globals ≡ false)) }
{
    client_command(alloc, "submit", "Sends one message to a node")?
        .after_help("Example: urbd submit --port 7411 --client 7 --number 1 hello")
        .arg(number_option(alloc, "client", CLIENT_HELP, 1, 65_535))?
        .arg(number_option(
            alloc,
            "number",
            "Which of the client's messages it is, from 1; a node refuses 0",
            0,
            4_294_967_295,
        ))?
        .arg(text_word(alloc, "TEXT", "The message, at most 16384 bytes"))
}

fn read_command<'a>(alloc: Global) -> Result<Command<'a>, AllocError>
    ensures { IfOk result
        (λ made. (app_of made ≡ read_app) × ((out-Command made).has_globals ≡ false)) }
{
    client_command(alloc, "read", "Shows entries of a node's log")?
        .after_help("Example: urbd read --port 7411 --from 1 --max 8")
        .arg(number_option(
            alloc,
            "from",
            "The first place of the log, from 1",
            1,
            4_294_967_295,
        ))?
        .arg(number_option(
            alloc,
            "max",
            "How many entries at most, 1 to 8",
            1,
            MOST_ENTRIES as i64,
        ))
}

fn status_command<'a>(alloc: Global) -> Result<Command<'a>, AllocError>
    ensures { IfOk result
        (λ made. (app_of made ≡ status_app) × ((out-Command made).has_globals ≡ false)) }
{
    let (low, high) = (MIN_BASE_PORT as i64, MAX_BASE_PORT as i64);
    let about = "Shows the state of a node, or of all nodes of a group";
    client_command(alloc, "status", about)?
        .after_help("Example: urbd status --base-port 7400 --nodes 3")
        .arg(optional_number(
            alloc,
            "base-port",
            "The group's base port, 1024 to 65000",
            low,
            high,
        ))?
        .arg(optional_number(alloc, "nodes", NODES_HELP, 1, MAX_NODES as i64))
}

fn replay_command<'a>(alloc: Global) -> Command<'a>
    ensures { (app_of result ≡ replay_app) × ((out-Command result).has_globals ≡ false) }
{
    Command::new(alloc, "replay")
        .about("Runs a script from standard input")
        .after_help("Example: urbd replay < three-nodes.script")
}

// The program without its subcommands.
fn bare_command<'a>(alloc: Global) -> Command<'a>
    ensures { (app_of result ≡ bare_app) × ((out-Command result).has_globals ≡ false) }
{
    Command::new(alloc, "urbd")
        .about("Logged uniform FIFO broadcast")
        .version(VERSION)
        .subcommand_required(true)
}

/// The command line that the program accepts.
pub(crate) fn make_command_line<'a>(alloc: Global) -> Result<Command<'a>, AllocError>
    ensures { IfOk result (λ made. app_of made ≡ urbd_app) }
{
    bare_command(alloc)
        .subcommand(replay_command(alloc))?
        .subcommand(serve_command(alloc)?)?
        .subcommand(submit_command(alloc)?)?
        .subcommand(read_command(alloc)?)?
        .subcommand(status_command(alloc)?)?
        .subcommand(publish_command(alloc)?)?
        .subcommand(follow_command(alloc)?)
}
