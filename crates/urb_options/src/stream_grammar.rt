//! The definition of the command lines of `publish` and `follow`, as the parser needs it.

ghost use Rattle.std.specs.Prelude.{◌≡◌, IfOk, false};
ghost use Rattle.clap.specs.Words.{app_of, rule_of};
ghost use Rattle.clap.specs.declared.builder.command.Command.TheViews.{out-Command};
ghost use Rattle.urb_options.specs.CommandLine.{choice_place_rule, choice_text_rule, follow_app};
ghost use Rattle.urb_options.specs.CommandLine.{publish_app};

use crate::grammar::{
    CLIENT_HELP, client_command, number_option, optional_number, text_option, text_word,
};
use clap::{Arg, Command};
use std::alloc::{AllocError, Global};

/// An option that may be left out, whose value is any text except an empty one.
pub(crate) fn optional_text<'a>(alloc: Global, name: &'a str, help: &'a str) -> Arg<'a>
    ensures rule { rule_of result ≡ choice_text_rule name.entry.now }
    ensures own { result.global ≡ false }
{
    text_option(alloc, name, help).required(false)
}

// A word at its place that may be left out; it may be any text.
fn optional_word<'a>(alloc: Global, name: &'a str, help: &'a str) -> Arg<'a>
    ensures rule { rule_of result ≡ choice_place_rule name.entry.now }
    ensures own { result.global ≡ false }
{
    text_word(alloc, name, help).required(false)
}

/// The command line of `publish`.
pub(crate) fn publish_command<'a>(alloc: Global) -> Result<Command<'a>, AllocError>
    ensures { IfOk result
        (λ made. (app_of made ≡ publish_app) × ((out-Command made).has_globals ≡ false)) }
{
    let about = "Sends messages to a node, one after the other, and numbers them";
    client_command(alloc, "publish", about)?
        .after_help("Example: printf 'one\\ntwo\\n' | urbd publish --port 7411 --client 7")
        .arg(number_option(alloc, "client", CLIENT_HELP, 1, 65_535))?
        .arg(optional_word(
            alloc,
            "TEXT",
            "The message, at most 16384 bytes; without it, each line of standard input is one",
        ))
}

/// The command line of `follow`.
pub(crate) fn follow_command<'a>(alloc: Global) -> Result<Command<'a>, AllocError>
    ensures { IfOk result
        (λ made. (app_of made ≡ follow_app) × ((out-Command made).has_globals ≡ false)) }
{
    let about = "Shows entries of a node's log as they come, until it is stopped";
    client_command(alloc, "follow", about)?
        .after_help("Example: urbd follow --port 7411 --from 1 --format text")
        .arg(optional_number(
            alloc,
            "from",
            "The first place of the log, 1 to 4294967295 [default: 1]",
            1,
            4_294_967_295,
        ))?
        .arg(optional_text(
            alloc,
            "format",
            "How an entry is shown: text, hex or json [default: text]",
        ))
}
