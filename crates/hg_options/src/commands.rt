//! The commands of `hgd`, with their arguments and options.

ghost use Rattle.std.specs.Prelude.{◌≡◌, IfOk, Ok, Some, map, true, false};
ghost use Rattle.clap.specs.Words.{app_of, new_app, new_rule, rule_of};
ghost use Rattle.clap.specs.declared.builder.value_parser.ValueParser.TheVariants as parser;
ghost use Rattle.hg_options.specs.CommandLine as spec;
ghost use Rattle.hg_options.specs.Tools.{GainsArgument, GainsSubcommand, HasNoGlobals};

use crate::arguments::{
    ADDRESS, ALL_FLAG, CHECKPOINT_FLAG, CONNECTIONS_OPTION, DIRECTORY, ERROR_EXITCODE_OPTION,
    EVERY_OPTION, FRAMES_OPTION, JOBS_OPTION, NumberOption, PORT, RACE_OPTION, SILENCE_OPTION,
    SOURCE, Switch, VERBOSE_FLAG, WORKERS_OPTION,
};
use crate::help::{CONNECTING, LANGUAGE};
use clap::builder::ValueParser;
use clap::{Arg, ArgAction, Command};
use hg_model::limits::GREATEST_SOURCE;
use std::alloc::{AllocError, Global};

/// The directory of a store.
fn directory<'a>(alloc: Global, required: bool) -> Arg<'a>
    ensures rule { rule_of result ≡ spec.directory required }
    ensures local { result.global ≡ false }
{
    Arg::new(alloc, DIRECTORY)
        .required(required)
        .value_parser(ValueParser::NonEmptyString)
        .help("The directory of a store")
}

/// A number that stands without a name.
fn number<'a>(alloc: Global, name: &'a str, least: i64, most: i64, help: &'a str) -> Arg<'a>
    ensures rule { rule_of result ≡ record (new_rule name.entry.now) {
      required = true;
      parser = Some (parser.Signed least most);
    } }
    ensures local { result.global ≡ false }
{
    Arg::new(alloc, name)
        .required(true)
        .value_parser(ValueParser::Signed(least, most))
        .help(help)
}

/// The address of a word.
fn address<'a>(alloc: Global) -> Arg<'a>
    ensures rule { rule_of result ≡ spec.address }
    ensures local { result.global ≡ false }
{
    Arg::new(alloc, ADDRESS)
        .value_parser(ValueParser::NonEmptyString)
        .help("The address of the word, in decimal or in hexadecimal after 0x")
}

/// What a server listens on.
fn place<'a>(alloc: Global) -> Arg<'a>
    ensures rule { rule_of result ≡ spec.port }
    ensures local { result.global ≡ false }
{
    Arg::new(alloc, PORT)
        .required(true)
        .value_parser(ValueParser::NonEmptyString)
        .help("The port of 127.0.0.1 to listen on, or `unix` for the file `socket` in DIR")
}

/// A flag.
fn flag<'a>(alloc: Global, given: Switch) -> Arg<'a>
    ensures rule { rule_of result ≡ spec.flag given.name.now }
    ensures local { result.global ≡ false }
{
    Arg::new(alloc, given.name)
        .long(given.name)
        .action(ArgAction::SetTrue)
        .help(given.help)
}

/// An option whose value is a number.
fn option<'a>(alloc: Global, given: NumberOption) -> Arg<'a>
    ensures rule { rule_of result ≡ record (spec.option given.name.now) {
      required = given.required;
      parser = Some (parser.Signed given.least given.most);
      defaults = map (λ t. t.now) given.otherwise.now;
    } }
    ensures local { result.global ≡ false }
{
    Arg::new(alloc, given.name)
        .long(given.name)
        .value_name(given.value)
        .required(given.required)
        .value_parser(ValueParser::Signed(given.least, given.most))
        .default_values(given.otherwise)
        .help(given.help)
}

/// A command without arguments.
fn command<'a>(alloc: Global, name: &'a str, about: &'a str) -> Command<'a>
    ensures app { app_of result ≡ new_app name.entry.now }
    ensures local { HasNoGlobals result }
{
    Command::new(alloc, name).about(about).after_help(LANGUAGE)
}

/// A command without arguments, before whose help a text stands.
fn introduced<'a>(alloc: Global, name: &'a str, about: &'a str, text: &'a str) -> Command<'a>
    ensures app { app_of result ≡ new_app name.entry.now }
    ensures local { HasNoGlobals result }
{
    command(alloc, name, about).before_help(text)
}

/// A command with one argument more, unless memory was refused for that command or is refused now.
fn with_argument<'a>(
    command: Result<Command<'a>, AllocError>,
    added: Arg<'a>,
) -> Result<Command<'a>, AllocError>
    ensures app { added.entry.global ≡ false → GainsArgument command.entry added.entry result }
    ensures local { IfOk command.entry HasNoGlobals → added.entry.global ≡ false → IfOk result HasNoGlobals }
{
    match command {
        Ok(command) => command.arg(added),
        Err(error) => Err(error),
    }
}

/// `check [--jobs N] [--error-exitcode N] [--verbose]`.
fn check<'a>(alloc: Global) -> Result<Command<'a>, AllocError>
    ensures app { IfOk result (λ c. app_of c ≡ spec.check) }
    ensures local { IfOk result HasNoGlobals }
{
    let begun = command(
        alloc,
        "check",
        "Reads a trace on standard input, and prints its data races",
    );
    let with_jobs = with_argument(Ok(begun), option(alloc, JOBS_OPTION));
    let with_status = with_argument(with_jobs, option(alloc, ERROR_EXITCODE_OPTION));
    with_argument(with_status, flag(alloc, VERBOSE_FLAG))
}

/// `graph [DIR] [--jobs N] [--verbose]`.
fn graph<'a>(alloc: Global) -> Result<Command<'a>, AllocError>
    ensures app { IfOk result (λ c. app_of c ≡ spec.graph) }
    ensures local { IfOk result HasNoGlobals }
{
    let begun = command(
        alloc,
        "graph",
        "Prints the thread segments of a store, or of a trace on standard input",
    );
    let of_store = with_argument(Ok(begun), directory(alloc, false));
    let with_jobs = with_argument(of_store, option(alloc, JOBS_OPTION));
    with_argument(with_jobs, flag(alloc, VERBOSE_FLAG))
}

/// `explain ADDRESS [DIR] [--all]`, or `explain --race K [DIR] [--all]`.
fn explain<'a>(alloc: Global) -> Result<Command<'a>, AllocError>
    ensures app { IfOk result (λ c. app_of c ≡ spec.explain) }
    ensures local { IfOk result HasNoGlobals }
{
    let begun = command(
        alloc,
        "explain",
        "Prints the life of a word of memory in a store, or in a trace on standard input",
    );
    let of_word = with_argument(Ok(begun), address(alloc));
    let of_store = with_argument(of_word, directory(alloc, false));
    let of_race = with_argument(of_store, option(alloc, RACE_OPTION));
    with_argument(of_race, flag(alloc, ALL_FLAG))
}

/// `create DIR`.
fn create<'a>(alloc: Global) -> Result<Command<'a>, AllocError>
    ensures app { IfOk result (λ c. app_of c ≡ spec.create) }
    ensures local { IfOk result HasNoGlobals }
{
    let begun = command(alloc, "create", "Makes a store");
    with_argument(Ok(begun), directory(alloc, true))
}

/// `reports DIR [--frames F] [--error-exitcode N] [--verbose]`.
fn reports<'a>(alloc: Global) -> Result<Command<'a>, AllocError>
    ensures app { IfOk result (λ c. app_of c ≡ spec.reports) }
    ensures local { IfOk result HasNoGlobals }
{
    let begun = command(alloc, "reports", "Prints the data races that a store holds");
    let of_store = with_argument(Ok(begun), directory(alloc, true));
    let with_frames = with_argument(of_store, option(alloc, FRAMES_OPTION));
    let with_status = with_argument(with_frames, option(alloc, ERROR_EXITCODE_OPTION));
    with_argument(with_status, flag(alloc, VERBOSE_FLAG))
}

/// `feed DIR SOURCE [--checkpoint] [--frames F] [--jobs N] [--verbose]`.
fn feed<'a>(alloc: Global) -> Result<Command<'a>, AllocError>
    ensures app { IfOk result (λ c. app_of c ≡ spec.feed) }
    ensures local { IfOk result HasNoGlobals }
{
    let begun = command(
        alloc,
        "feed",
        "Reads a trace on standard input, and has a store accept its events",
    );
    let of_store = with_argument(Ok(begun), directory(alloc, true));
    let source = number(
        alloc,
        SOURCE,
        0,
        GREATEST_SOURCE as i64,
        "The source whose events these are",
    );
    let from_source = with_argument(of_store, source);
    let with_checkpoint = with_argument(from_source, flag(alloc, CHECKPOINT_FLAG));
    let with_frames = with_argument(with_checkpoint, option(alloc, FRAMES_OPTION));
    let with_jobs = with_argument(with_frames, option(alloc, JOBS_OPTION));
    with_argument(with_jobs, flag(alloc, VERBOSE_FLAG))
}

/// `serve DIR PORT --connections N --workers W [--frames F] [--every E] [--silence SECONDS] [--verbose]`.
fn serve<'a>(alloc: Global) -> Result<Command<'a>, AllocError>
    ensures app { IfOk result (λ c. app_of c ≡ spec.serve) }
    ensures local { IfOk result HasNoGlobals }
{
    let begun = introduced(
        alloc,
        "serve",
        "Takes events from clients that connect, and answers them",
        CONNECTING,
    );
    let of_store = with_argument(Ok(begun), directory(alloc, true));
    let at_port = with_argument(of_store, place(alloc));
    let with_connections = with_argument(at_port, option(alloc, CONNECTIONS_OPTION));
    let with_workers = with_argument(with_connections, option(alloc, WORKERS_OPTION));
    let with_frames = with_argument(with_workers, option(alloc, FRAMES_OPTION));
    let with_every = with_argument(with_frames, option(alloc, EVERY_OPTION));
    let with_silence = with_argument(with_every, option(alloc, SILENCE_OPTION));
    with_argument(with_silence, flag(alloc, VERBOSE_FLAG))
}

/// `migrate DIR`.
fn migrate<'a>(alloc: Global) -> Result<Command<'a>, AllocError>
    ensures app { IfOk result (λ c. app_of c ≡ spec.migrate) }
    ensures local { IfOk result HasNoGlobals }
{
    let begun = command(
        alloc,
        "migrate",
        "Gives two journals to a store that was made with one, named `journal`",
    );
    with_argument(Ok(begun), directory(alloc, true))
}

/// The command line of `hgd`, without its commands. `version` is what `--version` tells.
fn start<'a>(alloc: Global, version: &'a str) -> Command<'a>
    ensures app { app_of result ≡ spec.start }
    ensures local { HasNoGlobals result }
{
    command(
        alloc,
        "hgd",
        "Finds data races in traces of programs with threads",
    )
    .version(version)
    .subcommand_required(true)
}

/// A command with one subcommand more, unless memory was refused for that command or is refused now.
fn with_subcommand<'a>(
    command: Result<Command<'a>, AllocError>,
    added: Command<'a>,
) -> Result<Command<'a>, AllocError>
    ensures app { HasNoGlobals added.entry → GainsSubcommand command.entry (Ok added.entry) result }
    ensures local { IfOk command.entry HasNoGlobals → HasNoGlobals added.entry → IfOk result HasNoGlobals }
{
    match command {
        Ok(command) => command.subcommand(added),
        Err(error) => Err(error),
    }
}

/// A command with one subcommand more, unless memory was refused for one of the two or is refused now.
fn with_command<'a>(
    command: Result<Command<'a>, AllocError>,
    added: Result<Command<'a>, AllocError>,
) -> Result<Command<'a>, AllocError>
    ensures app { IfOk added.entry HasNoGlobals → GainsSubcommand command.entry added.entry result }
    ensures local { IfOk command.entry HasNoGlobals → IfOk added.entry HasNoGlobals → IfOk result HasNoGlobals }
{
    match added {
        Ok(added) => with_subcommand(command, added),
        Err(error) => Err(error),
    }
}

/// The command line of `hgd`. `version` is what `--version` tells behind the name.
pub fn hgd<'a>(alloc: Global, version: &'a str) -> Result<Command<'a>, AllocError>
    ensures app { IfOk result (λ c. app_of c ≡ spec.hgd) }
    ensures local { IfOk result HasNoGlobals }
{
    let checking = with_command(Ok(start(alloc, version)), check(alloc));
    let graphing = with_command(checking, graph(alloc));
    let explaining = with_command(graphing, explain(alloc));
    let creating = with_command(explaining, create(alloc));
    let feeding = with_command(creating, feed(alloc));
    let reporting = with_command(feeding, reports(alloc));
    let serving = with_command(reporting, serve(alloc));
    with_command(serving, migrate(alloc))
}
