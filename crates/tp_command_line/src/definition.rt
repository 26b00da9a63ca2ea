//! The definition of the command line, as clap takes it.

ghost use Rattle.std.specs.Prelude.{◌≡◌, ◌∷◌, IfOk, [], false, codes};
ghost use Rattle.clap.specs.Words.{App, Shape, app_of, rule_of, with_subcommand};
ghost use Rattle.tp_command_line.specs.Commands.{IsLeaf, bare_app, cursor_shape, diff_shape, edit_at_shape, edit_shape, files_app, journals_app, load_shape, log_shape, merge_shape, mirror_shape, new_shape, recover_shape, serve_shape, session_shape, sync_shape, text_shape, textpeer_app, update_shape, web_shape, whole_text_shape, with_rules};
ghost use Rattle.tp_command_line.specs.Rules.{every_rule, file_rule, flag_rule, follow_rule, list_rule, mandatory, message_rule, most_rule, numeric, option_rule, optional_rule, options_rule, page_rule, patience_rule, required_rule, server_rule, sessions_rule, several, time_rule, workers_rule, wait_rule, context_rule};

use clap::builder::ValueParser;
use clap::{Arg, ArgAction, Command, value_parser};
use std::alloc::{AllocError, Global};

// What is said below the commands. The words that it names are read before the parser has the others.
const ANYWHERE: &str =
    "Anywhere before --:\n      --explain  adds below a refusal which file it is about and what to do; always on where the standard error is a terminal\n\n\
`textpeer help COMMAND` is `textpeer COMMAND --help`";

/// The definition of the program's command line.
pub(crate) fn textpeer_command<'a>(alloc: Global) -> Result<Command<'a>, AllocError>
    ensures { IfOk result (λ c. app_of c ≡ textpeer_app) }
{
    let on_files = file_commands(alloc);
    let served = with(on_files, serve_command(alloc));
    let synced = with(served, sync_command(alloc));
    let held = with(synced, session_command(alloc));
    with(held, web_command(alloc))
}

// The program with the commands that need no network.
fn file_commands<'a>(alloc: Global) -> Result<Command<'a>, AllocError>
    ensures { IfOk result (λ c. app_of c ≡ files_app) }
{
    let journals = journal_commands(alloc);
    let merged = with(journals, merge_command(alloc));
    let saved = with(
        merged,
        pair_command(
            alloc,
            "save",
            "Writes the document of a journal as a saved file",
            "Example:\n  textpeer save notes.journal notes.saved",
            "OUT",
            "the saved file; any file of that name is replaced, except a journal",
        ),
    );
    let loaded = with(saved, load_command(alloc));
    let recovered = with(loaded, recover_command(alloc));
    let shown = with(
        recovered,
        value_command(
            alloc,
            "show",
            "Prints the text that a log of changes makes",
            "Example:\n  textpeer show changes.log",
            "LOG",
            "a log of changes: each a length of 4 bytes and the change's bytes",
        ),
    );
    with(
        shown,
        value_command(
            alloc,
            "simulate",
            "Runs a script of peers that edit, exchange and crash, and prints a line for each line of it",
            "Example:\n  textpeer simulate two-peers.script",
            "SCRIPT",
            "a script: an event on each line, as `start ACTOR`, `edit P AT DEL TEXT` or `read P`",
        ),
    )
}

// The program with the commands on one journal alone.
fn journal_commands<'a>(alloc: Global) -> Result<Command<'a>, AllocError>
    ensures { IfOk result (λ c. app_of c ≡ journals_app) }
{
    let begun = with(Ok(program(alloc)), new_command(alloc));
    let edited = with(begun, edit_command(alloc));
    let updated = with(edited, update_command(alloc));
    let imported = with(
        updated,
        whole_text_command(
            alloc,
            "import",
            "Brings the text of a file into a new journal, or one that has no text yet, and prints the hash of each change",
            "Example:\n  textpeer import notes.journal notes.txt",
        ),
    );
    let mirrored = with(imported, mirror_command(alloc));
    let read = with(mirrored, text_command(alloc));
    let headed = with(
        read,
        file_command(
            alloc,
            "heads",
            "Prints the heads, the hashes of the changes on which no other depends: they name the state of the text for --since and others",
            "Example:\n  textpeer heads notes.journal",
        ),
    );
    let logged = with(headed, log_command(alloc));
    let drawn = with(
        logged,
        file_command(
            alloc,
            "graph",
            "Prints the changes as a graph in DOT, for Graphviz: an edge to each dependency, heads with a thick border",
            "Example:\n  textpeer graph notes.journal | dot -Tsvg > changes.svg",
        ),
    );
    let compared = with(drawn, diff_command(alloc));
    let described = with(
        compared,
        file_command(
            alloc,
            "status",
            "Prints what a journal has: document, changes, authors, characters, heads, bytes; and which process has it open",
            "Example:\n  textpeer status notes.journal",
        ),
    );
    let found = with(described, cursor_command(alloc));
    with(
        found,
        file_command(
            alloc,
            "check",
            "Says how much of a journal is intact, and what follows that: a fault with its place, and whole changes",
            "Example:\n  textpeer check notes.journal",
        ),
    )
}

// The program with one more command, where both could be made.
fn with<'a>(
    program: Result<Command<'a>, AllocError>,
    command: Result<Command<'a>, AllocError>,
) -> Result<Command<'a>, AllocError>
    ensures { (p : App) → (s : Shape)
        → IfOk program.entry (λ c. app_of c ≡ p)
        → IfOk command.entry (IsLeaf s)
        → IfOk result (λ c. app_of c ≡ with_subcommand p s) }
{
    program?.subcommand(command?)
}

// The program with no command.
fn program<'a>(alloc: Global) -> Command<'a>
    ensures { app_of result ≡ bare_app }
{
    Command::new(alloc, "textpeer")
        .version("0.1.0")
        .about("Keeps a text in step between peers")
        .after_help(ANYWHERE)
        .disable_help_subcommand(true)
        .subcommand_required(true)
}

// A value that has to be given, by its place.
fn required_argument<'a>(alloc: Global, id: &'a str, help: &'a str) -> Arg<'a>
    ensures rule { rule_of result ≡ required_rule id.entry.now }
    ensures local { result.global ≡ false }
{
    Arg::new(alloc, id)
        .help(help)
        .required(true)
        .action(ArgAction::Set)
}

// The journal that a command is about.
fn journal<'a>(alloc: Global) -> Arg<'a>
    ensures rule { rule_of result ≡ required_rule (codes "FILE") }
    ensures local { result.global ≡ false }
{
    required_argument(alloc, "FILE", "a journal")
}

// An option with a value.
fn option<'a>(alloc: Global, id: &'a str, value: &'a str, help: &'a str) -> Arg<'a>
    ensures rule { rule_of result ≡ option_rule id.entry.now }
    ensures local { result.global ≡ false }
{
    Arg::new(alloc, id)
        .long(id)
        .value_name(value)
        .help(help)
        .action(ArgAction::Set)
}

// The heads of a text.
fn hashes<'a>(alloc: Global, help: &'a str) -> Arg<'a>
    ensures rule { rule_of result ≡ several (codes "HASH") }
    ensures local { result.global ≡ false }
{
    Arg::new(alloc, "HASH")
        .help(help)
        .num_args(1..)
        .action(ArgAction::Append)
}

// The heads of an earlier text, which have to be given.
fn earlier_heads<'a>(alloc: Global) -> Arg<'a>
    ensures rule { rule_of result ≡ mandatory (several (codes "HASH")) }
    ensures local { result.global ≡ false }
{
    hashes(alloc, "the heads of the earlier text").required(true)
}

// The key of the generator.
fn key<'a>(alloc: Global) -> Arg<'a>
    ensures rule { rule_of result ≡ option_rule (codes "key") }
    ensures local { result.global ≡ false }
{
    option(
        alloc,
        "key",
        "HEX",
        "the seed of the random numbers, in 64 hexadecimal digits; from /dev/urandom if left out. It encrypts nothing",
    )
}

// A place in a text, which is a number.
fn position<'a>(alloc: Global) -> Arg<'a>
    ensures rule { rule_of result ≡ numeric (required_rule (codes "AT")) }
    ensures local { result.global ≡ false }
{
    required_argument(
        alloc,
        "AT",
        "the position of a character in the text at the heads, from 0",
    )
    .value_parser(value_parser!(u64))
}

// A number that has to be given by its name.
fn count<'a>(alloc: Global, id: &'a str, help: &'a str) -> Arg<'a>
    ensures rule { rule_of result ≡ mandatory (numeric (option_rule id.entry.now)) }
    ensures local { result.global ≡ false }
{
    option(alloc, id, "N", help)
        .value_parser(value_parser!(u64))
        .required(true)
}

fn text<'a>(alloc: Global) -> Arg<'a>
    ensures rule { rule_of result ≡ option_rule (codes "text") }
    ensures local { result.global ≡ false }
{
    let help = "the text that is inserted there; a text that begins with - is written as --text=-x";
    option(alloc, "text", "T", help)
}

// The file of a text.
fn text_file<'a>(alloc: Global) -> Arg<'a>
    ensures rule { rule_of result ≡ option_rule (codes "text-file") }
    ensures local { result.global ≡ false }
{
    let help = "in place of --text, a file of the text; - is the standard input";
    option(alloc, "text-file", "F", help)
}

fn time<'a>(alloc: Global) -> Arg<'a>
    ensures rule { rule_of result ≡ time_rule }
    ensures local { result.global ≡ false }
{
    option(alloc, "time", "N", "the time of the change")
        .value_parser(value_parser!(u64))
        .default_value("0")
}

// How many sessions are held.
fn sessions<'a>(alloc: Global, help: &'a str) -> Arg<'a>
    ensures rule { rule_of result ≡ sessions_rule }
    ensures local { result.global ≡ false }
{
    option(alloc, "sessions", "N", help)
        .value_parser(value_parser!(u64))
        .default_value("18446744073709551615")
        .hide_default_value(true)
}

// How many sessions a server holds at once.
fn workers<'a>(alloc: Global) -> Arg<'a>
    ensures rule { rule_of result ≡ workers_rule }
    ensures local { result.global ≡ false }
{
    option(
        alloc,
        "workers",
        "N",
        "how many sessions are held at once, 1 to 64; with 64 they are 63",
    )
    .value_parser(ValueParser::unsigned(1, 64))
    .default_value("2")
}

// How many seconds the other side of a session may say nothing.
fn patience<'a>(alloc: Global) -> Arg<'a>
    ensures rule { rule_of result ≡ patience_rule }
    ensures local { result.global ≡ false }
{
    option(
        alloc,
        "patience",
        "SECONDS",
        "how many seconds the other side may say nothing before its session ends, up to 86400; for ever if 0",
    )
    .value_parser(ValueParser::unsigned(0, 86400))
    .default_value("30")
}

// How many seconds the lock of the journal is waited for.
fn wait<'a>(alloc: Global) -> Arg<'a>
    ensures rule { rule_of result ≡ wait_rule }
    ensures local { result.global ≡ false }
{
    option(
        alloc,
        "wait",
        "SECONDS",
        "how many seconds to wait for FILE's lock where another program has it, up to 86400; not at all if 0",
    )
    .value_parser(ValueParser::unsigned(0, 86400))
    .default_value("5")
}

// How many seconds pass between two sessions, where there is more than one.
fn follow<'a>(alloc: Global) -> Arg<'a>
    ensures rule { rule_of result ≡ follow_rule }
    ensures local { result.global ≡ false }
{
    option(
        alloc,
        "follow",
        "SECONDS",
        "goes on with one session after another, SECONDS apart, 1 to 86400; 5 if none are given",
    )
    .num_args(0..=1)
    .value_parser(ValueParser::unsigned(1, 86400))
    .default_missing_value("5")
}

// How often a mirror looks, where it goes on.
fn every<'a>(alloc: Global) -> Arg<'a>
    ensures rule { rule_of result ≡ every_rule }
    ensures local { result.global ≡ false }
{
    option(
        alloc,
        "every",
        "SECONDS",
        "goes on, and looks again each SECONDS, 1 to 86400; each second if none are given",
    )
    .num_args(0..=1)
    .value_parser(ValueParser::unsigned(1, 86400))
    .default_missing_value("1")
}

// An option without a value.
fn flag<'a>(alloc: Global, id: &'a str, help: &'a str) -> Arg<'a>
    ensures rule { rule_of result ≡ flag_rule id.entry.now }
    ensures local { result.global ≡ false }
{
    Arg::new(alloc, id)
        .long(id)
        .help(help)
        .action(ArgAction::SetTrue)
}

// Whether a text is printed as it is.
fn raw<'a>(alloc: Global) -> Arg<'a>
    ensures rule { rule_of result ≡ flag_rule (codes "raw") }
    ensures local { result.global ≡ false }
{
    flag(
        alloc,
        "raw",
        "prints no newline after the text, as for a file that textpeer update reads",
    )
}

// How many of the newest changes.
fn most<'a>(alloc: Global) -> Arg<'a>
    ensures rule { rule_of result ≡ most_rule }
    ensures local { result.global ≡ false }
{
    option(alloc, "most", "N", "the newest N changes only")
        .value_parser(value_parser!(u64))
        .default_value("18446744073709551615")
        .hide_default_value(true)
}

fn message<'a>(alloc: Global) -> Arg<'a>
    ensures rule { rule_of result ≡ message_rule }
    ensures local { result.global ≡ false }
{
    option(
        alloc,
        "message",
        "M",
        "the message of the change; empty if left out",
    )
    .default_value("")
    .hide_default_value(true)
}

// A command with what it does, and an example, and with no argument yet.
fn bare_command<'a>(alloc: Global, name: &'a str, about: &'a str, example: &'a str) -> Command<'a>
    ensures { IsLeaf (with_rules name.entry.now []) result }
{
    Command::new(alloc, name).about(about).after_help(example)
}

// A command with one value, which has to be given.
fn value_command<'a>(
    alloc: Global,
    name: &'a str,
    about: &'a str,
    example: &'a str,
    id: &'a str,
    help: &'a str,
) -> Result<Command<'a>, AllocError>
    ensures { IfOk result (IsLeaf (with_rules name.entry.now (required_rule id.entry.now ∷ []))) }
{
    bare_command(alloc, name, about, example).arg(required_argument(alloc, id, help))
}

// A command on a journal alone.
fn file_command<'a>(
    alloc: Global,
    name: &'a str,
    about: &'a str,
    example: &'a str,
) -> Result<Command<'a>, AllocError>
    ensures { IfOk result (IsLeaf (with_rules name.entry.now (file_rule ∷ []))) }
{
    value_command(alloc, name, about, example, "FILE", "a journal")
}

// A command on a journal, with one more value, which has to be given.
fn pair_command<'a>(
    alloc: Global,
    name: &'a str,
    about: &'a str,
    example: &'a str,
    id: &'a str,
    help: &'a str,
) -> Result<Command<'a>, AllocError>
    ensures { IfOk result (IsLeaf
        (with_rules name.entry.now (file_rule ∷ required_rule id.entry.now ∷ []))) }
{
    file_command(alloc, name, about, example)?.arg(required_argument(alloc, id, help))
}

fn new_command<'a>(alloc: Global) -> Result<Command<'a>, AllocError>
    ensures { IfOk result (IsLeaf new_shape) }
{
    file_command(
        alloc,
        "new",
        "Begins a journal, and prints the identifier of its document",
        "Example:\n  textpeer new notes.journal",
    )?
    .arg(wait(alloc))?
    .arg(key(alloc))
}

// `edit` with the place of the edit.
fn edit_at<'a>(alloc: Global) -> Result<Command<'a>, AllocError>
    ensures { IfOk result (IsLeaf edit_at_shape) }
{
    file_command(
        alloc,
        "edit",
        "Makes one change, and prints its hash, or `nothing` where it changes nothing",
        "Example:\n  textpeer edit notes.journal --at 0 --del 0 --text 'Hello, world!'",
    )?
    .arg(count(alloc, "at", "the position, in characters from 0"))?
    .arg(count(
        alloc,
        "del",
        "how many characters are deleted from the position on",
    ))
}

fn edit_command<'a>(alloc: Global) -> Result<Command<'a>, AllocError>
    ensures { IfOk result (IsLeaf edit_shape) }
{
    edit_at(alloc)?
        .arg(text(alloc))?
        .arg(text_file(alloc))?
        .arg(time(alloc))?
        .arg(message(alloc))?
        .arg(wait(alloc))?
        .arg(key(alloc))
}

// A command on a journal, with a text in a file.
fn whole_text_command<'a>(
    alloc: Global,
    name: &'a str,
    about: &'a str,
    example: &'a str,
) -> Result<Command<'a>, AllocError>
    ensures { IfOk result (IsLeaf (whole_text_shape name.entry.now)) }
{
    pair_command(
        alloc,
        name,
        about,
        example,
        "TEXT",
        "a file of text; - is the standard input",
    )?
    .arg(time(alloc))?
    .arg(message(alloc))?
    .arg(wait(alloc))?
    .arg(key(alloc))
}

// The heads of the text that a file was taken from.
fn since<'a>(alloc: Global) -> Arg<'a>
    ensures rule { rule_of result ≡ list_rule (codes "since") }
    ensures local { result.global ≡ false }
{
    option(
        alloc,
        "since",
        "HASH",
        "the heads at which the file was taken out, as the last words of the line: what came since stays. If left out, what the file lacks is deleted",
    )
    .num_args(1..)
    .action(ArgAction::Append)
}

fn update_command<'a>(alloc: Global) -> Result<Command<'a>, AllocError>
    ensures { IfOk result (IsLeaf update_shape) }
{
    whole_text_command(
        alloc,
        "update",
        "Makes the journal's text equal to that of a file, by the differences between them, and prints the hash of each change, or `nothing` where they are equal",
        "Example:\n  textpeer heads notes.journal >notes.heads\n  textpeer text notes.journal --raw >notes.txt\n  \
         textpeer update notes.journal notes.txt --since $(cat notes.heads)",
    )?
    .arg(since(alloc))
}

// Which text counts at the first use.
fn take<'a>(alloc: Global) -> Arg<'a>
    ensures rule { rule_of result ≡ option_rule (codes "take") }
    ensures local { result.global ≡ false }
{
    option(
        alloc,
        "take",
        "SIDE",
        "which text counts at the first use, where the two differ: text, and the journal's stays in its history; or journal, and \
         NOTE's is kept as NOTE.before",
    )
}

fn mirror_command<'a>(alloc: Global) -> Result<Command<'a>, AllocError>
    ensures { IfOk result (IsLeaf mirror_shape) }
{
    pair_command(
        alloc,
        "mirror",
        "Brings a text file and a journal in step: what an editor saved is merged into the journal, and then the file has the journal's text",
        "Example:\n  textpeer mirror notes.journal notes.txt\n  textpeer mirror notes.journal notes.txt --every",
        "NOTE",
        "a text file, which any editor writes; it is made where there is none",
    )?
    .arg(take(alloc))?
    .arg(every(alloc))?
    .arg(server(alloc))?
    .arg(wait(alloc))?
    .arg(key(alloc))
}

fn text_command<'a>(alloc: Global) -> Result<Command<'a>, AllocError>
    ensures { IfOk result (IsLeaf text_shape) }
{
    file_command(
        alloc,
        "text",
        "Prints the text, as it is now or at earlier heads",
        "Example:\n  textpeer text notes.journal",
    )?
    .arg(raw(alloc))?
    .arg(hashes(
        alloc,
        "the heads at which the text is read; as it is now if left out",
    ))
}

fn log_command<'a>(alloc: Global) -> Result<Command<'a>, AllocError>
    ensures { IfOk result (IsLeaf log_shape) }
{
    file_command(
        alloc,
        "log",
        "Prints a line for each change: hash, actor, sequence number, time, \
         inserted and deleted characters, message",
        "Example:\n  textpeer log notes.journal --pretty --most 10",
    )?
    .arg(flag(
        alloc,
        "pretty",
        "for people: the newest first, short hashes and actors, dates (UTC) of times that are seconds since 1970",
    ))?
    .arg(most(alloc))
}

// The heads of a later text, each after the option's name.
fn later_heads<'a>(alloc: Global) -> Arg<'a>
    ensures rule { rule_of result ≡ options_rule (codes "to") }
    ensures local { result.global ≡ false }
{
    option(
        alloc,
        "to",
        "HASH",
        "a head of the later text, once for each; as it is now if left out",
    )
    .action(ArgAction::Append)
}

// How many lines are printed before and after those that differ.
fn context<'a>(alloc: Global) -> Arg<'a>
    ensures rule { rule_of result ≡ context_rule }
    ensures local { result.global ≡ false }
{
    option(
        alloc,
        "unified",
        "N",
        "prints N lines before and after those that differ too, for `patch` with names of the texts",
    )
    .short('U')
    .value_parser(value_parser!(u64))
}

// Whether the lines that differ are printed with marks within them.
fn words<'a>(alloc: Global) -> Arg<'a>
    ensures rule { rule_of result ≡ flag_rule (codes "words") }
    ensures local { result.global ≡ false }
{
    flag(
        alloc,
        "words",
        "prints each line that differs once, with [-what went-] and {+what came+} in their places",
    )
}

fn diff_command<'a>(alloc: Global) -> Result<Command<'a>, AllocError>
    ensures { IfOk result (IsLeaf diff_shape) }
{
    file_command(
        alloc,
        "diff",
        "Prints which lines of an earlier text became which of a later one, by what was really typed and deleted",
        "Example:\n  textpeer diff notes.journal $(textpeer heads notes.journal)\n  \
         textpeer diff notes.journal $(cat notes.heads) -U 3 | patch notes.txt\n  \
         textpeer diff notes.journal $(cat notes.heads) --words",
    )?
    .arg(hashes(
        alloc,
        "the heads of the earlier text; the empty text of the beginning if left out",
    ))?
    .arg(later_heads(alloc))?
    .arg(context(alloc))?
    .arg(words(alloc))
}

fn cursor_command<'a>(alloc: Global) -> Result<Command<'a>, AllocError>
    ensures { IfOk result (IsLeaf cursor_shape) }
{
    file_command(
        alloc,
        "cursor",
        "Prints where a character of the text at earlier heads is now",
        "Example:\n  textpeer cursor notes.journal 3 $(textpeer heads notes.journal)",
    )?
    .arg(position(alloc))?
    .arg(earlier_heads(alloc))
}

fn merge_command<'a>(alloc: Global) -> Result<Command<'a>, AllocError>
    ensures { IfOk result (IsLeaf merge_shape) }
{
    pair_command(
        alloc,
        "merge",
        "Takes the changes of another journal of the document, and prints how many entered",
        "Example:\n  textpeer merge notes.journal copy.journal",
        "OTHER",
        "the journal that has the changes; it isn't written",
    )?
    .arg(wait(alloc))?
    .arg(key(alloc))
}

// The journal that `recover` makes.
fn made_journal<'a>(alloc: Global) -> Arg<'a>
    ensures rule { rule_of result ≡ optional_rule (codes "OUT") }
    ensures local { result.global ≡ false }
{
    Arg::new(alloc, "OUT")
        .help("the journal that is made; refused if a file of that name exists")
        .action(ArgAction::Set)
}

// Other files that `recover` looks through, each after the option's name.
fn other_file<'a>(alloc: Global) -> Arg<'a>
    ensures rule { rule_of result ≡ options_rule (codes "with") }
    ensures local { result.global ≡ false }
{
    option(
        alloc,
        "with",
        "OTHER",
        "another file whose whole changes enter too, once for each: what was cut off, or a copy of the journal",
    )
    .action(ArgAction::Append)
}

fn recover_command<'a>(alloc: Global) -> Result<Command<'a>, AllocError>
    ensures { IfOk result (IsLeaf recover_shape) }
{
    file_command(
        alloc,
        "recover",
        "Makes a journal of all that can be had of a damaged one, and says how many changes that is and which bytes gave none",
        "Example:\n  textpeer recover notes.journal whole.journal\n  textpeer recover notes.journal whole.journal --with copy.journal",
    )?
    .arg(made_journal(alloc))?
    .arg(other_file(alloc))?
    .arg(flag(
        alloc,
        "texts",
        "makes no journal, and prints what the whole changes inserted, in their order: a last resort",
    ))
}

fn load_command<'a>(alloc: Global) -> Result<Command<'a>, AllocError>
    ensures { IfOk result (IsLeaf load_shape) }
{
    value_command(
        alloc,
        "load",
        "Makes a journal of a saved file",
        "Example:\n  textpeer load notes.saved notes.journal",
        "SAVED",
        "a saved file",
    )?
    .arg(journal(alloc))?
    .arg(wait(alloc))
}

// Which text file is kept beside a journal that is served.
fn note_beside<'a>(alloc: Global) -> Arg<'a>
    ensures rule { rule_of result ≡ option_rule (codes "mirror") }
    ensures local { result.global ≡ false }
{
    option(
        alloc,
        "mirror",
        "NOTE",
        "keeps this text file and FILE in step meanwhile, as mirror does",
    )
}

fn serve_command<'a>(alloc: Global) -> Result<Command<'a>, AllocError>
    ensures { IfOk result (IsLeaf serve_shape) }
{
    pair_command(
        alloc,
        "serve",
        "Serves a journal: prints `listening PORT` once it listens, then holds sessions until it is ended",
        "Example:\n  textpeer serve notes.journal 127.0.0.1:7000",
        "ADDR",
        "the address to listen on, as IP:PORT or HOST:PORT; with port 0 a free one is taken",
    )?
    .arg(sessions(
        alloc,
        "how many sessions are held; then it ends. If left out it serves until it is ended",
    ))?
    .arg(workers(alloc))?
    .arg(patience(alloc))?
    .arg(flag(
        alloc,
        "verbose",
        "prints a line on the standard error for each session as it ends",
    ))?
    .arg(note_beside(alloc))?
    .arg(take(alloc))?
    .arg(wait(alloc))?
    .arg(key(alloc))
}

fn sync_command<'a>(alloc: Global) -> Result<Command<'a>, AllocError>
    ensures { IfOk result (IsLeaf sync_shape) }
{
    pair_command(
        alloc,
        "sync",
        "Exchanges changes with a server of the document, and prints how many entered here",
        "Example:\n  textpeer sync copy.journal 127.0.0.1:7000",
        "ADDR",
        "the address of the server, as IP:PORT or HOST:PORT",
    )?
    .arg(follow(alloc))?
    .arg(sessions(
        alloc,
        "with --follow: how many sessions are held; then it ends. If left out it goes on until it is ended",
    ))?
    .arg(patience(alloc))?
    .arg(option(
        alloc,
        "mirror",
        "NOTE",
        "goes on as with --follow, and brings this text file and FILE in step before each session, as mirror does",
    ))?
    .arg(take(alloc))?
    .arg(wait(alloc))?
    .arg(key(alloc))
}

fn session_command<'a>(alloc: Global) -> Result<Command<'a>, AllocError>
    ensures { IfOk result (IsLeaf session_shape) }
{
    file_command(
        alloc,
        "session",
        "Holds one session over the standard input and output, and says on the standard error how many changes entered here. \
         It waits for the other side without a time limit",
        "Example:\n  mkfifo back\n  textpeer session copy.journal --client <back | ssh host textpeer session notes.journal >back",
    )?
    .arg(flag(
        alloc,
        "client",
        "holds the client's side; the server's if left out",
    ))?
    .arg(wait(alloc))?
    .arg(key(alloc))
}

// The address of a page.
fn page<'a>(alloc: Global) -> Arg<'a>
    ensures rule { rule_of result ≡ page_rule }
    ensures local { result.global ≡ false }
{
    Arg::new(alloc, "PAGE")
        .help(
            "the address of the page, as IP:PORT of this machine; with port 0 a free one is taken",
        )
        .action(ArgAction::Set)
        .default_value("127.0.0.1:7117")
}

// Which server is followed.
fn server<'a>(alloc: Global) -> Arg<'a>
    ensures rule { rule_of result ≡ server_rule }
    ensures local { result.global ≡ false }
{
    Arg::new(alloc, "server")
        .long("follow")
        .value_name("ADDR")
        .help(
            "exchanges changes each second with the server at this address, as IP:PORT or HOST:PORT",
        )
        .action(ArgAction::Set)
}

fn web_command<'a>(alloc: Global) -> Result<Command<'a>, AllocError>
    ensures { IfOk result (IsLeaf web_shape) }
{
    file_command(
        alloc,
        "web",
        "Serves a journal as a web page, in whose windows several people write: prints its address, and goes on until it is ended",
        "Example:\n  textpeer web notes.journal",
    )?
    .arg(page(alloc))?
    .arg(option(
        alloc,
        "serve",
        "ADDR",
        "serves the journal beside the page too, at this address, as IP:PORT or HOST:PORT, and prints the port",
    ))?
    .arg(server(alloc))?
    .arg(note_beside(alloc))?
    .arg(take(alloc))?
    .arg(wait(alloc))?
    .arg(key(alloc))
}
