//! The command line as `clap` knows it: the subcommands, their words and their options. What was found is read in
//! the module of the request.

ghost use Rattle.std.specs.Prelude.{◌≡◌, IfOk, false};
ghost use Rattle.clap.specs.Words.{app_of, rule_of, with_rule, with_subcommand};
ghost use Rattle.clap.specs.declared.builder.command.Command.TheViews.{out-Command as fields_of};
ghost use Rattle.cmd_words.specs.Program.{copying, loading, logging, making, needed, option, program, recording, replaying, running, showing, upgrading, word};

use base_types::NoMemory;
use clap::{Arg, ArgAction, Command};
use std::alloc::Global;

/// The name of the command that records a script.
pub const RECORD: &str = "record";

/// The name of its number of blocks.
pub const BLOCKS: &str = "blocks";

/// The name of its number of journal blocks.
pub const JOURNAL: &str = "journal";

/// The name of its number of nodes.
pub const NODES: &str = "nodes";

/// The name of its rule of notices.
pub const NOTICES: &str = "notices";

/// The name of its room for writes.
pub const ROOM: &str = "room";

/// The name of its write that fails.
pub const FAIL: &str = "fail";

/// The name of its layout.
pub const LAYOUT: &str = "layout";

/// The name of the command that replays a trace.
pub const REPLAY: &str = "replay";

/// The name of its moment.
pub const AT: &str = "at";

/// The name of its list of writes that stand.
pub const STAND: &str = "stand";

/// The name of its list of writes that are torn.
pub const TEAR: &str = "tear";

/// The name of the command that shows the tree of an image.
pub const TREE: &str = "tree";

/// The name of the image of a command.
pub const IMAGE: &str = "image";

/// The name of the command that makes an image.
pub const MKFS: &str = "mkfs";

/// The name of the command that runs a script on an image.
pub const RUN: &str = "run";

/// The name of the image that is kept alike in a run.
pub const MIRROR: &str = "mirror";

/// The name of the command that copies an image.
pub const COPY: &str = "copy";

/// The name of the image that it makes.
pub const OTHER: &str = "other";

/// The name of the command that makes the tree of an image again on a new one, which has layout 2.
pub const UPGRADE: &str = "upgrade";

/// The name of the command that asks for a load.
pub const LOAD: &str = "load";

/// The name of its seed.
pub const SEED: &str = "seed";

/// The name of its number of commands.
pub const COUNT: &str = "count";

/// The name of the command that serves the log of an application.
pub const APPLOG: &str = "applog";

/// The whole command line. It has no help, since `clap` is never to print.
///
/// # Errors
/// Out of memory.
pub fn program<'a>(alloc: Global) -> Result<Command<'a>, NoMemory>
    ensures { IfOk result (λ command. app_of command ≡ program) }
{
    let line = Command::new(alloc, "optfs")
        .no_binary_name(true)
        .disable_help_flag(true)
        .disable_help_subcommand(true)
        .subcommand_required(true);
    let line = with_record(alloc, line)?;
    let line = with_replay(alloc, line)?;
    let line = with_tree(alloc, line)?;
    let line = with_mkfs(alloc, line)?;
    let line = with_run(alloc, line)?;
    let line = with_load(alloc, line)?;
    let line = with_copy(alloc, line)?;
    let line = with_applog(alloc, line)?;
    let line = with_upgrade(alloc, line)?;
    Ok(line)
}

/// This command line with `record`.
fn with_record<'a>(alloc: Global, line: Command<'a>) -> Result<Command<'a>, NoMemory>
    ensures { IfOk result (λ command. app_of command ≡ with_subcommand (app_of line.entry) recording.top) }
{
    let recording = record_command(alloc)?;
    let command = line.subcommand(recording)?;
    Ok(command)
}

/// This command line with `replay`.
fn with_replay<'a>(alloc: Global, line: Command<'a>) -> Result<Command<'a>, NoMemory>
    ensures { IfOk result (λ command. app_of command ≡ with_subcommand (app_of line.entry) replaying.top) }
{
    let replaying = replay_command(alloc)?;
    let command = line.subcommand(replaying)?;
    Ok(command)
}

/// This command line with `tree`.
fn with_tree<'a>(alloc: Global, line: Command<'a>) -> Result<Command<'a>, NoMemory>
    ensures { IfOk result (λ command. app_of command ≡ with_subcommand (app_of line.entry) showing.top) }
{
    let showing = tree_command(alloc)?;
    let command = line.subcommand(showing)?;
    Ok(command)
}

/// This command line with `mkfs`.
fn with_mkfs<'a>(alloc: Global, line: Command<'a>) -> Result<Command<'a>, NoMemory>
    ensures { IfOk result (λ command. app_of command ≡ with_subcommand (app_of line.entry) making.top) }
{
    let making = mkfs_command(alloc)?;
    let command = line.subcommand(making)?;
    Ok(command)
}

/// This command line with `run`.
fn with_run<'a>(alloc: Global, line: Command<'a>) -> Result<Command<'a>, NoMemory>
    ensures { IfOk result (λ command. app_of command ≡ with_subcommand (app_of line.entry) running.top) }
{
    let running = run_command(alloc)?;
    let command = line.subcommand(running)?;
    Ok(command)
}

/// This command line with `load`.
fn with_load<'a>(alloc: Global, line: Command<'a>) -> Result<Command<'a>, NoMemory>
    ensures { IfOk result (λ command. app_of command ≡ with_subcommand (app_of line.entry) loading.top) }
{
    let loading = load_command(alloc)?;
    let command = line.subcommand(loading)?;
    Ok(command)
}

/// This command line with `copy`.
fn with_copy<'a>(alloc: Global, line: Command<'a>) -> Result<Command<'a>, NoMemory>
    ensures { IfOk result (λ command. app_of command ≡ with_subcommand (app_of line.entry) copying.top) }
{
    let copying = copy_command(alloc)?;
    let command = line.subcommand(copying)?;
    Ok(command)
}

/// This command line with `applog`.
fn with_applog<'a>(alloc: Global, line: Command<'a>) -> Result<Command<'a>, NoMemory>
    ensures { IfOk result (λ command. app_of command ≡ with_subcommand (app_of line.entry) logging.top) }
{
    let logging = applog_command(alloc)?;
    let command = line.subcommand(logging)?;
    Ok(command)
}

/// This command line with `upgrade`.
fn with_upgrade<'a>(alloc: Global, line: Command<'a>) -> Result<Command<'a>, NoMemory>
    ensures { IfOk result (λ command. app_of command ≡ with_subcommand (app_of line.entry) upgrading.top) }
{
    let upgrading = upgrade_command(alloc)?;
    let command = line.subcommand(upgrading)?;
    Ok(command)
}

/// The command `record`.
fn record_command<'a>(alloc: Global) -> Result<Command<'a>, NoMemory>
    ensures app { IfOk result (λ command. app_of command ≡ recording) }
    ensures local { IfOk result (λ command. (fields_of command).has_globals ≡ false) }
{
    let command = Command::new(alloc, RECORD);
    let command = with_word(alloc, command, BLOCKS)?;
    let command = with_word(alloc, command, JOURNAL)?;
    let command = with_word(alloc, command, NODES)?;
    let command = with_option(alloc, command, NOTICES)?;
    let command = with_option(alloc, command, ROOM)?;
    let command = with_option(alloc, command, FAIL)?;
    let command = with_option(alloc, command, LAYOUT)?;
    Ok(command)
}

/// The command `replay`.
fn replay_command<'a>(alloc: Global) -> Result<Command<'a>, NoMemory>
    ensures app { IfOk result (λ command. app_of command ≡ replaying) }
    ensures local { IfOk result (λ command. (fields_of command).has_globals ≡ false) }
{
    let command = Command::new(alloc, REPLAY);
    let command = with_needed(alloc, command, AT)?;
    let command = with_option(alloc, command, STAND)?;
    let command = with_option(alloc, command, TEAR)?;
    Ok(command)
}

/// The command `tree`.
fn tree_command<'a>(alloc: Global) -> Result<Command<'a>, NoMemory>
    ensures app { IfOk result (λ command. app_of command ≡ showing) }
    ensures local { IfOk result (λ command. (fields_of command).has_globals ≡ false) }
{
    let command = Command::new(alloc, TREE);
    let command = with_word(alloc, command, IMAGE)?;
    Ok(command)
}

/// The command `mkfs`.
fn mkfs_command<'a>(alloc: Global) -> Result<Command<'a>, NoMemory>
    ensures app { IfOk result (λ command. app_of command ≡ making) }
    ensures local { IfOk result (λ command. (fields_of command).has_globals ≡ false) }
{
    let command = Command::new(alloc, MKFS);
    let command = with_word(alloc, command, IMAGE)?;
    let command = with_word(alloc, command, BLOCKS)?;
    let command = with_word(alloc, command, JOURNAL)?;
    let command = with_word(alloc, command, NODES)?;
    let command = with_option(alloc, command, LAYOUT)?;
    Ok(command)
}

/// The command `run`.
fn run_command<'a>(alloc: Global) -> Result<Command<'a>, NoMemory>
    ensures app { IfOk result (λ command. app_of command ≡ running) }
    ensures local { IfOk result (λ command. (fields_of command).has_globals ≡ false) }
{
    let command = Command::new(alloc, RUN);
    let command = with_word(alloc, command, IMAGE)?;
    let command = with_option(alloc, command, MIRROR)?;
    Ok(command)
}

/// The command `load`.
fn load_command<'a>(alloc: Global) -> Result<Command<'a>, NoMemory>
    ensures app { IfOk result (λ command. app_of command ≡ loading) }
    ensures local { IfOk result (λ command. (fields_of command).has_globals ≡ false) }
{
    let command = Command::new(alloc, LOAD);
    let command = with_needed(alloc, command, SEED)?;
    let command = with_needed(alloc, command, COUNT)?;
    Ok(command)
}

/// The command `copy`.
fn copy_command<'a>(alloc: Global) -> Result<Command<'a>, NoMemory>
    ensures app { IfOk result (λ command. app_of command ≡ copying) }
    ensures local { IfOk result (λ command. (fields_of command).has_globals ≡ false) }
{
    let command = Command::new(alloc, COPY);
    let command = with_word(alloc, command, IMAGE)?;
    let command = with_word(alloc, command, OTHER)?;
    Ok(command)
}

/// The command `applog`.
fn applog_command<'a>(alloc: Global) -> Result<Command<'a>, NoMemory>
    ensures app { IfOk result (λ command. app_of command ≡ logging) }
    ensures local { IfOk result (λ command. (fields_of command).has_globals ≡ false) }
{
    let command = Command::new(alloc, APPLOG);
    let command = with_word(alloc, command, IMAGE)?;
    Ok(command)
}

/// The command `upgrade`.
fn upgrade_command<'a>(alloc: Global) -> Result<Command<'a>, NoMemory>
    ensures app { IfOk result (λ command. app_of command ≡ upgrading) }
    ensures local { IfOk result (λ command. (fields_of command).has_globals ≡ false) }
{
    let command = Command::new(alloc, UPGRADE);
    let command = with_word(alloc, command, IMAGE)?;
    let command = with_word(alloc, command, OTHER)?;
    let command = with_word(alloc, command, BLOCKS)?;
    let command = with_word(alloc, command, JOURNAL)?;
    let command = with_word(alloc, command, NODES)?;
    Ok(command)
}

/// This command with one argument more: a word that must stand.
fn with_word<'a>(alloc: Global, command: Command<'a>, id: &'a str) -> Result<Command<'a>, NoMemory>
    ensures app { IfOk result (λ more. app_of more ≡ with_rule (app_of command.entry) (word id.entry.now)) }
    ensures local { IfOk result (λ more. (fields_of more).has_globals ≡ (fields_of command.entry).has_globals) }
{
    let arg = word_arg(alloc, id);
    let more = command.arg(arg)?;
    Ok(more)
}

/// This command with one argument more: an option with one value, which may be missing.
fn with_option<'a>(
    alloc: Global,
    command: Command<'a>,
    id: &'a str,
) -> Result<Command<'a>, NoMemory>
    ensures app { IfOk result (λ more. app_of more ≡ with_rule (app_of command.entry) (option id.entry.now)) }
    ensures local { IfOk result (λ more. (fields_of more).has_globals ≡ (fields_of command.entry).has_globals) }
{
    let arg = option_arg(alloc, id);
    let more = command.arg(arg)?;
    Ok(more)
}

/// This command with one argument more: an option with one value, which must stand.
fn with_needed<'a>(
    alloc: Global,
    command: Command<'a>,
    id: &'a str,
) -> Result<Command<'a>, NoMemory>
    ensures app { IfOk result (λ more. app_of more ≡ with_rule (app_of command.entry) (needed id.entry.now)) }
    ensures local { IfOk result (λ more. (fields_of more).has_globals ≡ (fields_of command.entry).has_globals) }
{
    let arg = needed_arg(alloc, id);
    let more = command.arg(arg)?;
    Ok(more)
}

/// A word that must stand.
fn word_arg<'a>(alloc: Global, id: &'a str) -> Arg<'a>
    ensures rule { rule_of result ≡ word id.entry.now }
    ensures local { result.global ≡ false }
{
    Arg::new(alloc, id).required(true).action(ArgAction::Set)
}

/// An option with one value, which may be missing.
fn option_arg<'a>(alloc: Global, id: &'a str) -> Arg<'a>
    ensures rule { rule_of result ≡ option id.entry.now }
    ensures local { result.global ≡ false }
{
    Arg::new(alloc, id).long(id).action(ArgAction::Set)
}

/// An option with one value, which must stand.
fn needed_arg<'a>(alloc: Global, id: &'a str) -> Arg<'a>
    ensures rule { rule_of result ≡ needed id.entry.now }
    ensures local { result.global ≡ false }
{
    Arg::new(alloc, id)
        .long(id)
        .required(true)
        .action(ArgAction::Set)
}
