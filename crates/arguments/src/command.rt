//! The command line, as `clap` reads it.
ghost use Rattle.std.specs.Prelude.{◌≡◌, IfOk, codes};
ghost use Rattle.clap.specs.Words.{app_of};
ghost use Rattle.arguments.specs.Building.{IsOption, IsCommand};
ghost use Rattle.arguments.specs.CommandLine.{word_option, number_option, flag, needed, repeated, program_command, command_with, of_user, may_command, subtree_command, pairs_command, with_everybody, audit_options, audit_command, explain_command, advise_named, advise_options, advise_command, replay_command, upgrade_command, with_judgements, command_line};
ghost use Rattle.clap.specs.Simple.{Shape};

use clap::{Arg, ArgAction, Command, value_parser};
use std::alloc::{AllocError, Global};

const HELP: &str = "\
Status: 3 where the answer is a fault, whose line is the first on standard error that doesn't begin with a space; else each
command's --help tells.
`fault: usage` means that the command line isn't as --help says.
zirofen-tree(5) and zirofen(1), or docs/FORMATS.md, have the formats of trees and operations, and every line of
an answer and of a fault.
Where the package is installed, docs/ and examples/ are in /usr/share/doc/zirofen, and zirofen-host(8) describes this host.";

const MAY_HELP: &str = "\
Status: 0 granted, 1 refused, 3 a fault
Of a PATH that the tree doesn't have standard error names the nearest that it has, where one is near.
`fault: usage` means that the command line isn't as it says above; a PID that is a number up to
4294967295 and no PID is `fault: pid`.
zirofen-tree(5) and zirofen(1), or docs/FORMATS.md, have the tree's format, and every line of an answer and of a fault.

Example:
  zirofen may --tree examples/delegation.toml --uid 1000 --pid 11 --to /c0/c01
  granted";

const CHECK: &str =
    "Says whether a subtree is shown to be contained against a user, whatever they do";

const CHECK_HELP: &str = "\
Status: 0 contained, 1 escapes, 2 unsettled, 3 a fault
`contained` means that the subtree is held whatever the user does, where nobody else acts, each process runs with all its
threads in the one cgroup that the text gives, and nobody holds an entry open from before. `escapes` has below it operations
of the user, one a line, that break it in turn; none where it is broken as it stands. `unsettled` names the first guard that
fails and where it stands: nothing is shown, and none of the tries breaks anything.
`fault: usage` means that the command line isn't as it says above.
zirofen-tree(5) and zirofen(1), or docs/FORMATS.md, have the tree's format, and every line of an answer and of a fault.

Example:
  zirofen check --tree examples/delegation-limit-writable.toml --uid 1000 --subtree /c0
  escapes
  set /c0 memory.max max";

const SETTLE: &str =
    "Says whether a subtree is shown to be contained against a user, and looks further than check where that is unsettled";

const SETTLE_HELP: &str = "\
Status: 0 contained, 1 escapes, 2 unsettled, 3 a fault
What check says, to the byte, where that is `contained` or `escapes`. Where it is `unsettled`, `contained` means the same, by
a second row of guards: where others only move, fork and end processes meanwhile, the user isn't the first to break it. `escapes`
has below it operations of the user, one a line, that were planned, carried out in the tree, and break the subtree by the last;
and else `unsettled` says what check does.
`fault: usage` means that the command line isn't as it says above.
zirofen-tree(5) and zirofen(1), or docs/FORMATS.md, have the tree's format, and every line of an answer and of a fault.

Example:
  zirofen settle --tree examples/delegation-parent-directory.toml --uid 1000 --subtree /c0
  escapes
  exit 11
  rmdir /c0/c01
  rmdir /c0/c00
  rmdir /c0";

const AUDIT: &str =
    "Says whether every subtree is shown to be contained against all users, whatever they do together";

const AUDIT_HELP: &str = "\
Status: 0 contained, 1 escapes, 2 unsettled, 3 a fault
`contained` means that every subtree is held whatever all these users do, in whatever order, where nobody else acts. Else
`pair` names the first user and subtree for which that isn't shown, and below it stands what `check` says of them, with its
status.
With --all every such pair has these lines, by user and then subtree, and its line `pair` names the groups too; the status
is 1 where one escapes, else 2 where one is unsettled. Users and subtrees that are named again count once.
With --pairs it says what it says with --all, of each pair in the order in which they are named, a pair that is named again too:
a line `pair UID PATH` or `pair UID:GID,GID.. PATH` of each, one at least, among the other lines that audit writes with --all; and
neither --uid, --subtree nor --settle beside it. A subtree is contained against all who are named with it and aren't listed, together.
With --settle it is looked further where check says `unsettled`, as settle does. Users against whom a list of operations is
planned escape; where the second row of guards holds of a subtree against all others together none of these is listed with it,
and else each whom check doesn't call contained. So a subtree is contained against all with whom it isn't listed, together.
With --everybody, in place of --uid, `contained` means that every subtree is held whatever anybody but root does,
whoever there is. Else, with status 1, a line `subtree PATH` of each for which that isn't shown has below it, for each entry on which
a guard stands and each class of users that it lets in, the line `fails` of advise: `owner`, `group`, who are in its group and don't
own it, or `others`. Against all who are in no class that is listed below it a subtree is contained, unless it is over its limits.
Of everybody --but leaves whoever has a uid out, and --group says who may be in a group, nobody where no uid stands behind the sign;
both are told again below the answer, which stands on them.
A user is UID or UID:GID,GID.. in decimal digits, with up to 32 gids, of which the first is the primary one.
`fault: usage` means that the command line isn't as it says above.
zirofen-tree(5) and zirofen(1), or docs/FORMATS.md, have the tree's format, and every line of an answer and of a fault.

Example:
  zirofen audit --tree examples/delegation-second-user.toml --uid 1000 --uid 1001:1001 --subtree /c0 --subtree /c1
  pair 1001 /c0
  escapes
  set /c0 memory.max max";

const EXPLAIN: &str =
    "Says of every user and subtree what each guard asks, and by what it holds or fails";

const EXPLAIN_HELP: &str = "\
Status: 0 contained, 1 escapes, 2 unsettled, 3 a fault
Of every user and every subtree, by user and then subtree, the line `pair` names them, and below it each entry that is there
and on which a guard stands, of further limit files those that the text names, has a line `holds` or `fails`: the guard, the
cgroup, the entry with its owner and mode, and where it fails by what they reach it, `owner`, `group` or `others`. Where a
guard fails, lines follow of what the second row of guards asks: that the subtree stays, what its parent enables, its limit
files, and each cgroup to which a move over the edge of the subtree may lead. Then the two limits of the subtree have a line
each with how many there are, and last stands the first line of what settle may say.
The status is 1 where one escapes, else 2 where one is unsettled. Users and subtrees that are named again count once.
With --pairs it is told of each pair in the order in which they are named, a pair that is named again too: see audit --help.
With --everybody, in place of --uid, a line `subtree PATH` of each subtree has below it whom each of these entries lets in, whoever there
is but root, as `owner`, `group` or `others`, and its two limits; the status is 1 where a line says `fails`. See audit --help.
A user is UID or UID:GID,GID.. in decimal digits, with up to 32 gids, of which the first is the primary one.
`fault: usage` means that the command line isn't as it says above.
docs/FORMATS.md of the repository has the tree's format, and every line of an answer and of a fault.

Example:
  zirofen explain --tree examples/delegation.toml --uid 1000 --subtree /c0
  pair 1000 /c0
  holds common-ancestor / cgroup.procs 0:0 644
  holds limit-file /c0 cgroup.max.descendants 0:0 644
  holds limit-file /c0 cgroup.max.depth 0:0 644
  holds limit-file /c0 memory.min 0:0 644
  holds limit-file /c0 memory.low 0:0 644
  holds limit-file /c0 memory.high 0:0 644
  holds limit-file /c0 memory.max 0:0 644
  holds parent-control / cgroup.subtree_control 0:0 644
  holds parent-dir / dir 0:0 755
  holds already-over /c0 cgroup.max.descendants 2 4
  holds already-over /c0 cgroup.max.depth 1 2
  contained";

const REPLAY_HELP: &str = "\
Each operation is tried in the tree that those before it leave, up to the first line that is none. With --subtree a last line
says `kept`, or `broken` with the step and what it broke of the subtree.
Status: 0 where the operations came to their end, and with --subtree kept it, 1 where they broke it, 3 a fault
`fault: usage` means that the command line isn't as it says above.
zirofen-tree(5) and zirofen(1), or docs/FORMATS.md, have the formats of the tree and of operations, and every line
of an answer and of a fault.

Example:
  zirofen replay --tree examples/host-service-chown.toml --uid 890 --gid 890 --ops examples/host-service-chown.ops
  ok
  ok";

const ADVISE_HELP: &str = "\
Status: 0 contained, 1 a guard fails, 3 a fault
`contained` means that every subtree is held whatever all these users do, in whatever order, where nobody else acts. Else each
entry that lets one of them in has a line `fails` with the guard, where it stands, its owner, its mode and by what they reach
it: `owner`, `group` or `others`, a line for each. Below stand the changes that mend it for all of them, and at the end those of
limits. With all of them made every subtree is contained against every user; ask again after changes that were asked apart.
With --pairs each subtree is asked about the users alone who are named with it: a line `pair UID PATH` or `pair UID:GID,GID.. PATH`
of each pair, one at least, among the other lines that audit writes with --all; and none of --uid, --gid and --subtree beside it.
Where audit has no pair to list its text is the one line `contained`, and so is the answer to that.
With --settle, which isn't for pairs, it says `contained` too where the second row of guards holds of each subtree against all
users together: a guard fails then, and nothing has to be changed all the same; see settle --help.
With --everybody, in place of --uid, it is told what to change so that no subtree can be broken by anybody but root, whoever there is;
see audit --help for whom --but and --group leave out. Whoever is meant to have an entry is named by --but.
Don't follow it where a user is meant to have what is named, since it was handed to them: then the question was the wrong one.
An owner that a service manager sets comes back with the unit: change the unit.
A user is UID or UID:GID,GID.. in decimal digits, with up to 32 gids, of which the first is the primary one; of one user alone
--gid names them too. Users and subtrees that are named again count once.
`fault: usage` means that the command line isn't as it says above.
docs/FORMATS.md of the repository has the tree's format, and every line of an answer and of a fault.

Example:
  zirofen advise --tree examples/delegation-ancestor-group.toml --uid 1000 --gid 50 --subtree /c0
  fails common-ancestor / cgroup.procs 0:50 664 group
  chmod / cgroup.procs 644";

const UPGRADE_HELP: &str = "\
Status: 0 the tree is written, 3 a fault
The tree is written in format 2, or in format 4 if it was in that, with every key, but of further limit files those that it
tells of alone: what else was left out becomes visible, and two trees can be compared line by line. Unless it is longer than a
tree's text may be, it is the same tree, and upgraded again it is the same text.
`fault: usage` means that the command line isn't as it says above.
docs/FORMATS.md of the repository has the tree's format, and every line of an answer and of a fault.

Example:
  zirofen upgrade --tree examples/fault-no-parent.toml
  fault: tree no-parent cgroup 2";

/// The command line of the program.
pub(crate) fn command<'a>(alloc: Global) -> Result<Command<'a>, AllocError>
    ensures { IfOk result (λ command. app_of command ≡ command_line) }
{
    with_judgements(alloc)?
        .subcommand(explain_command(alloc)?)?
        .subcommand(advise_command(alloc)?)?
        .subcommand(replay_command(alloc)?)?
        .subcommand(upgrade_command(alloc)?)
}

/// The program with the commands that judge. A longer chain of commands takes the square of its length to prove.
fn with_judgements<'a>(alloc: Global) -> Result<Command<'a>, AllocError>
    ensures { IfOk result (λ command. app_of command ≡ with_judgements) }
{
    program_command(alloc)
        .subcommand(may_command(alloc)?)?
        .subcommand(subtree_command(alloc, "check", CHECK, CHECK_HELP)?)?
        .subcommand(subtree_command(alloc, "settle", SETTLE, SETTLE_HELP)?)?
        .subcommand(audit_command(alloc)?)
}

/// The program, without its commands.
fn program_command<'a>(alloc: Global) -> Command<'a>
    ensures { IsCommand program_command result }
{
    Command::new(alloc, "zirofen")
        .about("Checks what a user may do in a tree of cgroups")
        // which one it is, the program's uppermost crate tells
        .version("")
        .after_help(HELP)
        .subcommand_required(true)
}

/// A command that is asked of a tree and a user.
fn user_command<'a>(
    alloc: Global,
    name: &'a str,
    about: &'a str,
    help: &'a str,
) -> Result<Command<'a>, AllocError>
    ensures { IfOk result (IsCommand (command_with name.entry.now of_user)) }
{
    Command::new(alloc, name)
        .about(about)
        .after_help(help)
        .arg(tree_argument(alloc))?
        .arg(needed_number(alloc, "uid", "UID", "The user"))?
        .arg(
            number_argument(alloc, "gid", "GID")
                .action(ArgAction::Append)
                .help("A group of the user, up to 32 times; the first is the primary one"),
        )?
        .arg(format_argument(alloc))
}

fn may_command<'a>(alloc: Global) -> Result<Command<'a>, AllocError>
    ensures { IfOk result (IsCommand may_command) }
{
    let about = "Says whether a user may move a process to a cgroup";
    user_command(alloc, "may", about, MAY_HELP)?
        .arg(needed_number(alloc, "pid", "PID", "The process to be moved"))?
        .arg(
            word_argument(alloc, "to", "PATH")
                .required(true)
                .help("The cgroup that it is to be moved to"),
        )
}

/// A command that is asked of a tree, a user and a subtree.
fn subtree_command<'a>(
    alloc: Global,
    name: &'a str,
    about: &'a str,
    help: &'a str,
) -> Result<Command<'a>, AllocError>
    ensures { IfOk result (IsCommand (subtree_command name.entry.now)) }
{
    user_command(alloc, name, about, help)?.arg(
        subtree_argument(alloc)
            .required(true)
            .help("The top of the subtree"),
    )
}

/// A command that is asked of a tree, and of users and subtrees or of pairs of them.
fn pairs_command<'a>(
    alloc: Global,
    name: &'a str,
    about: &'a str,
    help: &'a str,
) -> Result<Command<'a>, AllocError>
    ensures { IfOk result (IsCommand (pairs_command name.entry.now)) }
{
    Command::new(alloc, name)
        .about(about)
        .after_help(help)
        .arg(tree_argument(alloc))?
        .arg(
            word_argument(alloc, "uid", "UID[:GID,GID..]")
                .action(ArgAction::Append)
                .help("A user and their groups, once or more"),
        )?
        .arg(
            subtree_argument(alloc)
                .action(ArgAction::Append)
                .help("The top of a subtree, once or more"),
        )?
        .arg(pairs_argument(alloc))?
        .arg(format_argument(alloc))
}

fn audit_command<'a>(alloc: Global) -> Result<Command<'a>, AllocError>
    ensures { IfOk result (IsCommand audit_command) }
{
    with_everybody(alloc, audit_options(alloc)?)
}

fn explain_command<'a>(alloc: Global) -> Result<Command<'a>, AllocError>
    ensures { IfOk result (IsCommand explain_command) }
{
    with_everybody(
        alloc,
        pairs_command(alloc, "explain", EXPLAIN, EXPLAIN_HELP)?,
    )
}

fn advise_command<'a>(alloc: Global) -> Result<Command<'a>, AllocError>
    ensures { IfOk result (IsCommand advise_command) }
{
    with_everybody(alloc, advise_options(alloc)?)
}

/// A command that may be asked of everybody, too.
fn with_everybody<'a>(alloc: Global, command: Command<'a>) -> Result<Command<'a>, AllocError>
    ensures { IfOk result (λ new. (shape : Shape) → IsCommand shape command.entry → IsCommand (with_everybody shape) new) }
{
    command
        .arg(everybody_argument(alloc))?
        .arg(subtrees_argument(alloc))?
        .arg(but_argument(alloc))?
        .arg(group_argument(alloc))
}

/// The command `audit`, but for everybody.
fn audit_options<'a>(alloc: Global) -> Result<Command<'a>, AllocError>
    ensures { IfOk result (IsCommand audit_options) }
{
    pairs_command(alloc, "audit", AUDIT, AUDIT_HELP)?
        .arg(all_argument(alloc))?
        .arg(settle_argument(alloc))
}

/// The command `advise`, but for everybody.
fn advise_options<'a>(alloc: Global) -> Result<Command<'a>, AllocError>
    ensures { IfOk result (IsCommand advise_options) }
{
    advise_named(alloc)?
        .arg(pairs_argument(alloc))?
        .arg(settle_argument(alloc))?
        .arg(format_argument(alloc))
}

/// The command `advise`, but for the text of pairs and how far it looks.
fn advise_named<'a>(alloc: Global) -> Result<Command<'a>, AllocError>
    ensures { IfOk result (IsCommand advise_named) }
{
    Command::new(alloc, "advise")
        .about("Says what to change so that every subtree is contained against every user")
        .after_help(ADVISE_HELP)
        .arg(tree_argument(alloc))?
        .arg(
            word_argument(alloc, "uid", "UID[:GID,GID..]")
                .action(ArgAction::Append)
                .help("A user and their groups, once or more"),
        )?
        .arg(
            number_argument(alloc, "gid", "GID")
                .action(ArgAction::Append)
                .help("A group of the only user, up to 32 times; the first is the primary one"),
        )?
        .arg(
            subtree_argument(alloc)
                .action(ArgAction::Append)
                .help("The top of a subtree, once or more"),
        )
}

fn upgrade_command<'a>(alloc: Global) -> Result<Command<'a>, AllocError>
    ensures { IfOk result (IsCommand upgrade_command) }
{
    Command::new(alloc, "upgrade")
        .about("Writes the tree again, with every key")
        .after_help(UPGRADE_HELP)
        .arg(tree_argument(alloc))
}

fn replay_command<'a>(alloc: Global) -> Result<Command<'a>, AllocError>
    ensures { IfOk result (IsCommand replay_command) }
{
    let about = "Says of each of a user's operations whether it is carried out";
    user_command(alloc, "replay", about, REPLAY_HELP)?
        .arg(
            word_argument(alloc, "ops", "FILE").required(true).help(
                "The operations, one a line; - is standard input, and then the tree's text is a file",
            ),
        )?
        .arg(subtree_argument(alloc).help("The top of a subtree, on which a verdict is wanted"))
}

fn tree_argument<'a>(alloc: Global) -> Arg<'a>
    ensures { IsOption (word_option (codes "tree")) result }
{
    word_argument(alloc, "tree", "FILE").help(
        "The tree's text; standard input where this is left out or is -",
    )
}

fn subtree_argument<'a>(alloc: Global) -> Arg<'a>
    ensures { IsOption (word_option (codes "subtree")) result }
{
    word_argument(alloc, "subtree", "PATH")
}

fn pairs_argument<'a>(alloc: Global) -> Arg<'a>
    ensures { IsOption (word_option (codes "pairs")) result }
{
    word_argument(alloc, "pairs", "FILE").help(
        "Pairs in place of --uid and --subtree, one a line, as audit --all prints them; - is standard input, and then the tree's text is a file",
    )
}

fn format_argument<'a>(alloc: Global) -> Arg<'a>
    ensures { IsOption (word_option (codes "format")) result }
{
    word_argument(alloc, "format", "FORMAT").help(
        "How the answer is written: lines, or json for a JSON object a line; lines where this is left out",
    )
}

fn all_argument<'a>(alloc: Global) -> Arg<'a>
    ensures { IsOption (flag (codes "all")) result }
{
    Arg::new(alloc, "all")
        .long("all")
        .action(ArgAction::SetTrue)
        .help("Every pair that isn't shown to be contained, and not the first alone")
}

fn settle_argument<'a>(alloc: Global) -> Arg<'a>
    ensures { IsOption (flag (codes "settle")) result }
{
    Arg::new(alloc, "settle")
        .long("settle")
        .action(ArgAction::SetTrue)
        .help("Looks further where check says unsettled, as settle does")
}

fn everybody_argument<'a>(alloc: Global) -> Arg<'a>
    ensures { IsOption (flag (codes "everybody")) result }
{
    Arg::new(alloc, "everybody")
        .long("everybody")
        .action(ArgAction::SetTrue)
        .help("Asks of everybody but root in place of --uid, whoever there is")
}

fn subtrees_argument<'a>(alloc: Global) -> Arg<'a>
    ensures { IsOption (word_option (codes "subtrees")) result }
{
    word_argument(alloc, "subtrees", "FILE").help(
        "Subtrees in place of --subtree with --everybody, a path a line; - is standard input, and then the tree's text is a file",
    )
}

fn but_argument<'a>(alloc: Global) -> Arg<'a>
    ensures { IsOption (repeated (number_option (codes "but"))) result }
{
    number_argument(alloc, "but", "UID")
        .action(ArgAction::Append)
        .help("Of --everybody whoever has this uid is left out, once or more")
}

fn group_argument<'a>(alloc: Global) -> Arg<'a>
    ensures { IsOption (repeated (word_option (codes "group"))) result }
{
    word_argument(alloc, "group", "GID=[UID,UID..]")
        .action(ArgAction::Append)
        .help(
            "Who may be a member of a group, for --everybody: these uids and nobody else, once or more",
        )
}

fn number_argument<'a>(alloc: Global, name: &'a str, value: &'a str) -> Arg<'a>
    ensures { IsOption (number_option name.entry.now) result }
{
    word_argument(alloc, name, value).value_parser(value_parser!(u32))
}

fn needed_number<'a>(alloc: Global, name: &'a str, value: &'a str, help: &'a str) -> Arg<'a>
    ensures { IsOption (needed (number_option name.entry.now)) result }
{
    number_argument(alloc, name, value)
        .required(true)
        .help(help)
}

fn word_argument<'a>(alloc: Global, name: &'a str, value: &'a str) -> Arg<'a>
    ensures { IsOption (word_option name.entry.now) result }
{
    Arg::new(alloc, name).long(name).value_name(value)
}
