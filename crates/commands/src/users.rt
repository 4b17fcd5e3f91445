//! Users and pairs as the command line names them, what is wanted of everybody, and how it is to be written, handed to a call.
ghost use Rattle.std.specs.Prelude.{◌≡◌, map, IfOk, IfErr};
ghost use Rattle.cg_cli.specs.Pairs.{pair_given};
ghost use Rattle.cg_everybody.specs.Everybody.{members_of};
ghost use Rattle.arguments.specs.Given.{ids_of, ids_of_pair, listed_group};
ghost use Rattle.commands.specs.Requests.{format_of, wanted_of};

use arguments::everyone::{ListedGroup, Wanted as Asked};
use arguments::format::Format as Written;
use arguments::named_pair::NamedPair;
use arguments::named_user::NamedUser;
use cg_cli::arguments::UserIds;
use cg_cli::everybody::Wanted;
use cg_cli::format::Format;
use cg_cli::pairs::PairIds;
use cg_everybody::asked::Members;
use cg_faults::fault::CliFault;
use std::alloc::Global;

/// The user as a call takes them.
pub(crate) fn ids(user: &NamedUser) -> UserIds<'_>
    ensures uid { result.uid ≡ user.now.uid }
    ensures gids { result.gids.now ≡ user.now.gids.items }
{
    UserIds {
        uid: user.uid,
        gids: user.gids.as_slice(),
    }
}

/// The users as a call takes them.
pub(crate) fn all_ids<'a>(
    alloc: Global,
    users: &'a [NamedUser],
) -> Result<Vec<UserIds<'a>>, CliFault>
    ensures ids { IfOk result (λ all. map (λ user. (user.uid, user.gids.now)) all.items ≡ map ids_of users.now) }
    ensures fault { IfErr result (λ fault. fault ≡ CliFault.NoMemory) }
{
    let mut all = Vec::new(alloc);
    for user in users {
        all.push(ids(user))?;
    }
    Ok(all)
}

/// What is wanted, as a call takes it.
pub(crate) fn wanted_of(asked: Asked) -> Wanted
    ensures { result ≡ wanted_of asked }
{
    match asked {
        Asked::Audit => Wanted::Audit,
        Asked::Advise => Wanted::Advise,
        Asked::Explain => Wanted::Explain,
    }
}

/// How an answer is to be written, as a call takes it.
pub(crate) fn format_of(format: Written) -> Format
    ensures { result ≡ format_of format }
{
    match format {
        Written::Lines => Format::Lines,
        Written::Json => Format::Json,
    }
}

/// The groups of which it is told who is a member, as a call takes them.
pub(crate) fn all_members<'a>(
    alloc: Global,
    groups: &'a [ListedGroup],
) -> Result<Vec<Members<'a>>, CliFault>
    ensures members { IfOk result (λ all. map members_of all.items ≡ map listed_group groups.now) }
    ensures fault { IfErr result (λ fault. fault ≡ CliFault.NoMemory) }
{
    let mut all = Vec::new(alloc);
    for group in groups {
        all.push(Members {
            gid: group.gid,
            uids: group.uids.as_slice(),
        })?;
    }
    Ok(all)
}

/// The pairs as a call takes them.
pub(crate) fn pair_ids<'a>(
    alloc: Global,
    pairs: &'a [NamedPair<'a>],
) -> Result<Vec<PairIds<'a>>, CliFault>
    ensures pairs { IfOk result (λ all. map pair_given all.items ≡ map ids_of_pair pairs.now) }
    ensures fault { IfErr result (λ fault. fault ≡ CliFault.NoMemory) }
{
    let mut all = Vec::new(alloc);
    for pair in pairs {
        all.push(PairIds {
            user: ids(&pair.user),
            subtree: pair.subtree,
        })?;
    }
    Ok(all)
}
