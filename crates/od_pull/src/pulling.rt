ghost use Rattle.std.specs.Prelude.{◌≡◌, true, IfOk, IsSome, OnOk};
ghost use Rattle.gd_item.specs.Replies.{may_answer};
ghost use Rattle.gd_item.specs.declared.request.Request.TheVariants as request;
ghost use Rattle.gd_item.specs.declared.request.RequestKind.TheVariants as kind;
ghost use Rattle.od_mirror.specs.Climbs.{Rise};
ghost use Rattle.od_mirror.specs.Pulled.{AllFit, nodes};
ghost use Rattle.od_outside.specs.Running.{Runs};
ghost use Rattle.od_outside.specs.Works.{KeepCause};
ghost use Rattle.od_pull.specs.Parts.{AnsweredBy, AsksNext, BeganBy, HasBegunAnew, IsAnswerBy, IsQuiet, TakesBy, TookAll, TookOne, ViewFact, ViewsBy};
ghost use Rattle.od_pull.specs.Pulls.{BaseBy, BeginsPull, PullCause, PulledBy};

use crate::stop::PullStop;
use gd_item::{Item, Reply, Request, Resync};
use gd_names::{List, NoMemory, Text};
use od_keeper::{Change, KeeperFault};
use od_mirror::{Mirror, MirrorView, Taken};
use od_outside::Outside;
use std::alloc::Global;

/// How many replies a pull takes at most.
const MOST_REPLIES: u64 = 4_096;

/// The next request of a pull.
fn next_request(mirror: &Mirror) -> Result<Request, NoMemory>
    ensures { IfOk result (λ asked. asked ≡ request.Delta mirror.now.token) }
{
    let token = match mirror.token() {
        Some(token) => Some(token.clone()?),
        None => None,
    };
    Ok(Request::Delta { token })
}

/// Asks what changed, with the token of what was pulled so far.
fn ask_changes<O: Outside>(
    alloc: Global,
    outside: &mut O,
    mirror: &Mirror,
) -> Result<Reply, PullStop>
    ensures kind { IfOk result (λ reply. may_answer kind.Delta reply ≡ true) }
    ensures asks { Runs O.seen (AsksNext mirror.now.token) (AnsweredBy mirror.now.token result) (IsAnswerBy mirror.now result) (PullCause result) outside.old outside.new }
{
    let request = next_request(mirror)?;
    let reply = outside.ask_until_served(alloc, &request)?;
    Ok(reply)
}

/// Begins anew, as the drive says: with what was kept, or, where the client is to send what it has, with nothing.
fn begin_anew<O: Outside>(alloc: Global, outside: &mut O, resync: Resync) -> Result<(), KeeperFault>
    ensures { Runs O.seen HasBegunAnew (BeganBy resync result) IsQuiet (KeepCause result) outside.old outside.new }
{
    match resync {
        Resync::ApplyDifferences => Ok(()),
        Resync::UploadDifferences => outside.commit(&Change {
            reset: true,
            rules: None,
            token: None,
            gone: List::new(alloc),
            put: List::new(alloc),
            dropped: List::new(alloc),
            rows: List::new(alloc),
        }),
    }
}

/// Takes in the answer to one more request.
fn take_answer<O: Outside>(
    alloc: Global,
    outside: &mut O,
    mirror: &mut Mirror,
) -> Result<Taken, PullStop>
    ensures takes { Runs O.seen (AsksNext mirror.old.token) (TakesBy mirror.new result) (TookOne mirror.old mirror.new result) (PullCause result) outside.old outside.new }
    ensures last { IfOk result (λ taken. taken ≡ Taken.Last → IsSome mirror.new.last) }
{
    let reply = ask_changes(alloc, outside, mirror)?;
    match reply {
        Reply::Page(page) => {
            let taken = mirror.take_page(&page)?;
            Ok(taken)
        }
        Reply::Gone(resync) => {
            begin_anew(alloc, outside, resync)?;
            mirror.gone();
            Ok(Taken::More)
        }
        Reply::Refused { status, code } => Err(PullStop::Refused { status, code }),
        _ => unreachable!(),
    }
}

/// Takes in answers until the last page came.
fn take_answers<O: Outside>(
    alloc: Global,
    outside: &mut O,
    mirror: &mut Mirror,
) -> Result<(), PullStop>
    ensures takes { Runs O.seen (AsksNext mirror.old.token) (TakesBy mirror.new result) (TookAll mirror.old mirror.new result) (PullCause result) outside.old outside.new }
    ensures last { OnOk result (IsSome mirror.new.last) }
{
    for _taken in 0..MOST_REPLIES {
        match take_answer(alloc, outside, mirror)? {
            Taken::Last => return Ok(()),
            Taken::More => {}
        }
    }
    Err(PullStop::Endless)
}

/// Takes in all answers, and gives what the pages make.
pub(crate) fn pull_over<O: Outside>(
    alloc: Global,
    outside: &mut O,
    mut mirror: Mirror,
) -> Result<MirrorView, PullStop>
    ensures pulls { Runs O.seen (AsksNext mirror.token) (ViewsBy result) (ViewFact mirror result) (PullCause result) outside.old outside.new }
    ensures fit { IfOk result (λ view. AllFit (nodes view.items)) }
    ensures rise { IfOk result (λ view. Rise (nodes view.items)) }
{
    take_answers(alloc, outside, &mut mirror)?;
    let view = mirror.finish()?;
    Ok(view)
}

/// Pulls the drive over the kept items and their token: page by page, at most 4,096 replies, each asked for three times at
/// most where it is lost or not served. Where the drive says that the client send what it has, the image is emptied first.
pub fn pull<O: Outside>(
    alloc: Global,
    outside: &mut O,
    items: List<Item>,
    token: Option<Text>,
) -> Result<MirrorView, PullStop>
    ensures pulls { Runs O.seen (BeginsPull items token) (PulledBy result) (BaseBy result) (PullCause result) outside.old outside.new }
    ensures fit { IfOk result (λ view. AllFit (nodes view.items)) }
    ensures rise { IfOk result (λ view. Rise (nodes view.items)) }
{
    pull_over(alloc, outside, Mirror::start(alloc, items, token))
}
