ghost use Rattle.std.specs.Prelude.{◌≡◌, ◌++◌, count_by, drop, OnOk};
ghost use Rattle.od_cli.specs.Runs.{count_text, is_own_of, kind_name, kind_place, requests_text};

use gd_item::{RequestKind, Step, Who};
use gd_names::{Bytes, NoMemory};
use std::alloc::Global;

/// All kinds of requests in the order in which they are printed.
const ALL_KINDS: [RequestKind; 14] = [
    RequestKind::Get,
    RequestKind::Children,
    RequestKind::MakeFolder,
    RequestKind::Put,
    RequestKind::Patch,
    RequestKind::Delete,
    RequestKind::Content,
    RequestKind::Download,
    RequestKind::OpenSession,
    RequestKind::Fragment,
    RequestKind::SessionStatus,
    RequestKind::CancelSession,
    RequestKind::Finish,
    RequestKind::Delta,
];

/// The steps of a log after so many of them.
pub fn steps_after(log: &[Step], counted: usize) -> &[Step]
    ensures { result.now ≡ drop counted log.now }
{
    &log[counted.min(log.len())..]
}

fn kind_name(kind: RequestKind) -> &'static str
    ensures { result.now ≡ kind_name kind }
{
    match kind {
        RequestKind::Get => "get",
        RequestKind::Children => "children",
        RequestKind::MakeFolder => "mkdir",
        RequestKind::Put => "put",
        RequestKind::Patch => "patch",
        RequestKind::Delete => "delete",
        RequestKind::Content => "content",
        RequestKind::Download => "download",
        RequestKind::OpenSession => "session",
        RequestKind::Fragment => "fragment",
        RequestKind::SessionStatus => "status",
        RequestKind::CancelSession => "cancel",
        RequestKind::Finish => "finish",
        RequestKind::Delta => "delta",
    }
}

fn is_own_of(kind: RequestKind, step: &Step) -> bool
    ensures { result ≡ is_own_of kind step.now }
{
    match step {
        Step::Ask {
            who: Who::Own,
            request,
            ..
        } => request.kind() == kind,
        _ => false,
    }
}

fn count_of(kind: RequestKind, steps: &[Step]) -> u64
    ensures { result ≡ count_by (is_own_of kind) steps.now }
{
    let mut count = 0;
    for step in steps {
        if is_own_of(kind, step) {
            count += 1;
        }
    }
    count
}

fn print_count(
    alloc: Global,
    out: &mut Bytes,
    kind: RequestKind,
    count: u64,
) -> Result<(), NoMemory>
    ensures { OnOk result (out.new ≡ out.old ++ count_text kind count) }
{
    if count == 0 {
        return Ok(());
    }
    let name = kind_name(kind);
    let text = format!(in alloc; " {name} {count}")?;
    out.push_slice(text.as_bytes())
}

/// How many requests of a kind there are, if there are some.
fn print_kind(
    alloc: Global,
    out: &mut Bytes,
    kind: RequestKind,
    steps: &[Step],
) -> Result<(), NoMemory>
    ensures { OnOk result (out.new ≡ out.old ++ count_text kind (count_by (is_own_of kind) steps.now)) }
{
    let count = count_of(kind, steps);
    print_count(alloc, out, kind, count)
}

/// What `requests` prints of steps of the drive's log.
pub fn print_requests(alloc: Global, out: &mut Bytes, steps: &[Step]) -> Result<(), NoMemory>
    ensures { OnOk result (out.new ≡ out.old ++ requests_text steps.now) }
{
    out.push_slice(b"requests")?;
    for kind in ALL_KINDS {
        print_kind(alloc, out, kind, steps)?;
    }
    out.push_slice(b"\n")
}
