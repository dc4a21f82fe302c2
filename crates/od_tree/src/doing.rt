ghost use Rattle.std.specs.Prelude.{◌≡◌, ◌<◌, ◌++◌, ◌∷◌, [], OnOk, OnErr, Some, None};
ghost use Rattle.std.specs.Vec.{vec_len, vec_capacity};
ghost use Rattle.od_tree.specs.Doing.{held_with};
ghost use Rattle.od_tree.specs.Local.{Local, file_in, file_at, held_at, moved_from, set_aside, put_back, after_done_op};

use crate::held::{greatest_number, take_held};
use crate::local::{HeldFile, LocalFile, Spot};
use crate::look::file_at;
use crate::spots::{add_folder, push_moved, take_spot};
use crate::step::TreeOp;
use gd_names::{Bytes, NoMemory, Path, Text};
use std::alloc::Global;

/// Does an operation that is not refused.
pub fn do_op(
    alloc: Global,
    spots: &mut Vec<Spot>,
    held: &mut Vec<HeldFile>,
    call: &TreeOp,
) -> Result<(), NoMemory>
    ensures ok { OnOk result (after_done_op (record { spots = spots.old.items; held = held.old.items }) call.now ≡ record { spots = spots.new.items; held = held.new.items }) }
    ensures spots { OnErr result (spots.new.items ≡ spots.old.items) }
    ensures held { OnErr result (held.new.items ≡ held.old.items) }
{
    match call {
        TreeOp::List(_) => Ok(()),
        TreeOp::Read(_) => Ok(()),
        TreeOp::MakeDir(at) => add_folder(spots, at),
        TreeOp::RemoveDir(at) => {
            let _folder = take_spot(spots, at.names());
            Ok(())
        }
        TreeOp::Place(at, bytes) => place_file(spots, at, bytes),
        TreeOp::Rename(from, to) => rename_spots(alloc, spots, from.names(), to.names()),
        TreeOp::SetAside(at) => set_aside(spots, held, at),
        TreeOp::ReadAside(_) => Ok(()),
        TreeOp::PutBack(aside, to) => put_back(spots, held, *aside, to),
        TreeOp::Discard(aside) => {
            let _dropped = take_held(held, *aside);
            Ok(())
        }
        TreeOp::Asides => Ok(()),
    }
}

fn place_file(spots: &mut Vec<Spot>, at: &Path, bytes: &Bytes) -> Result<(), NoMemory>
    ensures ok { OnOk result (spots.new.items ≡ spots.old.items ++ record { path = at.now; file = Some (record { bytes = bytes.now; origin = None }) } ∷ []) }
    ensures err { OnErr result (spots.new.items ≡ spots.old.items) }
{
    let file = LocalFile {
        bytes: bytes.clone()?,
        origin: None,
    };
    let path = at.clone()?;
    spots.push(Spot {
        path,
        file: Some(file),
    })?;
    Ok(())
}

fn rename_spots(
    alloc: Global,
    spots: &mut Vec<Spot>,
    from: &[Text],
    to: &[Text],
) -> Result<(), NoMemory>
    ensures ok { OnOk result (spots.new.items ≡ moved_from from.now to.now spots.old.items) }
    ensures err { OnErr result (spots.new.items ≡ spots.old.items) }
{
    let mut moved = Vec::new(alloc);
    push_moved(alloc, &mut moved, spots.as_slice(), from, to)?;
    *spots = moved;
    Ok(())
}

/// Takes a file into holding, under the next number.
fn set_aside(spots: &mut Vec<Spot>, held: &mut Vec<HeldFile>, at: &Path) -> Result<(), NoMemory>
    ensures ok { OnOk result (set_aside at.now (record { spots = spots.old.items; held = held.old.items }) (file_at at.now spots.old.items) ≡ record { spots = spots.new.items; held = held.new.items }) }
    ensures spots { OnErr result (spots.new.items ≡ spots.old.items) }
    ensures held { OnErr result (held.new.items ≡ held.old.items) }
{
    let greatest = greatest_number(held.as_slice());
    if greatest == u64::MAX || file_at(spots.as_slice(), at.names()).is_none() {
        return Ok(());
    }
    let from = at.clone()?;
    held.reserve(1)?;
    let spot = take_spot(spots, at.names());
    hold(held, greatest + 1, from, spot);
    Ok(())
}

/// Holds the file of an entry.
fn hold(held: &mut Vec<HeldFile>, number: u64, from: Path, spot: Option<Spot>)
    requires { vec_len held.old < vec_capacity held.old }
    ensures { held.new.items ≡ held_with number from (file_in spot) held.old.items }
{
    match spot {
        Some(spot) => {
            let Spot { path: _path, file } = spot;
            match file {
                Some(file) => held.push_reserved(HeldFile { number, from, file }),
                None => {}
            }
        }
        None => {}
    }
}

/// Puts a held file back to a path.
fn put_back(
    spots: &mut Vec<Spot>,
    held: &mut Vec<HeldFile>,
    aside: u64,
    to: &Path,
) -> Result<(), NoMemory>
    ensures ok { OnOk result (put_back to.now (record { spots = spots.old.items; held = held.old.items }) (held_at aside held.old.items) ≡ record { spots = spots.new.items; held = held.new.items }) }
    ensures spots { OnErr result (spots.new.items ≡ spots.old.items) }
    ensures held { OnErr result (held.new.items ≡ held.old.items) }
{
    let path = to.clone()?;
    spots.reserve(1)?;
    match take_held(held, aside) {
        Some(taken) => {
            let HeldFile {
                number: _number,
                from: _from,
                file,
            } = taken;
            spots.push_reserved(Spot {
                path,
                file: Some(file),
            });
        }
        None => {}
    }
    Ok(())
}
