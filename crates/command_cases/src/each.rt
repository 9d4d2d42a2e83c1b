//! A command line that is done once for each call of an object, with this call failing.
use crate::done::{Done, do_line};
use case_streams::{Fault, Moved, Object, Scene, is_first, is_rest, object_of, show_range};
use command_lines::Ending;
use std::io;

/// How a command ends where a call of the object failed.
fn ending_of(object: Object) -> Ending {
    match object {
        Object::Images => Ending::FileFault,
        Object::Input => Ending::ReadFault,
        Object::Output => Ending::WriteFault,
        Object::Errors => Ending::ErrorsFault,
    }
}

/// Whether a command ended as it does where a call of the object failed, and its streams stand, byte by byte, as they
/// did when the whole had moved so much.
fn stands(done: &Done, object: Object, moved: Moved, whole: &Done, given: &[u8]) -> bool {
    done.ending == ending_of(object)
        && is_first(done.output(), moved.output, whole.output())
        && is_first(done.errors(), moved.errors, whole.errors())
        && match &done.left {
            Some(left) => is_rest(left, moved.input, given),
            None => false,
        }
}

/// Writes what the streams had moved at the first and at the last of the calls.
fn show_ranges(rt: HostRuntime, calls: &[Moved], whole: &Done, given: &[u8]) -> io::Result<()> {
    if let (Some(first), Some(last)) = (calls.first(), calls.last()) {
        show_range(rt, "input", first.input, last.input, given.len())?;
        show_range(
            rt,
            "output",
            first.output,
            last.output,
            whole.output().len(),
        )?;
        show_range(
            rt,
            "errors",
            first.errors,
            last.errors,
            whole.errors().len(),
        )?;
    }
    Ok(())
}

/// Does a command line again, with this call of the object failing, and writes how it ends where it isn't as it has to
/// be; whether it is.
fn try_call(
    rt: HostRuntime,
    scene: &Scene,
    line: &str,
    fault: Fault,
    moved: Moved,
    whole: &Done,
) -> io::Result<bool> {
    let again = do_line(rt.alloc(), scene, line, Some(fault))?;
    if stands(&again, fault.object, moved, whole, scene.given()) {
        return Ok(true);
    }
    println!(rt; "call {} of {moved:?}: {:?}", fault.call, again.ending)?;
    Ok(false)
}

/// Does a command line again for each call that it made of the object, and answers how many end otherwise than they
/// have to.
fn try_calls(
    rt: HostRuntime,
    scene: &Scene,
    line: &str,
    object: Object,
    whole: &Done,
) -> io::Result<u64> {
    let mut differ: u64 = 0;
    for (number, moved) in whole.calls.of(object).iter().enumerate() {
        let call = number as u64;
        let is_well = try_call(rt, scene, line, Fault { object, call }, *moved, whole)?;
        differ = differ.saturating_add(u64::from(!is_well));
    }
    Ok(differ)
}

/// Writes how a command ends by a fault of the object, how many calls there are, and of how many it ends otherwise.
fn show_calls(rt: HostRuntime, object: Object, calls: usize, differ: u64) -> io::Result<()> {
    let ending = ending_of(object);
    println!(rt;
        "{:?}, status {}: {calls} calls, {differ} differ",
        ending,
        ending.status()
    )
}

/// Does a command line, and again for each call that it made of the object.
fn do_calls(rt: HostRuntime, scene: &Scene, object: Object, line: &str) -> io::Result<()> {
    let whole = do_line(rt.alloc(), scene, line, None)?;
    println!(rt; "{:?}, status {}", whole.ending, whole.ending.status())?;
    let differ = try_calls(rt, scene, line, object, &whole)?;
    let calls = whole.calls.of(object);
    show_calls(rt, object, calls.len(), differ)?;
    show_ranges(rt, calls, &whole, scene.given())
}

/// Does a line `OBJECT WORD ..`: the command line as it is, and then again for each call that it made of the object,
/// with this call failing. Writes those that end otherwise, or leave the streams otherwise, and how many calls there
/// were.
pub fn do_each(rt: HostRuntime, scene: &Scene, text: &str) -> io::Result<()> {
    let (name, line) = text.split_once(' ').unwrap_or((text, ""));
    match object_of(name) {
        Some(object) => do_calls(rt, scene, object, line),
        None => println!(rt; "there is no such object"),
    }
}
