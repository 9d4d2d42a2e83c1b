//! The lines of a source, one at a time, so that what stands before each can be shown before it is read.
ghost use Rattle.std.specs.Prelude.{◌≡◌, ◌++◌, ◌∷◌, [], OnOk};

use debug_moves::Broken;
use io_gate::Source;
use std::alloc::{AllocError, Global};

/// Takes the next byte. None where nothing is left.
fn next_byte<I: Source>(source: &mut I) -> Result<Option<u8>, Broken> {
    let mut byte = [0u8; 1];
    match source.take(&mut byte) {
        Err(_) => Err(Broken::Input),
        Ok(0) => Ok(None),
        Ok(_) => Ok(Some(byte[0])),
    }
}

/// Appends a byte. Err is want of memory.
fn push_byte(bytes: &mut Vec<u8>, byte: u8) -> Result<(), AllocError>
    ensures { OnOk result (bytes.new.items ≡ bytes.old.items ++ byte ∷ []) }
{
    bytes.push(byte)?;
    Ok(())
}

/// Takes the bytes up to a newline, which is taken too, or to the end. None where nothing is left.
fn next_bytes<I: Source>(alloc: Global, source: &mut I) -> Result<Option<Vec<u8>>, Broken> {
    let mut bytes = Vec::new(alloc);
    let mut some = false;
    'bytes: for _ in 0..u64::MAX {
        match next_byte(source)? {
            None => break 'bytes,
            Some(b'\n') => {
                some = true;
                break 'bytes;
            }
            Some(byte) => {
                some = true;
                push_byte(&mut bytes, byte)?;
            }
        }
    }
    Ok(if some { Some(bytes) } else { None })
}

/// Drops a carriage return at the end of a line.
fn drop_return(line: &mut Vec<u8>) {
    if line.last() == Some(&b'\r') {
        line.pop();
    }
}

/// Takes the next line of a source, without the carriage return that may stand before its newline. Bytes that are no
/// text are replaced. None where nothing is left.
pub fn next_line<I: Source>(alloc: Global, source: &mut I) -> Result<Option<String>, Broken> {
    match next_bytes(alloc, source)? {
        None => Ok(None),
        Some(mut bytes) => {
            drop_return(&mut bytes);
            Ok(Some(String::from_utf8_lossy(alloc, &bytes)?))
        }
    }
}
