ghost use Rattle.std.specs.Prelude.{◌≡◌, ◌≢◌, ◌≤◌, ◌<◌, ◌+◌, ℕ, true, List, length, IfOk, IsErrOf};
ghost use Rattle.hp_io.specs.Rules.{Rose};
ghost use Rattle.hp_io.specs.declared.folder.Input.{Input};
ghost use Rattle.hp_top.specs.Reading.{ReadsTo, TakesUpTo, Grows};

use hp_io::{BeginError, Failed, Folder, Input};
use hp_syntax::limits::LARGEST_TEXT;
use std::alloc::{AllocError, Global};

/// How many bytes are read at a time.
const PIECE: usize = 8_192;

pub enum ReadError {
    Failed,
    NoMemory,
}

/// Reads some more of a begun input, at most so many bytes; nothing is read only at its end.
fn read_more<F: Folder>(
    folder: &mut F,
    which: Input,
    bytes: &mut Vec<u8>,
    room: usize,
) -> Result<usize, ReadError>
    requires begun { F.begun folder.old which ≡ true }
    requires room { 0 < room }
    ensures begun { F.begun folder.new which ≡ true }
    ensures grown { IfOk result (λ n. Grows n bytes.old.items bytes.new.items (F.rest folder.old which)
        (F.rest folder.new which)) }
    ensures length { IfOk result (λ n. (length bytes.new.items ≡ length bytes.old.items + n) × (n ≤ room)) }
    ensures takes { TakesUpTo room (F.rest folder.old which) (F.rest folder.new which) }
    ensures others { (w : Input) → w ≢ which
        → (F.begun folder.new w ≡ F.begun folder.old w) × (F.rest folder.new w ≡ F.rest folder.old w) }
    ensures files { (n : List ℕ) → F.file folder.new n ≡ F.file folder.old n }
    ensures later { (w : Input) → F.faults folder.old w ≤ F.faults folder.new w }
    ensures cause { IsErrOf result ReadError.Failed
        → Rose (F.faults folder.old which) (F.faults folder.new which) }
{
    let mut buffer = [0u8; PIECE];
    let room = room.min(PIECE);
    match folder.read(which, &mut buffer[..room]) {
        Err(_) => Err(ReadError::Failed),
        Ok(count) => match bytes.extend_from_slice(&buffer[..count]) {
            Ok(()) => Ok(count),
            Err(_) => Err(ReadError::NoMemory),
        },
    }
}

/// The prefix of a begun input, up to its end or one byte past the limit.
pub fn read_rest<F: Folder>(
    alloc: Global,
    folder: &mut F,
    which: Input,
) -> Result<Vec<u8>, ReadError>
    requires { F.begun folder.old which ≡ true }
    ensures bytes { IfOk result (λ bytes. ReadsTo LARGEST_TEXT bytes.items (F.rest folder.old which)) }
    ensures takes { TakesUpTo (LARGEST_TEXT + 1) (F.rest folder.old which) (F.rest folder.new which) }
    ensures begun { F.begun folder.new which ≡ true }
    ensures others { (w : Input) → w ≢ which
        → (F.begun folder.new w ≡ F.begun folder.old w) × (F.rest folder.new w ≡ F.rest folder.old w) }
    ensures files { (n : List ℕ) → F.file folder.new n ≡ F.file folder.old n }
    ensures later { (w : Input) → F.faults folder.old w ≤ F.faults folder.new w }
    ensures cause { IsErrOf result ReadError.Failed
        → Rose (F.faults folder.old which) (F.faults folder.new which) }
{
    let mut bytes = Vec::new(alloc);
    while bytes.len() <= LARGEST_TEXT {
        let room = LARGEST_TEXT + 1 - bytes.len();
        let count = read_more(folder, which, &mut bytes, room)?;
        if count == 0 {
            break;
        }
    }
    Ok(bytes)
}
