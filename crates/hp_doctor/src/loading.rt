//! Reading the files that findings are about.

ghost use Rattle.std.specs.Prelude.{◌≡◌, ◌≢◌, ◌≤◌, ◌<◌, ◌+◌, ℕ, Some, true, List, length, IfOk, IsErrOf, option_map};
ghost use Rattle.hp_io.specs.Rules.{Rose};
ghost use Rattle.hp_io.specs.declared.folder.Input.{Input};
ghost use Rattle.hp_io.specs.declared.folder.Input.TheVariants as inputs;
ghost use Rattle.hp_doctor.specs.Loading.{Grows, IsHeld, IsPlanRead, IsRead, ReadsTo};
ghost use Rattle.hp_doctor.specs.Mending.{AreMended, IsMended, IsPlanMended};
ghost use Rattle.hp_doctor.specs.Texts.{file_of, texts_of};

use crate::mending::mend_text;
use crate::texts::{Text, Texts};
use hp_io::{BeginError, Folder, Input};
use hp_places::Lines;
use hp_syntax::limits::LARGEST_TEXT;
use std::alloc::{AllocError, Global};

/// How many bytes are read at a time.
const PIECE: usize = 8_192;

/// The names of the files of a run.
#[derive(Clone, Copy)]
pub struct Names<'a> {
    pub domain: &'a str,
    pub problem: &'a str,
    pub plan: Option<&'a str>,
}

impl<'a> Texts<'a> {
    /// Reads the files of a run, as far as the planner reads them. One that can't be read is held without its text. One
    /// whose brackets aren't in pairs is read once more with brackets that are.
    pub fn read<F: Folder>(
        alloc: Global,
        folder: &mut F,
        names: Names<'a>,
    ) -> Result<Texts<'a>, NoMemory>
        ensures domain { IfOk result (λ t. IsRead names.entry.domain.now (F.file folder.old names.entry.domain.now)
            (F.faults folder.old inputs.Domain) (F.faults folder.new inputs.Domain) (file_of t.domain)) }
        ensures problem { IfOk result (λ t. IsRead names.entry.problem.now (F.file folder.old names.entry.problem.now)
            (F.faults folder.old inputs.Problem) (F.faults folder.new inputs.Problem) (file_of t.problem)) }
        ensures plan { IfOk result (λ t. IsPlanRead (option_map (λ n. n.now) names.entry.plan) (F.file folder.old)
            (F.faults folder.old inputs.Plan) (F.faults folder.new inputs.Plan) (option_map file_of t.plan)) }
        ensures mended { IfOk result (λ t. AreMended (texts_of t)) }
        ensures tells { (n : List ℕ) → F.file folder.new n ≡ F.file folder.old n }
        ensures counts { (w : Input) → F.faults folder.old w ≤ F.faults folder.new w }
    {
        let domain = read_text(alloc, folder, Input::Domain, names.domain)?;
        let problem = read_text(alloc, folder, Input::Problem, names.problem)?;
        let plan = read_plan(alloc, folder, names.plan)?;
        Ok(Texts {
            domain,
            problem,
            plan,
        })
    }
}

/// Memory ran out.
#[derive(Clone, Copy, Debug, PartialEq, Eq)]
pub struct NoMemory;

impl From<AllocError> for NoMemory {
    fn from(_error: AllocError) -> NoMemory {
        NoMemory
    }
}

/// Why a file is held as one that can't be read, or isn't held.
#[derive(Clone, Copy)]
enum ReadError {
    Failed,
    NoMemory,
}

/// Reads some more of a begun input, at most so many bytes; nothing is read only at its end.
fn read_more<F: Folder>(
    folder: &mut F,
    which: Input,
    bytes: &mut Vec<u8>,
    room: usize,
) -> Result<usize, ReadError>
    requires begun { F.begun folder.old which ≡ true }
    requires room { 0 < room }
    ensures begun { F.begun folder.new which ≡ true }
    ensures grown { IfOk result (λ n. Grows n bytes.old.items bytes.new.items (F.rest folder.old which)
        (F.rest folder.new which)) }
    ensures length { IfOk result (λ n. (length bytes.new.items ≡ length bytes.old.items + n) × (n ≤ room)) }
    ensures files { (n : List ℕ) → F.file folder.new n ≡ F.file folder.old n }
    ensures later { (w : Input) → F.faults folder.old w ≤ F.faults folder.new w }
    ensures cause { IsErrOf result ReadError.Failed
        → Rose (F.faults folder.old which) (F.faults folder.new which) }
{
    let mut buffer = [0u8; PIECE];
    let room = room.min(PIECE);
    match folder.read(which, &mut buffer[..room]) {
        Err(_) => Err(ReadError::Failed),
        Ok(count) => match bytes.extend_from_slice(&buffer[..count]) {
            Ok(()) => Ok(count),
            Err(_) => Err(ReadError::NoMemory),
        },
    }
}

/// The prefix of a begun input, up to its end or one byte past the limit.
fn read_rest<F: Folder>(alloc: Global, folder: &mut F, which: Input) -> Result<Vec<u8>, ReadError>
    requires { F.begun folder.old which ≡ true }
    ensures bytes { IfOk result (λ bytes. ReadsTo LARGEST_TEXT bytes.items (F.rest folder.old which)) }
    ensures files { (n : List ℕ) → F.file folder.new n ≡ F.file folder.old n }
    ensures later { (w : Input) → F.faults folder.old w ≤ F.faults folder.new w }
    ensures cause { IsErrOf result ReadError.Failed
        → Rose (F.faults folder.old which) (F.faults folder.new which) }
{
    let mut bytes = Vec::new(alloc);
    while bytes.len() <= LARGEST_TEXT {
        let room = LARGEST_TEXT + 1 - bytes.len();
        let count = read_more(folder, which, &mut bytes, room)?;
        if count == 0 {
            break;
        }
    }
    Ok(bytes)
}

/// The lines of a file, or none where it can't be read.
fn read_file<F: Folder>(
    alloc: Global,
    folder: &mut F,
    which: Input,
    name: &str,
) -> Result<Option<Lines>, NoMemory>
    ensures held { IfOk result (λ lines. IsHeld (F.file folder.old name.now) (F.faults folder.old which)
        (F.faults folder.new which) (option_map (λ l. l.text.items) lines)) }
    ensures files { (n : List ℕ) → F.file folder.new n ≡ F.file folder.old n }
    ensures later { (w : Input) → F.faults folder.old w ≤ F.faults folder.new w }
{
    match folder.begin(which, name) {
        Err(BeginError::Failed) => Ok(None),
        Err(BeginError::NoMemory) => Err(NoMemory),
        Ok(()) => match read_rest(alloc, folder, which) {
            Err(ReadError::Failed) => Ok(None),
            Err(ReadError::NoMemory) => Err(NoMemory),
            Ok(bytes) => lines_of(alloc, bytes),
        },
    }
}

fn lines_of(alloc: Global, bytes: Vec<u8>) -> Result<Option<Lines>, NoMemory>
    ensures { IfOk result (λ lines. option_map (λ l. l.text.items) lines ≡ Some bytes.items) }
{
    match Lines::new(alloc, bytes) {
        Ok(lines) => Ok(Some(lines)),
        Err(_) => Err(NoMemory),
    }
}

/// A file that was read, with what would be said of it if its brackets were in pairs.
fn held<'a>(
    alloc: Global,
    which: Input,
    name: &'a str,
    lines: Option<Lines>,
) -> Result<Text<'a>, NoMemory>
    ensures name { IfOk result (λ t. (file_of t).name ≡ name.now) }
    ensures text { IfOk result (λ t. (file_of t).text ≡ option_map (λ l. l.text.items) lines) }
    ensures mended { IfOk result (λ t. IsMended which (file_of t).text (file_of t).mended) }
{
    let name = name.as_bytes();
    match lines {
        None => Ok(Text {
            name,
            lines: None,
            mended: None,
        }),
        Some(lines) => {
            let mended = mend_text(alloc, which, lines.text())?;
            Ok(Text {
                name,
                lines: Some(lines),
                mended,
            })
        }
    }
}

fn read_text<'a, F: Folder>(
    alloc: Global,
    folder: &mut F,
    which: Input,
    name: &'a str,
) -> Result<Text<'a>, NoMemory>
    ensures read { IfOk result (λ t. IsRead name.now (F.file folder.old name.now) (F.faults folder.old which)
        (F.faults folder.new which) (file_of t)) }
    ensures mended { IfOk result (λ t. IsMended which (file_of t).text (file_of t).mended) }
    ensures files { (n : List ℕ) → F.file folder.new n ≡ F.file folder.old n }
    ensures later { (w : Input) → F.faults folder.old w ≤ F.faults folder.new w }
{
    let lines = read_file(alloc, folder, which, name)?;
    let text = held(alloc, which, name, lines)?;
    Ok(text)
}

fn read_plan<'a, F: Folder>(
    alloc: Global,
    folder: &mut F,
    name: Option<&'a str>,
) -> Result<Option<Text<'a>>, NoMemory>
    ensures read { IfOk result (λ t. IsPlanRead (option_map (λ n. n.now) name.entry) (F.file folder.old)
        (F.faults folder.old inputs.Plan) (F.faults folder.new inputs.Plan) (option_map file_of t)) }
    ensures mended { IfOk result (λ t. IsPlanMended (option_map file_of t)) }
    ensures files { (n : List ℕ) → F.file folder.new n ≡ F.file folder.old n }
    ensures later { (w : Input) → F.faults folder.old w ≤ F.faults folder.new w }
{
    match name {
        None => Ok(None),
        Some(name) => {
            let plan = read_text(alloc, folder, Input::Plan, name)?;
            Ok(Some(plan))
        }
    }
}
