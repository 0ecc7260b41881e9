//! Numbers and paths.
ghost use Rattle.std.specs.Prelude.{◌≡◌, ◌++◌, OnOk, codes, decimal};
ghost use Rattle.std.specs.List.{flat_map};
ghost use Rattle.hp_syntax.specs.Report.{path_text};

use itoa::Buffer;
use std::alloc::AllocError;

/// Puts a number after other bytes.
pub fn push_number(out: &mut Vec<u8>, number: u64) -> Result<(), AllocError>
    ensures { OnOk result (out.new.items ≡ out.old.items ++ decimal number) }
{
    let mut buffer = Buffer::new();
    out.extend_from_slice(buffer.format(number).as_bytes())
}

fn push_further(out: &mut Vec<u8>, number: u64) -> Result<(), AllocError>
    ensures { OnOk result (out.new.items ≡ out.old.items ++ (codes "." ++ decimal number)) }
{
    out.extend_from_slice(b".")?;
    push_number(out, number)
}

/// Puts further numbers of a path after other bytes, each after a point.
fn push_all_further(out: &mut Vec<u8>, further: &[u64]) -> Result<(), AllocError>
    ensures { OnOk result (out.new.items
        ≡ out.old.items ++ flat_map (λ n. codes "." ++ decimal n) further.now) }
{
    for number in further {
        push_further(out, *number)?;
    }
    Ok(())
}

/// Puts the numbers of a path after other bytes, joined by points; the empty path is a dash.
pub fn push_path(out: &mut Vec<u8>, path: &[u64]) -> Result<(), AllocError>
    ensures { OnOk result (out.new.items ≡ out.old.items ++ path_text path.now) }
{
    match path {
        [] => out.extend_from_slice(b"-"),
        [first, further @ ..] => {
            push_number(out, *first)?;
            push_all_further(out, further)
        }
    }
}
