//! The text of a problem that is made.

ghost use Rattle.std.specs.Prelude.{◌≡◌, ◌++◌, IfOk, OnOk, decimal};
ghost use Rattle.hp_make.specs.Texts.{atom_text, package_text, packages_text, problem_text};

use crate::draws::Draws;
use itoa::Buffer;
use std::alloc::{AllocError, Global};

/// A number in decimal.
fn write_number(text: &mut Vec<u8>, number: u32) -> Result<(), AllocError>
    ensures { OnOk result (text.new.items ≡ text.old.items ++ decimal number) }
{
    let mut buffer = Buffer::new();
    text.extend_from_slice(buffer.format(number).as_bytes())
}

/// An atom of a package and a place, by what it begins with.
fn write_atom(text: &mut Vec<u8>, opening: &[u8], number: u32, place: u32) -> Result<(), AllocError>
    ensures { OnOk result (text.new.items ≡ text.old.items ++ atom_text opening.now number place) }
{
    text.extend_from_slice(opening)?;
    write_number(text, number)?;
    text.extend_from_slice(b" t")?;
    write_number(text, place)?;
    text.extend_from_slice(b")")
}

/// A package: its number, where it is, and where it is to be.
fn write_package(text: &mut Vec<u8>, number: u32, from: u32, to: u32) -> Result<(), AllocError>
    ensures { OnOk result (text.new.items ≡ text.old.items ++ package_text number from to) }
{
    write_atom(text, b" (at p", number, from)?;
    write_atom(text, b" (goal p", number, to)
}

/// `n` packages, at places that are drawn.
fn write_packages(text: &mut Vec<u8>, seed: u32, n: u32) -> Result<(), AllocError>
    ensures { OnOk result (text.new.items ≡ text.old.items ++ packages_text seed 0 n) }
{
    let mut draws = Draws { state: seed };
    for number in 0..n {
        let from = draws.place();
        let to = draws.place();
        write_package(text, number, from, to)?;
    }
    Ok(())
}

/// The problem of a seed with `n` packages.
pub fn problem_text(alloc: Global, seed: u32, n: u32) -> Result<Vec<u8>, AllocError>
    ensures { IfOk result (λ text. text.items ≡ problem_text seed n) }
{
    let mut text = Vec::from_slice(alloc, b"(defproblem made transport ((truck t0)")?;
    write_packages(&mut text, seed, n)?;
    text.extend_from_slice(b") ((all)))\n")?;
    Ok(text)
}
