//! What is written behind the line of a finding.

ghost use Rattle.std.specs.Prelude.{◌≡◌, ◌++◌, OnOk, codes, option_map};
ghost use Rattle.hp_doctor.specs.Explained.{explained_line, explanation_by, finding_text, located, named_text, told_in};
ghost use Rattle.hp_doctor.specs.Texts.{file_of, texts_of};

use crate::finding::Finding;
use crate::hints::push_hint;
use crate::reading::finding_of;
use crate::sentences::sentence;
use crate::texts::{Text, Texts};
use hp_places::push_shown;
use hp_syntax::Span;
use std::alloc::AllocError;

/// Ends a line, and puts behind it what it means and where that is, if it tells a finding.
pub fn push_explanation(line: &mut Vec<u8>, files: &Texts) -> Result<(), AllocError>
    ensures { OnOk result (line.new.items ≡ explained_line (texts_of files.now) line.old.items) }
{
    let found = finding_of(line.as_slice());
    line.push(b'\n')?;
    match found {
        None => Ok(()),
        Some(finding) => {
            push_finding(line, files, finding)?;
            push_hint(line, files, finding)
        }
    }
}

fn push_finding(out: &mut Vec<u8>, files: &Texts, finding: Finding) -> Result<(), AllocError>
    ensures { OnOk result (out.new.items ≡ out.old.items ++ finding_text (texts_of files.now) finding) }
{
    let aim = finding.aim();
    let file = match aim.which {
        None => None,
        Some(which) => files.of(which),
    };
    push_in(out, file, aim.span, sentence(finding))
}

/// A sentence in a file, where it is about one.
pub fn push_in(
    out: &mut Vec<u8>,
    file: Option<&Text>,
    span: Option<Span>,
    says: &[u8],
) -> Result<(), AllocError>
    ensures { OnOk result (out.new.items
        ≡ out.old.items ++ told_in (option_map (λ t. file_of t.now) file.entry) span says.now) }
{
    match file {
        None => push_line(out, says),
        Some(text) => push_located(out, text, span, says),
    }
}

/// A sentence in a file, with its place where the text is there and there is one.
pub fn push_located(
    out: &mut Vec<u8>,
    text: &Text,
    span: Option<Span>,
    says: &[u8],
) -> Result<(), AllocError>
    ensures { OnOk result (out.new.items
        ≡ out.old.items ++ located (file_of text.now).name (file_of text.now).text span says.now) }
{
    match (&text.lines, span) {
        (Some(lines), Some(span)) => push_shown(out, text.name, lines, span, says),
        (Some(_), None) => push_named(out, text.name, says),
        (None, _) => push_named(out, text.name, says),
    }
}

/// A sentence behind the name of a file.
pub fn push_named(out: &mut Vec<u8>, name: &[u8], says: &[u8]) -> Result<(), AllocError>
    ensures { OnOk result (out.new.items ≡ out.old.items ++ named_text name.now says.now) }
{
    out.extend_from_slice(name)?;
    out.extend_from_slice(b": ")?;
    push_line(out, says)
}

fn push_line(out: &mut Vec<u8>, says: &[u8]) -> Result<(), AllocError>
    ensures { OnOk result (out.new.items ≡ out.old.items ++ says.now ++ codes "\n") }
{
    out.extend_from_slice(says)?;
    out.push(b'\n')?;
    Ok(())
}
