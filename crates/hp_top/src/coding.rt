//! The listing of the code that a domain is compiled to.

ghost use Rattle.std.specs.Prelude.{◌≡◌, ◌≢◌, ◌≤◌, ℕ, List, None, IfOk};
ghost use Rattle.hp_syntax.specs.Checks.{first_of, domain_faults};
ghost use Rattle.hp_io.specs.declared.folder.Input.{Input};
ghost use Rattle.hp_io.specs.declared.folder.Input.TheVariants as inputs;
ghost use Rattle.hp_out.specs.Writing.{sink_run};
ghost use Rattle.hp_syntax.specs.Numbered.{IsNumberedDomain};
ghost use Rattle.hp_syntax.specs.Views.{domain_of};
ghost use Rattle.hp_top.specs.Loading.{folder_run};
ghost use Rattle.hp_top.specs.Outcome.{listing_answer};
ghost use Rattle.hp_top.specs.Serving.{ServesListing};
ghost use Rattle.hp_top.specs.Telling.{Tells};
ghost use Rattle.hp_top.specs.Touching.{Touches, IsUntouched, input_run};
ghost use Rattle.hp_code.specs.CodeViews.{compiled};
ghost use Rattle.hp_code.specs.Listing.{listing_text};

use crate::loading::load_domain;
use crate::refusing::{refuse, refuse_files};
use crate::writing::write;
use hp_check::check_domain;
use hp_code::laws::codes_have_one_listing;
use hp_code::{listing, lower};
use hp_io::{Folder, Sink};
use hp_out::Refusal;
use hp_syntax::{Domain, Status};
use hp_telling::Halt;
use std::alloc::{AllocError, Global};

/// The listing of the code of a domain in which the checks find nothing.
fn code_text(alloc: Global, domain: &Domain) -> Result<Vec<u8>, AllocError>
    requires numbered { IsNumberedDomain (domain_of domain.now) }
    requires checked { first_of (domain_faults (domain_of domain.now)) ≡ None }
    ensures { IfOk result (λ text. text.items ≡ listing_text (compiled (domain_of domain.now).rules)) }
{
    // Nothing runs here: the law makes known that the listing is that of the domain's rules.
    codes_have_one_listing();
    let code = lower(alloc, domain)?;
    listing(alloc, &code)
}

/// Writes a text whole.
fn tell_text<K: Sink>(text: &[u8], out: &mut K) -> Status
    ensures tells { Tells (text.now, Status.Done) result
        (sink_run (K.faults out.old) (K.faults out.new) (K.bytes out.old) (K.bytes out.new)) }
    ensures later { K.faults out.old ≤ K.faults out.new }
{
    match write(out, text) {
        Ok(()) => Status::Done,
        Err(Halt::NoMemory) => Status::NoMemory,
        Err(Halt::Failed) => Status::WriteFault,
    }
}

/// Checks a domain that is read, and writes the listing of its code.
fn tell_code<K: Sink>(alloc: Global, domain: Domain, out: &mut K) -> Status
    requires { IsNumberedDomain (domain_of domain) }
    ensures tells { Tells (listing_answer (domain_of domain)) result
        (sink_run (K.faults out.old) (K.faults out.new) (K.bytes out.old) (K.bytes out.new)) }
    ensures later { K.faults out.old ≤ K.faults out.new }
{
    if let Some(fault) = check_domain(&domain) {
        return refuse(out, &Refusal::Check(fault));
    }
    match code_text(alloc, &domain) {
        Ok(text) => tell_text(text.as_slice(), out),
        Err(_) => Status::NoMemory,
    }
}

/// Reads a domain, and writes the listing of its code.
pub fn serve_code<F: Folder, K: Sink>(
    alloc: Global,
    name: &str,
    folder: &mut F,
    out: &mut K,
) -> Status
    ensures serves { ServesListing name.now
        (folder_run (F.file folder.old) (F.faults folder.old) (F.faults folder.new)) result
        (sink_run (K.faults out.old) (K.faults out.new) (K.bytes out.old) (K.bytes out.new)) }
    ensures files { (n : List ℕ) → F.file folder.new n ≡ F.file folder.old n }
    ensures later { (w : Input) → F.faults folder.old w ≤ F.faults folder.new w }
    ensures out_later { K.faults out.old ≤ K.faults out.new }
    ensures touched { Touches (F.file folder.old name.now) (input_run
        (F.begun folder.old inputs.Domain) (F.begun folder.new inputs.Domain)
        (F.rest folder.old inputs.Domain) (F.rest folder.new inputs.Domain)) }
    ensures others { (w : Input) → w ≢ inputs.Domain → IsUntouched
        (input_run (F.begun folder.old w) (F.begun folder.new w) (F.rest folder.old w) (F.rest folder.new w)) }
{
    match load_domain(alloc, folder, name) {
        Ok(domain) => tell_code(alloc, domain, out),
        Err(error) => refuse_files(out, error),
    }
}
