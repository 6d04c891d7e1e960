//! Looking at files by their names, before any of them is opened.

ghost use Rattle.std.specs.Prelude.{◌≡◌, ◌⊎◌, ◌++◌, ◌∷◌, [], Bool, IfErr, Ok, OnErr, OnOk, Option, Some, false, map, true};
ghost use Rattle.std.specs.List.{list_any, position_or_len};
ghost use Rattle.std.specs.Option.{option_map};
ghost use Rattle.std.specs.Result.{result_err};
ghost use Rattle.indexmap.specs.IndexSet.{keys};
ghost use Rattle.auction_input.specs.FileCalls.{AreBegun, AreAsked, look_at, looks, looks_written};
ghost use Rattle.auction_input.specs.FileTexts.{IsFound, named_files};
ghost use Rattle.auction_input.specs.FileLooks.{AreTaken, Finding, FindsNothing, FindsWritten, IsFirstRefused, FindsAgainst, is_same, names_read, read_as, refusal_after};
ghost use Rattle.auction_input.specs.declared.files.FileFault.TheVariants as file_fault;
ghost use Rattle.auction_input.specs.declared.files.Identity.{Identity as File};

use crate::files::{FileFault, FilePlace, FileRefusal, Files, Identity, is_standard_output};
use crate::input::is_standard_input;
use indexmap::IndexSet;
use std::alloc::Global;

// What distinguishes the files that are read, in their order.
type Seen = IndexSet<Option<Identity>>;

// What distinguishes what is read by a name, a file or standard input, or why it isn't read.
fn find<D: Files>(files: &mut D, name: &str) -> Result<Option<Identity>, FileFault>
    ensures found { IsFound (read_as (D.shelf files.old) name.now) result }
    ensures shelf_kept { D.shelf files.new ≡ D.shelf files.old }
    ensures called { AreAsked (look_at name.now ∷ []) (D.calls files.old) (D.calls files.new) }
{
    if is_standard_input(name) {
        return Ok(files.standard_input());
    }
    match files.readable(name) {
        Ok(file) => Ok(Some(file)),
        Err(fault) => Err(fault),
    }
}

// Notes a file that is read, which none of those before it may be.
fn note(seen: &mut Seen, file: Option<Identity>) -> Result<(), FileFault>
    ensures noted { OnOk result ((list_any (is_same file) (keys seen.old) ≡ false)
        × (keys seen.new ≡ keys seen.old ++ file ∷ [])) }
    ensures read_already { IfErr result (λ f. (f ≡ file_fault.OutOfMemory)
        ⊎ ((list_any (is_same file) (keys seen.old) ≡ true)
        × (f ≡ file_fault.ReadAlready (position_or_len (is_same file) (keys seen.old))))) }
{
    match seen.insert_full(file) {
        Ok((_, true)) => Ok(()),
        Ok((first, false)) => Err(FileFault::ReadAlready(first)),
        Err(_) => Err(FileFault::OutOfMemory),
    }
}

// A file at that place isn't read.
fn refused(place: usize, fault: FileFault) -> FileRefusal
    ensures { result ≡ record { file = FilePlace.Read place; fault = fault } }
{
    FileRefusal {
        file: FilePlace::Read(place),
        fault,
    }
}

// Looks at what is read by a name, and notes what distinguishes it from others.
fn look_at_input<D: Files>(files: &mut D, name: &str, seen: &mut Seen) -> Result<(), FileRefusal>
    ensures taken { OnOk result ((file : Option File)
        × IsFound (read_as (D.shelf files.old) name.now) (Ok file)
        × (refusal_after (keys seen.old) (Ok file) ≡ None)
        × (keys seen.new ≡ keys seen.old ++ file ∷ [])) }
    ensures refused { IfErr result (λ r. (r.fault ≡ file_fault.OutOfMemory)
        ⊎ ((finding : Finding) × IsFound (read_as (D.shelf files.old) name.now) finding
        × (refusal_after (keys seen.old) finding ≡ Some r))) }
    ensures shelf_kept { D.shelf files.new ≡ D.shelf files.old }
    ensures called { AreAsked (look_at name.now ∷ []) (D.calls files.old) (D.calls files.new) }
{
    let place = seen.len();
    let file = match find(files, name) {
        Ok(file) => file,
        Err(fault) => return Err(refused(place, fault)),
    };
    match note(seen, file) {
        Ok(()) => Ok(()),
        Err(fault) => Err(refused(place, fault)),
    }
}

// Looks at all that is read, in order: without names that is standard input.
fn look_at_inputs<D: Files>(
    files: &mut D,
    names: &[String],
    seen: &mut Seen,
) -> Result<(), FileRefusal>
    requires { keys seen.old ≡ [] }
    ensures taken { OnOk result (AreTaken (D.shelf files.old) (names_read (named_files names.now))
        (keys seen.new)) }
    ensures refused { IfErr result (λ r. (r.fault ≡ file_fault.OutOfMemory)
        ⊎ IsFirstRefused (D.shelf files.old) (names_read (named_files names.now)) r) }
    ensures shelf_kept { D.shelf files.new ≡ D.shelf files.old }
    ensures called { OnOk result (AreAsked (map look_at (names_read (named_files names.now)))
        (D.calls files.old) (D.calls files.new)) }
    ensures begun { OnErr result (AreBegun (map look_at (names_read (named_files names.now)))
        (D.calls files.old) (D.calls files.new)) }
{
    if names.is_empty() {
        return look_at_input(files, "-", seen);
    }
    for name in names {
        match look_at_input(files, name.as_str(), seen) {
            Ok(()) => {}
            Err(refusal) => return Err(refusal),
        }
    }
    Ok(())
}

// Looks at a file that is written, which may be none of those that are read.
fn look_at_written<D: Files>(files: &mut D, name: &str, seen: &Seen) -> Result<(), FileFault>
    ensures found { FindsWritten (D.shelf files.old) (keys seen.now) name.now (result_err result) }
    ensures shelf_kept { D.shelf files.new ≡ D.shelf files.old }
    ensures called { (with_rights : Bool) × AreAsked (looks_written (Some name.now) with_rights)
        (D.calls files.old) (D.calls files.new) }
{
    if is_standard_output(name) {
        return Ok(());
    }
    let file = match files.replaced(name) {
        Ok(Some(file)) => file,
        Ok(None) => return Ok(()),
        Err(fault) => return Err(fault),
    };
    if seen.contains(&Some(file)) {
        return Err(FileFault::ReadToo);
    }
    files.rights(name)
}

/// Looks at the files that are read, in order, and then at the one that is written, and refuses the first against which
/// something is found. Without names standard input is read.
pub fn look_at_files<D: Files>(
    alloc: Global,
    files: &mut D,
    names: &[String],
    output: Option<&str>,
) -> Result<(), FileRefusal>
    ensures looked { OnOk result (FindsNothing (D.shelf files.old) (named_files names.now)
        (option_map (λ name. name.now) output.entry)) }
    ensures refused { IfErr result (FindsAgainst (D.shelf files.old) (named_files names.now)
        (option_map (λ name. name.now) output.entry)) }
    ensures shelf_kept { D.shelf files.new ≡ D.shelf files.old }
    ensures called { OnOk result ((with_rights : Bool) × AreAsked (looks (named_files names.now)
        (option_map (λ name. name.now) output.entry) with_rights) (D.calls files.old) (D.calls files.new)) }
    ensures begun { OnErr result ((with_rights : Bool) × AreBegun (looks (named_files names.now)
        (option_map (λ name. name.now) output.entry) with_rights) (D.calls files.old) (D.calls files.new)) }
{
    let mut seen = Seen::new(alloc);
    match look_at_inputs(files, names, &mut seen) {
        Ok(()) => {}
        Err(refusal) => return Err(refusal),
    }
    let Some(name) = output else {
        return Ok(());
    };
    match look_at_written(files, name, &seen) {
        Ok(()) => Ok(()),
        Err(fault) => Err(FileRefusal {
            file: FilePlace::Written,
            fault,
        }),
    }
}
