//! Files among which are names that stand for none.
ghost use Rattle.std.specs.Prelude.{◌≡◌, IfOk, OnOk, ℕ, List, option_copied};
ghost use Rattle.std.specs.BTreeMap.{get_by_text};
ghost use Rattle.program_io.specs.Files.{IsRefusal};
ghost use Rattle.named_files.specs.Refused.{after_one, refusal_at};

use crate::found::Found;
use crate::refusal::Refusal;
use program_io::file_error::FileError;
use program_io::files::Files;
use std::alloc::{AllocError, Global};
use std::collections::BTreeMap;
use std::io::{Error, ErrorKind};

/// Files, and names that stand for none. Reading such a name gives the reason, as of a file that can't be
/// read; so each is reported beside the files.
pub struct WithRefusals<'a, F> {
    pub files: &'a F,
    pub refused: BTreeMap<String, Refusal>,
}

impl<F> Drop for WithRefusals<'_, F> {
    fn drop(self) {
        let Self {
            files: _,
            refused: _,
        } = self;
    }
}

impl<F: Files> Files for WithRefusals<'_, F> {
    ghost use Rattle.std.specs.Prelude.{MatchOption};
    ghost use Rattle.std.specs.BTreeMap.{get_by_text};

    ghost holds = { λ it path bytes.
        MatchOption (get_by_text it.refused path) (F.holds it.files.now path bytes) (λ _. ⊥) };

    ghost may_fail = { λ it path.
        MatchOption (get_by_text it.refused path) (F.may_fail it.files.now path) (λ _. Unit {0}) };

    fn read(&self, alloc: Global, path: &str) -> Result<String, FileError> {
        match self.refused.get(path) {
            Some(refusal) => Err(file_error(*refusal)),
            None => self.files.read(alloc, path),
        }
    }
}

/// What keeps a name from being read that stands for no file.
fn file_error(refusal: Refusal) -> FileError
    ensures { IsRefusal result }
{
    match refusal {
        Refusal::Unlisted(FileError::CannotRead(error)) => FileError::CannotRead(error),
        Refusal::Unlisted(_) => FileError::CannotRead(Error::from(ErrorKind::Other)),
        Refusal::TooDeep => {
            let words = "folders nest too deep";
            FileError::CannotRead(Error::new(ErrorKind::InvalidInput, words))
        }
        Refusal::NothingFound => {
            FileError::CannotRead(Error::new(ErrorKind::NotFound, "nothing found"))
        }
    }
}

/// Adds the refusals of names, each under its path; of two with one path the last counts. The error is out of
/// memory.
pub fn add_refusals(
    refused: &mut BTreeMap<String, Refusal>,
    named: &[Found],
) -> Result<(), AllocError>
    ensures { OnOk result ((path : List ℕ)
        → get_by_text refused.new path ≡ refusal_at named.now path (get_by_text refused.old path)) }
{
    for one in named {
        add_refusal(refused, one)?;
    }
    Ok(())
}

/// Adds the refusal of one name, if it has one. The error is out of memory.
fn add_refusal(refused: &mut BTreeMap<String, Refusal>, one: &Found) -> Result<(), AllocError>
    ensures { OnOk result ((path : List ℕ)
        → get_by_text refused.new path ≡ after_one one.now path (get_by_text refused.old path)) }
{
    let Some(refusal) = one.refusal else {
        return Ok(());
    };
    let path = one.path.clone()?;
    refused.insert(path, refusal)?;
    Ok(())
}
