//! The words of the command line.

ghost use Rattle.std.specs.Prelude.{◌≡◌, [], drop, IfOk, MatchResult};
ghost use Rattle.std.specs.Vec.Iter.{into_iter_items};

use drm_bits::NoMemory;
use std::alloc::{AllocError, Global};
use std::env::Args;
use std::io::{self, ErrorKind};

/// The words behind the program's name. An argument that isn't UTF-8 is in no command line: there
/// are no words then, which aren't one either.
pub fn given_words(alloc: Global, arguments: io::Result<Args>) -> Result<Vec<String>, NoMemory>
    ensures { IfOk result (λ words. MatchResult arguments
        (λ all. words.items ≡ drop 1 (into_iter_items all)) (λ _. words.items ≡ [])) }
{
    match arguments {
        Ok(all) => words_behind(alloc, all),
        Err(fault) if fault.kind() == ErrorKind::OutOfMemory => Err(NoMemory),
        Err(_) => Ok(Vec::new(alloc)),
    }
}

fn words_behind(alloc: Global, all: Args) -> Result<Vec<String>, NoMemory>
    ensures { IfOk result (λ words. words.items ≡ drop 1 (into_iter_items all)) }
{
    let mut words = collected(alloc, all)?;
    drop_program(&mut words);
    Ok(words)
}

fn collected(alloc: Global, all: Args) -> Result<Vec<String>, AllocError>
    ensures { IfOk result (λ words. words.items ≡ into_iter_items all) }
{
    let mut words = Vec::new(alloc);
    for word in all {
        words.push(word)?;
    }
    Ok(words)
}

// Drops the program's name, the first of the arguments.
fn drop_program(words: &mut Vec<String>)
    ensures { words.new.items ≡ drop 1 words.old.items }
{
    if !words.is_empty() {
        words.remove(0);
    }
}
