//! Files of the system as a shelf gives them.

use crate::calls::{Gave, what_it_gave};
use cli_notices::Edge;
use drm_adapt::FileShelf;
use drm_links::Shelf;
use std::alloc::Global;
use std::io::Eprint;
use std::path::PathBuf;
use std::rt::{Env, Files};
use std::{env, fs};

fn gives<S: Shelf>(alloc: Global, shelf: &mut S, name: &str, limit: usize, gave: Gave<'_>) -> bool {
    let loaded = shelf.load(alloc, name, limit);
    what_it_gave(&loaded) == gave
}

const PLAN: Gave<'static> = Gave::File(b"drmplan 1");

fn gives_what_stands<S: Shelf>(alloc: Global, shelf: &mut S, file: &str) -> bool {
    gives(alloc, shelf, file, 0, Gave::TooLong)
        && gives(alloc, shelf, file, 8, Gave::TooLong)
        && gives(alloc, shelf, file, 9, PLAN)
        && gives(alloc, shelf, file, usize::MAX, PLAN)
}

// A file that is gone, a directory, and one that has no end.
fn gives_no_other<S: Shelf>(alloc: Global, shelf: &mut S, file: &str, folder: &str) -> bool {
    gives(alloc, shelf, file, 10, Gave::Failed)
        && gives(alloc, shelf, folder, 10, Gave::Failed)
        && gives(alloc, shelf, "/dev/zero", 1000, Gave::TooLong)
}

// A file of the system is given while it is there.
fn loads<R: Files + Eprint>(rt: &R, alloc: Global, file: &str, folder: &str) -> bool {
    let edge = Edge::new(rt, alloc, "test_links");
    let mut shelf = FileShelf::new(&edge);
    fs::write(rt, file, "drmplan 1").is_ok()
        && gives_what_stands(alloc, &mut shelf, file)
        && fs::remove_file(rt, file).is_ok()
        && gives_no_other(alloc, &mut shelf, file, folder)
}

// Names of a folder of its own: runs of the test that go on at once take one each.
const FOLDERS: &[&str] = &[
    "drm_adapt_test_0",
    "drm_adapt_test_1",
    "drm_adapt_test_2",
    "drm_adapt_test_3",
];

fn loads_in<R: Files + Eprint>(rt: &R, alloc: Global, folder: &PathBuf) -> bool {
    let loaded = match folder.join(alloc, "plan") {
        Ok(file) => loads(rt, alloc, file.as_str(), folder.as_str()),
        Err(_) => false,
    };
    fs::remove_dir(rt, folder.as_str()).is_ok() && loaded
}

fn loads_files<R: Files + Eprint + Env + AllocGlobal>(rt: &R, alloc: Global) -> bool {
    let Ok(temporary) = env::temp_dir(rt) else {
        return false;
    };
    for name in FOLDERS {
        let Ok(folder) = temporary.join(alloc, *name) else {
            return false;
        };
        if fs::create_dir(rt, folder.as_str()).is_ok() {
            return loads_in(rt, alloc, &folder);
        }
    }
    false
}

#[test]
fn loads_files_of_the_system(rt: HostRuntime) {
    assert!(rt; loads_files(&rt, rt.alloc()));
}
