//! Laws of the canonical text.

ghost use Rattle.std.specs.Prelude.{◌≡◌, ◌↔◌, IsUtf8};
ghost use Rattle.plan_writer.specs.Canonical.{canonical};
ghost use Rattle.drm_plan.specs.Files.{without_files};
ghost use Rattle.law_plan.specs.Texts.{IsReadAgain};

use drm_schedule::Schedule;

/// The canonical text of a schedule is UTF-8, and is read as the schedule again, but for the bytes of its files; and two
/// schedules have one canonical text exactly where they are equal but for these.
pub fn canonical_texts_are_read_again(a: &Schedule, b: &Schedule)
    ensures utf8 { IsUtf8 (canonical a.now) }
    ensures again { IsReadAgain a.now }
    ensures one_text { canonical a.now ≡ canonical b.now ↔ without_files a.now ≡ without_files b.now }
{
    // For its clause alone: each schedule is valid.
    a.always_valid();
    b.always_valid();
}
