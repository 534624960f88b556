//! The lines that name items, and how far a conversion has come.

ghost use Rattle.std.specs.Prelude.{◌≡◌, ◌+◌, ◌<◌, ◌^◌, false};
ghost use Rattle.mod_feed.specs.Items.{item_of, IsReadItem};
ghost use Rattle.report_text.specs.Report.{item_line};
ghost use Rattle.cmd_convert.specs.Naming.{NamesItems};

use drm_links::Sink;
use mod_feed::{FeedItem, Step};
use report_text::LineWriter;

/// How far a conversion has come.
#[derive(Clone, Copy, Debug, PartialEq, Eq)]
pub(crate) struct Progress {
    /// How many items were given.
    pub given: u64,
    /// None of them is missing or bad.
    pub clean: bool,
    /// Each line that names one was written whole.
    pub err_ok: bool,
}

/// Names an item that is missing or bad. After a failed write nothing more is written.
pub(crate) fn name<E: Sink>(
    err: &mut E,
    lines: &mut LineWriter,
    progress: &mut Progress,
    item: FeedItem<'_>,
)
    requires within_limit { progress.old.given < 2 ^ 62 }
    requires read { IsReadItem item }
    ensures given { progress.new.given ≡ progress.old.given + 1 }
    ensures clean { progress.new.clean ≡ false }
    ensures names { NamesItems progress.old.err_ok progress.new.err_ok (E.known err.old) (E.known err.new)
        (item_line (item_of item.entry)) }
{
    progress.given += 1;
    progress.clean = false;
    if progress.err_ok {
        let step = Step { before: None, item };
        progress.err_ok = lines.write_step(err, &step).is_ok();
    }
}
