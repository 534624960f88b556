//! A text whose lines are right, and whose files are still to come.

ghost use Rattle.std.specs.Prelude.{◌≡◌, ◌<◌, ◌≤◌, length, slice_index_or};
ghost use Rattle.drm_schedule.specs.Ranges.{InLines};
ghost use Rattle.drm_plan.specs.Draft.{name_at, line_at, attached, valid_of};
ghost use Rattle.drm_plan.specs.Lookup.{at};

use crate::files::{FileRef, put_bytes};
use crate::places::{LineNumbers, place_line};
use drm_schedule::{Octets, OwnedList, Place, Plan, Schedule};
use plan_rules::{PlanFault, fault_at_line};
use std::marker::Model;

/// What the lines of a text give, while the files that it names come.
#[derive(Drop)]
pub struct Draft {
    plan: Plan,
    places: OwnedList<LineNumbers>,
    files: OwnedList<FileRef>,
}

impl Model for Draft {
    ghost use Rattle.drm_schedule.specs.Ranges.{InLines};
    ghost use Rattle.drm_plan.specs.Projection.{DraftContents};

    ghost Value = { DraftContents };

    ghost view = { λ d. record { plan = d.plan; places = d.places; files = d.files } };

    ghost invariant = { λ d. InLines d.plan };
}

impl Draft {
    ghost use Rattle.drm_plan.specs.Projection.{DraftContents};

    /// What lines that a text can have give.
    pub(crate) fn new(
        plan: Plan,
        places: OwnedList<LineNumbers>,
        files: OwnedList<FileRef>,
    ) -> Draft
        requires { InLines plan }
        ensures plan { result.plan ≡ plan }
        ensures places { result.places ≡ places }
        ensures files { result.files ≡ files }
    {
        Draft {
            plan,
            places,
            files,
        }
    }

    /// How many files there are: one for each stream line that names one.
    pub fn files(&self) -> usize
        ensures { result ≡ length self.now.files }
    {
        self.files.len()
    }

    /// The name of the file with this number, from 0, in the order of the stream lines.
    pub fn file_name(&self, k: usize) -> &str
        requires { k < length self.now.files }
        ensures { result.now ≡ name_at self.now k }
    {
        let file = self.files.get(k);
        file.name(&self.plan)
    }

    /// The line that names this file, from 1.
    pub fn file_line(&self, k: usize) -> u32
        requires { k < length self.now.files }
        ensures { result ≡ line_at self.now k }
    {
        let file = self.files.get(k);
        place_line(
            self.places.as_slice(),
            file.config,
            Place::Stream(file.stream),
        )
    }

    /// Gives a file its bytes, in place of those that it may have. A file without has none.
    pub fn attach(&mut self, k: usize, bytes: Octets)
        requires file { k < length self.old.files }
        ensures { self.new ≡ attached self.old k bytes }
    {
        let file = *self.files.get(k);
        put_bytes(&mut self.plan, file, bytes);
    }

    /// The schedule, where it is valid. Else the draft is dropped.
    pub fn valid(self) -> Result<Schedule, PlanFault>
        ensures { result ≡ valid_of self }
    {
        let Draft { plan, places, .. } = self;
        match Schedule::checked(plan) {
            Ok(schedule) => Ok(schedule),
            Err(fault) => Err(fault_at_line(
                place_line(places.as_slice(), fault.config, fault.place),
                fault.reason,
            )),
        }
    }
}
