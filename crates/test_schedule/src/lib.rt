//! Tests of the texts and the frames of a schedule: texts as lines and words (`text_lines`),
//! schedules (`drm_schedule`, `drm_plan`), their frames with FAC and SDC blocks (`drm_timeline`),
//! reconfigurations (`drm_reconfiguration`), scripts (`plan_script`), and what the words of a
//! command line ask for (`drm_words`).
//!
//! It stands on the public calls of these crates; schedules are read from the texts of
//! `test_support`. Expected values are worked out by hand, or computed by `tools/standards.py`.
//!
//! What is wrong with a text is tested by the cases of `check` in `test_cases`; the packets of
//! frames in `test_top`, and by the cases of `serve`.
//!
//! Run it with `rt test` in the folder. Begin with `lines.rt`, then `frames.rt`. `words.rt` matches
//! over all requests, so a new command has a row there.
#![tactic(auto)]

#[cfg(test)]
mod frames;
#[cfg(test)]
mod lines;
#[cfg(test)]
mod schedules;
#[cfg(test)]
mod scripts;
#[cfg(test)]
mod switches;
#[cfg(test)]
mod words;
#[cfg(test)]
mod wrong;
