//! The files that the stream lines of a text name.

ghost use Rattle.std.specs.Prelude.{◌≡◌, ◌++◌, OnOk};
ghost use Rattle.drm_schedule.specs.Ranges.{InLines, ConfigInLines, StreamInLines};
ghost use Rattle.drm_plan.specs.Files.{stream_files, file_here, name_of, name_of_stream, name_in, filled_stream, filled_config, with_file};
ghost use Rattle.drm_plan.specs.Lookup.{at};

use drm_bits::NoMemory;
use drm_schedule::{Config, Content, Octets, OwnedList, Plan, Stream};

/// A stream that takes its bytes from a file: the numbers of its configuration and of the stream there, from 0.
#[derive(Clone, Copy)]
pub struct FileRef {
    pub config: usize,
    pub stream: usize,
}

fn put_file(files: &mut OwnedList<FileRef>, file: FileRef, stream: &Stream) -> Result<(), NoMemory>
    ensures { OnOk result (files.new ≡ files.old ++ file_here file.config file.stream stream.now) }
{
    if let Content::File { .. } = &stream.content {
        files.push(file)?;
    }
    Ok(())
}

/// Puts the files of a configuration's streams behind the others.
pub fn put_files(
    files: &mut OwnedList<FileRef>,
    config: usize,
    streams: &[Stream],
) -> Result<(), NoMemory>
    ensures { OnOk result (files.new ≡ files.old ++ stream_files config 0 streams.now) }
{
    for (stream, of) in streams.iter().enumerate() {
        put_file(files, FileRef { config, stream }, of)?;
    }
    Ok(())
}

impl FileRef {
    /// The name of the file.
    pub fn name(self, plan: &Plan) -> &str
        requires { InLines plan.now }
        ensures { result.now ≡ name_of self plan.now }
    {
        match plan.configs.as_slice().get(self.config) {
            Some(config) => config_name(config, self.stream),
            None => "",
        }
    }
}

fn config_name(config: &Config, stream: usize) -> &str
    requires { ConfigInLines config.now }
    ensures { result.now ≡ name_of_stream (at stream config.now.streams) }
{
    match config.streams.as_slice().get(stream) {
        Some(stream) => stream_name(stream),
        None => "",
    }
}

fn stream_name(stream: &Stream) -> &str
    requires { StreamInLines stream.now }
    ensures { result.now ≡ name_in stream.now.content }
{
    match &stream.content {
        Content::Fill(_) => "",
        Content::File { name, .. } => name.as_text().unwrap_or(""),
    }
}

fn fill_stream(stream: &mut Stream, bytes: Octets)
    ensures { stream.new ≡ filled_stream bytes stream.old }
{
    if let Content::File { bytes: place, .. } = &mut stream.content {
        *place = bytes;
    }
}

fn fill_config(config: &mut Config, stream: usize, bytes: Octets)
    ensures { config.new ≡ filled_config stream bytes config.old }
{
    if stream < config.streams.len() {
        fill_stream(config.streams.get_mut(stream), bytes);
    }
}

/// Gives a file its bytes, in place of those that it may have.
pub fn put_bytes(plan: &mut Plan, file: FileRef, bytes: Octets)
    ensures { plan.new ≡ with_file file bytes plan.old }
{
    if file.config < plan.configs.len() {
        fill_config(plan.configs.get_mut(file.config), file.stream, bytes);
    }
}
