//! The lines of `capacity`.

ghost use Rattle.std.specs.Prelude.{◌≡◌, ◌++◌, ◌≤◌, length, OnOk, IfOk, All};
ghost use Rattle.std.specs.List.{flat_map};
ghost use Rattle.cmd_capacity.specs.Asked.{HasChannel};
ghost use Rattle.cmd_capacity.specs.Pieces.{piece_text, text_of};
ghost use Rattle.cmd_capacity.specs.Report as lines;

use crate::piece::LinePiece;
use crate::setup::used_by;
use drm_bits::NoMemory;
use drm_channel::Usage;
use drm_schedule::{Config, Schedule};
use itoa::Buffer;
use std::alloc::{AllocError, Global};

fn put_piece(out: &mut Vec<u8>, piece: LinePiece<'_>) -> Result<(), AllocError>
    ensures { OnOk result (out.new.items ≡ out.old.items ++ piece_text piece.entry) }
{
    match piece {
        LinePiece::Words(words) => out.extend_from_slice(words.as_bytes()),
        LinePiece::Number(n) | LinePiece::Maybe(Some(n)) => {
            out.extend_from_slice(Buffer::new().format(n).as_bytes())
        }
        LinePiece::Maybe(None) => out.extend_from_slice(b"-"),
    }
}

fn put(out: &mut Vec<u8>, pieces: &[LinePiece<'_>]) -> Result<(), AllocError>
    ensures { OnOk result (out.new.items ≡ out.old.items ++ text_of pieces.now) }
{
    for piece in pieces {
        put_piece(out, *piece)?;
    }
    Ok(())
}

fn put_usage(out: &mut Vec<u8>, start: u32, usage: &Usage) -> Result<(), AllocError>
    ensures { OnOk result (out.new.items ≡ out.old.items ++ lines.usage_line start usage.now) }
{
    let line = [
        LinePiece::Words("config "),
        LinePiece::Number(start),
        LinePiece::Words(" cells "),
        LinePiece::Number(usage.cells),
        LinePiece::Words(" part-a "),
        LinePiece::Number(u32::from(usage.part_a)),
        LinePiece::Words(" cells "),
        LinePiece::Maybe(usage.part_a_cells),
        LinePiece::Words(" part-b "),
        LinePiece::Number(u32::from(usage.part_b)),
        LinePiece::Words(" of "),
        LinePiece::Maybe(usage.part_b_room),
        LinePiece::Words(" sdc "),
        LinePiece::Number(u32::from(usage.sdc)),
        LinePiece::Words(" of "),
        LinePiece::Number(u32::from(usage.sdc_room)),
        LinePiece::Words(" rate "),
        LinePiece::Number(usage.rate()),
        LinePiece::Words("\n"),
    ];
    put(out, &line)
}

// The line of something that doesn't fit, where this holds.
fn put_unfit_if(
    out: &mut Vec<u8>,
    holds: bool,
    how: &'static str,
    start: u32,
    what: &'static str,
) -> Result<(), AllocError>
    ensures { OnOk result (out.new.items ≡ out.old.items ++ lines.unfit_line_if holds how.now start what.now) }
{
    if !holds {
        return Ok(());
    }
    let line = [
        LinePiece::Words(how),
        LinePiece::Words(" "),
        LinePiece::Number(start),
        LinePiece::Words(" "),
        LinePiece::Words(what),
        LinePiece::Words("\n"),
    ];
    put(out, &line)
}

fn put_unfit(out: &mut Vec<u8>, start: u32, usage: &Usage) -> Result<(), AllocError>
    ensures { OnOk result (out.new.items ≡ out.old.items ++ lines.unfit_lines start usage.now) }
{
    put_unfit_if(out, usage.is_part_a_over(), "over", start, "part-a")?;
    put_unfit_if(out, usage.is_part_b_over(), "over", start, "part-b")?;
    put_unfit_if(out, usage.is_sdc_over(), "over", start, "sdc")?;
    put_unfit_if(out, usage.is_sdc_short(), "short", start, "sdc")
}

fn put_config(out: &mut Vec<u8>, config: &Config) -> Result<(), AllocError>
    requires { HasChannel config.now }
    ensures { OnOk result (out.new.items ≡ out.old.items ++ lines.config_lines config.now) }
{
    let usage = used_by(config);
    put_usage(out, config.start, &usage)?;
    put_unfit(out, config.start, &usage)
}

fn put_configs(out: &mut Vec<u8>, configs: &[Config]) -> Result<(), AllocError>
    requires { All HasChannel configs.now }
    ensures { OnOk result (out.new.items ≡ out.old.items ++ flat_map lines.config_lines configs.now) }
{
    for config in configs {
        put_config(out, config)?;
    }
    Ok(())
}

fn put_end(out: &mut Vec<u8>, configs: u32, unfit: u32) -> Result<(), AllocError>
    ensures { OnOk result (out.new.items ≡ out.old.items ++ lines.end_line configs unfit) }
{
    let line = [
        LinePiece::Words("end configs "),
        LinePiece::Number(configs),
        LinePiece::Words(" unfit "),
        LinePiece::Number(unfit),
        LinePiece::Words("\n"),
    ];
    put(out, &line)
}

// How many of these don't fit.
fn unfit_count(configs: &[Config]) -> usize
    requires { All HasChannel configs.now }
    ensures count { result ≡ lines.unfit_count configs.now }
    ensures at_most { result ≤ length configs.now }
{
    let mut count = 0;
    for config in configs {
        if !used_by(config).fits() {
            count += 1;
        }
    }
    count
}

/// Whether each configuration of a schedule fits.
pub(crate) fn all_fit(schedule: &Schedule) -> bool
    ensures { result ≡ lines.all_fit schedule.now }
{
    schedule.always_valid();
    unfit_count(schedule.configs().as_slice()) == 0
}

/// The lines of a schedule.
pub(crate) fn write_report(alloc: Global, schedule: &Schedule) -> Result<Vec<u8>, NoMemory>
    ensures { IfOk result (λ text. text.items ≡ lines.report schedule.now) }
{
    schedule.always_valid();
    let configs = schedule.configs().as_slice();
    let mut out = Vec::new(alloc);
    put_configs(&mut out, configs)?;
    put_end(&mut out, configs.len() as u32, unfit_count(configs) as u32)?;
    Ok(out)
}
