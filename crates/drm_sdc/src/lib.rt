//! The Service Description Channel (SDC) of Digital Radio Mondiale (ES 201 980, "Service
//! Description Channel"): what a receiver learns of the multiplex beside the Fast Access Channel,
//! as typed entities in a block with its check value; read and written. An entity of a type that
//! isn't known here is kept as its bytes.
//!
//! It builds on `drm_bits` (fields, the check value, the multiplex description). It is used by
//! `mdi_items` (the `sdc_` item), `drm_schedule` (entities as values), `drm_timeline` (the block of
//! each super frame) and `report_text`.
//!
//! `drm_timeline` determines which entities a super frame has and in which order, `plan_packing`
//! how an announcement is spread over several blocks. Entities as lines of text: `plan_lines`,
//! `plan_writer`.
//!
//! Begin with `read_block` (`src/block.rt`), `write_block` (`src/written_block.rt`) and `Body`
//! (`src/body.rt`). `IsBlock` (`specs/Block.antt`) is a block, `IsEntity` (`specs/Entity.antt`) an
//! entity, and `body_fields` (`specs/Bodies.antt`) the table of fields of each type.
#![tactic(auto)]

mod application;
mod audio;
mod block;
mod body;
mod channels;
mod description;
mod entities;
mod entity;
mod fault;
mod field;
mod fits;
mod frequencies;
mod next_entity;
mod optional;
mod put;
mod read_body;
mod service;
mod settings;
mod size;
mod unpack;
mod write_body;
mod write_field;
mod write_service;
mod write_settings;
mod written_block;

pub use block::{Block, BlockInfo, check_block, read_block};
pub use body::{AppMode, Body};
pub use channels::{Channel15, Channels};
pub use drm_bits::{MuxDesc, Octets, Part};
pub use entities::Entities;
pub use entity::Entity;
pub use fault::{NoRoom, SdcFault};
pub use field::read_entities;
pub use put::put_zeros;
pub use write_field::{total_size, write_entities, write_entity};
pub use written_block::{frame_field, write_block};
