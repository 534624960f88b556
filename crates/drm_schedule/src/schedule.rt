//! Schedules.

ghost use Rattle.std.specs.Prelude.{◌≡◌, ◌↔◌, IsOk, IfOk, IfErr, None, Some};
ghost use Rattle.drm_schedule.specs.Ranges.{InLines};
ghost use Rattle.drm_schedule.specs.Valid as valid;
ghost use Rattle.drm_schedule.specs.Valid.{IsSchedule, AreFaultless};

use crate::valid::first_invalid;
use crate::{Carry, Configs, Invalid, Plan};
use std::marker::Model;

/// A plan that is valid.
#[derive(Drop)]
pub struct Schedule {
    plan: Plan,
}

impl Model for Schedule {
    ghost use Rattle.drm_schedule.specs.declared.plan.Plan.{Plan};

    ghost Value = { Plan };

    ghost use Rattle.drm_schedule.specs.Valid.{IsSchedule};

    ghost view = { λ s. s.plan };

    ghost invariant = { λ s. IsSchedule s.plan };
}

impl Schedule {
    /// The plan as a schedule, or the first thing that is wrong with it.
    pub fn checked(plan: Plan) -> Result<Schedule, Invalid>
        requires { InLines plan }
        ensures valid { IsOk result ↔ (valid.first_invalid plan ≡ None) }
        ensures same { IfOk result (λ s. s ≡ plan) }
        ensures first { IfErr result (λ fault. valid.first_invalid plan ≡ Some fault) }
    {
        match first_invalid(&plan) {
            None => Ok(Schedule { plan }),
            Some(fault) => Err(fault),
        }
    }

    /// How the packets are carried.
    pub fn carry(&self) -> Carry
        ensures { result ≡ self.now.carry }
    {
        self.plan.carry
    }

    /// The sequence number of the first packet.
    pub fn seq(&self) -> u16
        ensures { result ≡ self.now.seq }
    {
        self.plan.seq
    }

    /// The counter of the first frame.
    pub fn dlfc(&self) -> u32
        ensures { result ≡ self.now.dlfc }
    {
        self.plan.dlfc
    }

    /// How many super frames there are.
    pub fn length(&self) -> u32
        ensures { result ≡ self.now.length }
    {
        self.plan.length
    }

    /// The configurations, in the order of their starts.
    pub fn configs(&self) -> &Configs
        ensures { result.now ≡ self.now.configs }
    {
        &self.plan.configs
    }

    /// A law: each schedule is valid, and none of its configurations has a fault. The call does nothing.
    pub fn always_valid(&self)
        ensures schedule { IsSchedule self.now }
        ensures faultless { AreFaultless self.now None self.now.configs }
    {
        let _ = &self.plan;
    }
}
