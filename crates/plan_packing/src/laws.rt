//! The laws of packing, on a function that does nothing.

ghost use Rattle.plan_packing.specs.Laws.{FindsThePacking, FindsNone, TestsForAPacking};

/// Sizes have at most one packing. It is found, and none is found exactly where there is none.
pub fn one_packing()
    ensures found { FindsThePacking }
    ensures none { FindsNone }
    ensures tested { TestsForAPacking }
{}
