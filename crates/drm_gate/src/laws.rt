//! The law of a gateway's run, on a function that does nothing.

ghost use Rattle.drm_gate.specs.Laws.{EachLinkGets, EachLinkTakes};

/// Over each link that was up goes what has become of all that was heard, or, where it fails, the first of it, and it takes no more.
pub fn each_link()
    ensures gets { EachLinkGets }
    ensures takes { EachLinkTakes }
{}
